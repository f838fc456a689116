//! Events and their acts, each worked out by hand from the table of calls.
mod cases;
mod descriptors;
mod files;
mod opens;
mod processes;
mod told;
mod transfers;

use audit_record::NameKind;
use call_acts::{Call, acts, call_of, event_call, is_unmapped, opens_descriptors};
use cases::Answer::Done;
use cases::Said::Path;
use cases::{Case, X86_64, call, one_record, path, records, view};
use descriptors::DESCRIPTORS;
use files::FILES;
use flow_base::{Limits, List};
use opens::OPENS;
use processes::PROCESSES;
use std::test::Fail;
use told::told;
use transfers::TRANSFERS;

// Calls that have no row: getpid, a number past all, and exit, which ends a thread alone.
static OTHERS: [Case; 3] = [
    (
        39,
        Done(0),
        [0, 0, 0, 0],
        &[Path(NameKind::Create, Some(7), Some("/l"))],
        "",
    ),
    (1000, Done(0), [0, 0, 0, 0], &[], ""),
    (60, Done(0), [0, 0, 0, 0], &[], ""),
];

#[test]
fn each_call_does_what_its_row_says(rt: HostRuntime) -> Result<(), Fail> {
    let alloc = rt.alloc();
    let limits = Limits::standard();
    let mut done = List::new(alloc);
    let tables: [&[Case]; 6] = [
        &TRANSFERS,
        &OPENS,
        &DESCRIPTORS,
        &PROCESSES,
        &FILES,
        &OTHERS,
    ];
    for table in tables {
        for case in table {
            for first in [false, true] {
                let records = records(alloc, case, first)?;
                acts(alloc, &view(records.as_slice()), &limits, &mut done)?;
                let told = told(alloc, done.as_slice())?;
                let (number, wanted) = (case.0, case.4);
                let wanted = format!(in alloc; "see 100 1 /p; {wanted}")?;
                assert_eq!(rt; told.as_str(), wanted.as_str(), "call {number}");
            }
        }
    }
    Ok(())
}

#[test]
fn events_without_a_row_show_their_caller_at_most(rt: HostRuntime) -> Result<(), Fail> {
    let alloc = rt.alloc();
    let limits = Limits::standard();
    let mut done = List::new(alloc);
    // The same number at another architecture is another call.
    let records = one_record(alloc, call(alloc, 0x4000_0003, 3, Done(0), [3, 0, 0, 0])?)?;
    let event = view(records.as_slice());
    assert!(rt; is_unmapped(&event));
    assert_eq!(rt; event_call(&event), None);
    acts(alloc, &event, &limits, &mut done)?;
    assert_eq!(rt; told(alloc, done.as_slice())?.as_str(), "see 100 1 /p; ");
    // Paths without a call.
    let records = one_record(alloc, path(alloc, NameKind::Create, Some(7), Some("/f"))?)?;
    let event = view(records.as_slice());
    assert!(rt; !is_unmapped(&event));
    acts(alloc, &event, &limits, &mut done)?;
    assert!(rt; done.as_slice().is_empty());
    Ok(())
}

#[test]
fn an_event_has_the_row_of_its_call(rt: HostRuntime) -> Result<(), Fail> {
    let alloc = rt.alloc();
    let records = one_record(alloc, call(alloc, X86_64, 32, Done(4), [3, 0, 0, 0])?)?;
    let event = view(records.as_slice());
    assert!(rt; !is_unmapped(&event));
    assert_eq!(rt; event_call(&event), Some(Call::Dup));
    assert!(rt; opens_descriptors(Call::Dup));
    assert!(rt; !opens_descriptors(Call::Close));
    assert_eq!(rt; call_of(X86_64, 435), Some(Call::Fork));
    assert_eq!(rt; call_of(X86_64, 434), None);
    Ok(())
}
