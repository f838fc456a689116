//! Events through the tables. The objects and flows that are wanted are worked out by hand from the rules of lives,
//! descriptors, keys and flows; long runs of events are held against the plain program, which looks back over all acts.
ghost use Rattle.std.specs.Prelude.{◌≡◌, ⊤};
ghost use Rattle.acts.specs.LookBack.{opens};

use How::{Alter, Exec, Fork, Make, Read, Write};
use Known::{AtAddress, Inode, Lost, Made, Process};
use NameKind::{Create, Delete, Normal};
use Said::{Address, Pair, Path};
use acts::{Act, Held, Object, Plain, Taken};
use audit_lex::EventKey;
use audit_record::{Body, NameKind, PathItem, Record, Syscall};
use call_acts::{acts, acts_are_few, event_acts_are_admitted};
use flow_base::{
    Bytes, Device, EntityId, FileId, Flow, Full, How, Key, Limit, Limits, List, NoMemory, Refused,
    Stamp,
};
use flow_events::{Plan, Tables};
use proc_table::Life;
use record_join::EventView;
use row_codec::{StateRow, StoreRow};
use std::alloc::Global;
use std::marker::Model;
use std::test::Fail;
use table_salt::Salt;

// What a record beside that of the call says.
#[derive(Clone, Copy)]
enum Said {
    Path(NameKind, u64, &'static str),
    Address(&'static str),
    Pair(u32, u32),
}

// A pid and its parent, the number of a call that was ok, its answer, its first three arguments, and the other records.
type Step = (u32, u32, u32, i64, [u64; 3], &'static [Said]);

// What an object is.
#[derive(Clone, Copy)]
enum Known {
    Process(u32, u64),
    Inode(u64, u64),
    AtAddress(&'static str),
    Made(u64),
    Lost(u32, u64, u32),
}

// Events, and then the objects that they make, and the flows, each with the place of its event.
type Case = (
    &'static [Step],
    &'static [Known],
    &'static [(u32, u32, u32, How)],
);

static CASES: [Case; 9] = [
    // A child is seen before the record of its fork, which claims it; a second fork of its pid begins another life.
    (
        &[
            (101, 100, 1, 5, [1, 0, 0], &[]),
            (100, 1, 57, 101, [0, 0, 0], &[]),
            (100, 1, 57, 101, [0, 0, 0], &[]),
        ],
        &[
            Process(101, 0),
            Lost(101, 0, 1),
            Process(100, 0),
            Process(101, 1),
        ],
        &[(0, 0, 1, Write), (1, 2, 0, Fork), (2, 2, 3, Fork)],
    ),
    // A pid that ended is used again, and its descriptors are others.
    (
        &[
            (100, 1, 57, 101, [0, 0, 0], &[]),
            (101, 100, 0, 4, [0, 0, 0], &[]),
            (101, 100, 231, 0, [0, 0, 0], &[]),
            (101, 100, 0, 4, [0, 0, 0], &[]),
        ],
        &[
            Process(100, 0),
            Process(101, 0),
            Lost(101, 0, 0),
            Process(101, 1),
            Lost(101, 1, 0),
        ],
        &[
            (0, 0, 1, Fork),
            (1, 2, 1, Read),
            (3, 0, 3, Fork),
            (3, 4, 3, Read),
        ],
    ),
    // An exec closes the marked descriptor 3 and leaves the unmarked 4.
    (
        &[
            (100, 1, 257, 3, [0, 0, 524_288], &[Path(Normal, 7, "/a")]),
            (100, 1, 257, 4, [0, 0, 0], &[Path(Normal, 8, "/b")]),
            (100, 1, 59, 0, [0, 0, 0], &[Path(Normal, 9, "/p")]),
            (100, 1, 1, 5, [3, 0, 0], &[]),
            (100, 1, 1, 5, [4, 0, 0], &[]),
        ],
        &[Inode(9, 0), Process(100, 0), Lost(100, 0, 3), Inode(8, 0)],
        &[(2, 0, 1, Exec), (3, 1, 2, Write), (4, 1, 3, Write)],
    ),
    // A file that is made is written through a copy of its descriptor, also once the first one is closed.
    (
        &[
            (100, 1, 257, 3, [0, 0, 0], &[Path(Create, 7, "/a")]),
            (100, 1, 33, 9, [3, 9, 0], &[]),
            (100, 1, 1, 5, [9, 0, 0], &[]),
            (100, 1, 3, 0, [3, 0, 0], &[]),
            (100, 1, 1, 5, [9, 0, 0], &[]),
        ],
        &[Process(100, 0), Inode(7, 1)],
        &[(0, 0, 1, Make), (2, 0, 1, Write), (4, 0, 1, Write)],
    ),
    // A copy of a descriptor that nobody opened holds that descriptor.
    (
        &[
            (100, 1, 32, 6, [5, 0, 0], &[]),
            (100, 1, 1, 5, [6, 0, 0], &[]),
            (100, 1, 0, 5, [5, 0, 0], &[]),
        ],
        &[Process(100, 0), Lost(100, 0, 5)],
        &[(1, 0, 1, Write), (2, 1, 0, Read)],
    ),
    // A pipe, which act 1 makes, goes to a child by its fork.
    (
        &[
            (100, 1, 293, 0, [0, 0, 0], &[Pair(3, 4)]),
            (100, 1, 57, 101, [0, 0, 0], &[]),
            (101, 100, 0, 1, [3, 0, 0], &[]),
            (100, 1, 1, 1, [4, 0, 0], &[]),
        ],
        &[Process(100, 0), Process(101, 0), Made(1)],
        &[(1, 0, 1, Fork), (2, 2, 1, Read), (3, 0, 2, Write)],
    ),
    // A child that is seen after its parent has what the parent holds.
    (
        &[
            (100, 1, 257, 3, [0, 0, 0], &[Path(Normal, 7, "/a")]),
            (101, 100, 0, 1, [3, 0, 0], &[]),
        ],
        &[Process(100, 0), Process(101, 0), Inode(7, 0)],
        &[(1, 0, 1, Fork), (1, 2, 1, Read)],
    ),
    // A socket is its act until it is connected, and then its address.
    (
        &[
            (100, 1, 41, 3, [0, 0, 0], &[]),
            (100, 1, 1, 1, [3, 0, 0], &[]),
            (100, 1, 42, 0, [3, 0, 0], &[Address("peer")]),
            (100, 1, 1, 1, [3, 0, 0], &[]),
        ],
        &[Process(100, 0), Made(1), AtAddress("peer")],
        &[(1, 0, 1, Write), (3, 0, 2, Write)],
    ),
    // A file number that is made again is another file; a removal alters the file that it is then.
    (
        &[
            (100, 1, 83, 0, [0, 0, 0], &[Path(Create, 7, "/d")]),
            (100, 1, 84, 0, [0, 0, 0], &[Path(Delete, 7, "/d")]),
            (100, 1, 83, 0, [0, 0, 0], &[Path(Create, 7, "/d")]),
        ],
        &[Process(100, 0), Inode(7, 1), Inode(7, 2)],
        &[(0, 0, 1, Make), (1, 0, 1, Alter), (2, 0, 2, Make)],
    ),
];

fn bytes(alloc: Global, text: &'static str) -> Result<Bytes, NoMemory> {
    Bytes::from_slice(alloc, text.as_bytes())
}

fn file(ino: u64) -> FileId {
    FileId {
        device: Device { major: 8, minor: 1 },
        ino,
    }
}

fn key_of(alloc: Global, known: Known) -> Result<Key, NoMemory> {
    match known {
        Known::Process(pid, life) => Ok(Key::Process { pid, life }),
        Known::Inode(ino, born) => Ok(Key::Inode {
            file: file(ino),
            born,
        }),
        Known::AtAddress(text) => Ok(Key::Address {
            bytes: bytes(alloc, text)?,
        }),
        Known::Made(act) => Ok(Key::Made { act }),
        Known::Lost(pid, life, fd) => Ok(Key::Lost { pid, life, fd }),
    }
}

fn body(alloc: Global, said: Said) -> Result<Body, NoMemory> {
    match said {
        Said::Path(kind, ino, name) => Ok(Body::Path(PathItem {
            item: 0,
            name: Some(bytes(alloc, name)?),
            file: Some(file(ino)),
            kind,
        })),
        Said::Address(text) => Ok(Body::Sockaddr(bytes(alloc, text)?)),
        Said::Pair(first, second) => Ok(Body::FdPair { first, second }),
    }
}

fn call(alloc: Global, step: &Step, exe: &'static str) -> Result<Body, NoMemory> {
    let (pid, ppid, number, exit, [a0, a1, a2], _) = *step;
    Ok(Body::Syscall(Syscall {
        arch: 0xc000_003e,
        number,
        success: Some(true),
        exit: Some(exit),
        a0,
        a1,
        a2,
        a3: 0,
        ppid,
        pid,
        exe: Some(bytes(alloc, exe)?),
    }))
}

fn record(alloc: Global, body: Body) -> Record {
    Record {
        key: EventKey { ms: 0, serial: 0 },
        line: Bytes::new(alloc),
        body,
    }
}

fn records(alloc: Global, step: &Step) -> Result<List<Record>, NoMemory> {
    let mut records = List::new(alloc);
    records.push(record(alloc, call(alloc, step, "/p")?))?;
    for said in step.5 {
        records.push(record(alloc, body(alloc, *said)?))?;
    }
    Ok(records)
}

fn view(records: &[Record], number: u32) -> EventView<'_> {
    let ms = 1000 + u64::from(number);
    EventView {
        key: EventKey { ms, serial: number },
        ms,
        late: false,
        records,
    }
}

// The tables after the events so far, with the limits that they were made with, and the plan that each event uses again.
#[derive(Drop)]
struct Course {
    tables: Tables,
    plan: Plan,
    limits: Limits,
}

impl Model for Course {
    ghost use Rattle.std.specs.Prelude.{⊤};
    ghost use Rattle.flow_events.specs.Following.{IsCourse};

    ghost Value = { ⊤ };

    ghost view = { λ a. tt };

    ghost invariant = { λ a. IsCourse a.limits a.tables };
}

// A list of these flows.
fn copied(alloc: Global, flows: &[Flow]) -> Result<List<Flow>, NoMemory> {
    Ok(List::from_vec(Vec::from_slice(alloc, flows)?))
}

impl Course {
    fn new(alloc: Global, limits: Limits) -> Course {
        Course {
            tables: Tables::new(alloc, Salt::fixed(), &limits),
            plan: Plan::new(alloc),
            limits,
        }
    }

    // Prepares an event, and applies it if that isn't refused.
    fn take(&mut self, alloc: Global, event: &EventView<'_>) -> Result<List<Flow>, Refused> {
        event_acts_are_admitted();
        acts_are_few();
        if self.tables.acts() > 1_000_000 || event.records.len() > 1_000_000 {
            return Err(Refused::NoMemory);
        }
        self.tables.prepare(alloc, event, &mut self.plan)?;
        let flows = copied(alloc, self.plan.flows())?;
        self.tables.apply(&mut self.plan);
        Ok(flows)
    }

    // Prepares an event and leaves it at that: the flows of its plan, and whether its call isn't known.
    fn look(
        &mut self,
        alloc: Global,
        event: &EventView<'_>,
    ) -> Result<(List<Flow>, bool), Refused> {
        if self.tables.acts() > 1_000_000 || event.records.len() > 1_000_000 {
            return Err(Refused::NoMemory);
        }
        acts_are_few();
        self.tables.prepare(alloc, event, &mut self.plan)?;
        let flows = copied(alloc, self.plan.flows())?;
        Ok((flows, self.plan.unmapped()))
    }

    fn step(&mut self, alloc: Global, step: &Step, number: u32) -> Result<List<Flow>, Refused> {
        let records = records(alloc, step)?;
        self.take(alloc, &view(records.as_slice(), number))
    }

    fn objects(&self) -> u32 {
        self.tables.entities().count()
    }

    fn acts(&self) -> u64 {
        self.tables.acts()
    }

    fn flows(&self) -> u64 {
        self.tables.flows()
    }

    fn found(&self, name: &[u8]) -> Result<List<EntityId>, NoMemory> {
        self.tables.entities().find(name)
    }

    fn has_object(&self, id: u32, key: &Key) -> bool {
        let entities = self.tables.entities();
        id < entities.count() && entities.key(EntityId(id)) == key
    }
}

// The flow of an arrow at its place.
fn flow_of(arrow: (u32, u32, u32, How), place: usize) -> Flow {
    let (event, from, to, how) = arrow;
    Flow {
        from: EntityId(from),
        to: EntityId(to),
        how,
        at: Stamp {
            ms: 1000 + u64::from(event),
            place: place as u64,
        },
        serial: event,
    }
}

fn are_arrows(flows: &[Flow], arrows: &[(u32, u32, u32, How)]) -> bool {
    if flows.len() != arrows.len() {
        return false;
    }
    for (place, arrow) in arrows.iter().enumerate() {
        if flows.get(place) != Some(&flow_of(*arrow, place)) {
            return false;
        }
    }
    true
}

fn put_flows(flows: &mut List<Flow>, made: &[Flow]) -> Result<(), NoMemory> {
    for flow in made {
        flows.push(*flow)?;
    }
    Ok(())
}

fn has_objects(alloc: Global, course: &Course, keys: &[Known]) -> Result<bool, NoMemory> {
    for (id, known) in keys.iter().enumerate() {
        if !course.has_object(id.min(1_000_000) as u32, &key_of(alloc, *known)?) {
            return Ok(false);
        }
    }
    Ok(course.objects() as usize == keys.len())
}

// Whether the steps make these objects and flows.
fn makes(
    alloc: Global,
    course: &mut Course,
    flows: &mut List<Flow>,
    case: &Case,
) -> Result<bool, Refused> {
    for (number, step) in case.0.iter().enumerate() {
        let made = course.step(alloc, step, number.min(1_000_000) as u32)?;
        put_flows(flows, made.as_slice())?;
    }
    Ok(are_arrows(flows.as_slice(), case.2) && has_objects(alloc, course, case.1)?)
}

fn case_holds(alloc: Global, case: &Case) -> bool {
    let mut course = Course::new(alloc, Limits::standard());
    let mut flows = List::new(alloc);
    makes(alloc, &mut course, &mut flows, case) == Ok(true)
}

#[test]
fn events_make_these_objects_and_flows(rt: HostRuntime) {
    for case in CASES {
        assert!(rt; case_holds(rt.alloc(), &case));
    }
}

// Whether nothing was taken, although the event has a plan with these flows.
fn only_looks(
    alloc: Global,
    course: &mut Course,
    step: &Step,
    wanted: &[(u32, u32, u32, How)],
    unmapped: bool,
) -> Result<bool, Refused> {
    let records = records(alloc, step)?;
    let (flows, told) = course.look(alloc, &view(records.as_slice(), 0))?;
    Ok(are_arrows(flows.as_slice(), wanted) && told == unmapped && is_empty(course))
}

fn is_empty(course: &Course) -> bool {
    course.acts() == 0 && course.flows() == 0 && course.objects() == 0
}

fn looks(alloc: Global, step: &Step, wanted: &[(u32, u32, u32, How)], unmapped: bool) -> bool {
    let mut course = Course::new(alloc, Limits::standard());
    only_looks(alloc, &mut course, step, wanted, unmapped) == Ok(true)
}

#[test]
fn an_event_that_is_only_prepared_changes_nothing(rt: HostRuntime) {
    let fork: Step = (100, 1, 57, 101, [0, 0, 0], &[]);
    let unknown: Step = (100, 1, 39, 0, [0, 0, 0], &[]);
    let arrows: [(u32, u32, u32, How); 1] = [(0, 0, 1, Fork)];
    assert!(rt; looks(rt.alloc(), &fork, arrows.as_slice(), false));
    assert!(rt; looks(rt.alloc(), &unknown, &arrows[..0], true));
}

fn has_name(course: &Course, name: &[u8], wanted: &[EntityId]) -> Result<bool, NoMemory> {
    let found = course.found(name)?;
    Ok(found.as_slice() == wanted)
}

// The file has no number when it is named, and has one from its first flow on.
fn names_follow(alloc: Global, course: &mut Course) -> Result<bool, Refused> {
    let open: Step = (100, 1, 257, 3, [0, 0, 0], &[Path(Normal, 7, "/a")]);
    let read: Step = (100, 1, 0, 5, [3, 0, 0], &[]);
    course.step(alloc, &open, 0)?;
    let none = has_name(course, b"/a".as_slice(), [].as_slice())?;
    course.step(alloc, &read, 1)?;
    let file = has_name(course, b"/a".as_slice(), [EntityId(0)].as_slice())?;
    let process = has_name(course, b"/p".as_slice(), [EntityId(1)].as_slice())?;
    Ok(none && file && process)
}

fn names_hold(alloc: Global) -> bool {
    let mut course = Course::new(alloc, Limits::standard());
    names_follow(alloc, &mut course) == Ok(true)
}

#[test]
fn objects_have_the_names_that_acts_gave_them(rt: HostRuntime) {
    assert!(rt; names_hold(rt.alloc()));
}

static PROGRAMS: [&str; 17] = [
    "/a", "/b", "/c", "/d", "/e", "/f", "/g", "/h", "/i", "/j", "/k", "/l", "/m", "/n", "/o", "/p",
    "/q",
];

// A process that runs this program reads.
fn reads_as(
    alloc: Global,
    course: &mut Course,
    program: &'static str,
    number: u32,
) -> Result<(), Refused> {
    let read: Step = (100, 1, 0, 5, [3, 0, 0], &[]);
    let mut records = List::new(alloc);
    records.push(record(alloc, call(alloc, &read, program)?))?;
    course.take(alloc, &view(records.as_slice(), number))?;
    Ok(())
}

// After each program the first one is given again.
fn programs_are_kept(alloc: Global, course: &mut Course) -> Result<bool, Refused> {
    for program in PROGRAMS.iter() {
        reads_as(alloc, course, *program, 0)?;
        reads_as(alloc, course, PROGRAMS[0], 0)?;
    }
    let process = [EntityId(1)];
    let first = has_name(course, PROGRAMS[0].as_bytes(), process.as_slice())?;
    let sixteenth = has_name(course, PROGRAMS[15].as_bytes(), process.as_slice())?;
    let none = has_name(course, PROGRAMS[16].as_bytes(), [].as_slice())?;
    Ok(first && sixteenth && none)
}

fn programs_hold(alloc: Global) -> bool {
    let mut course = Course::new(alloc, Limits::standard());
    programs_are_kept(alloc, &mut course) == Ok(true)
}

#[test]
fn a_name_given_again_takes_no_place_and_a_seventeenth_is_not_kept(rt: HostRuntime) {
    assert!(rt; programs_hold(rt.alloc()));
}

fn small(entities: u32, flows: u64) -> Limits {
    let mut limits = Limits::standard();
    limits.entities = entities.min(100);
    limits.flows = flows.min(100);
    limits
}

fn is_full(taken: &Result<List<Flow>, Refused>, limit: Limit, number: u64) -> bool {
    match taken {
        Err(fault) => *fault == Refused::Full(Full { limit, number }),
        Ok(_) => false,
    }
}

// Whether the step is refused with this limit, and nothing of it was taken: an event without flows still goes.
fn refuses(
    alloc: Global,
    course: &mut Course,
    step: &Step,
    limit: Limit,
    number: u64,
) -> Result<bool, Refused> {
    let fork: Step = (100, 1, 57, 101, [0, 0, 0], &[]);
    let exit: Step = (101, 100, 231, 0, [0, 0, 0], &[]);
    course.step(alloc, &fork, 0)?;
    let full = is_full(&course.step(alloc, step, 1), limit, number);
    let same = course.acts() == 2 && course.flows() == 1;
    let both = has_objects(alloc, course, &[Process(100, 0), Process(101, 0)])?;
    course.step(alloc, &exit, 2)?;
    Ok(full && same && both && course.acts() == 4)
}

fn limit_holds(alloc: Global, limits: Limits, step: &Step, limit: Limit, number: u64) -> bool {
    let mut course = Course::new(alloc, limits);
    refuses(alloc, &mut course, step, limit, number) == Ok(true)
}

#[test]
fn a_limit_refuses_the_event_that_would_pass_it(rt: HostRuntime) {
    let fork: Step = (100, 1, 57, 102, [0, 0, 0], &[]);
    // Its first flow has a third object, and its second flow a fourth.
    let pass: Step = (100, 1, 40, 5, [4, 3, 0], &[]);
    for (entities, flows, step, limit, number) in [
        (2, 10, fork, Limit::Entities, 2),
        (10, 1, fork, Limit::Flows, 1),
        (2, 1, fork, Limit::Entities, 2),
        (3, 10, pass, Limit::Entities, 3),
        (10, 2, pass, Limit::Flows, 2),
    ] {
        assert!(rt; limit_holds(rt.alloc(), small(entities, flows), &step, limit, number));
    }
}

static RUN: [&[Said]; 3] = [
    &[Path(Normal, 7, "/a")],
    &[Path(Normal, 8, "/b")],
    &[Path(Normal, 9, "/c")],
];

static CREATED: [&[Said]; 3] = [
    &[Path(Create, 7, "/a")],
    &[Path(Create, 8, "/b")],
    &[Path(Create, 9, "/c")],
];

static PEERS: [&[Said]; 2] = [&[Address("peer")], &[Address("other")]];

// The next number of a linear congruence.
fn next(state: &mut u64) -> u32 {
    *state = state
        .wrapping_mul(6_364_136_223_846_793_005)
        .wrapping_add(1_442_695_040_888_963_407);
    (*state >> 33) as u32
}

// An event of a few processes, whose call puts nothing at a descriptor.
fn some_step(state: &mut u64) -> Step {
    let pid = 100 + next(state) % 4;
    let ppid = 99 + next(state) % 5;
    let fd = u64::from(next(state) % 3);
    let child = i64::from(100 + next(state) % 4);
    let file = (next(state) % 3) as usize;
    let peer = (next(state) % 2) as usize;
    match next(state) % 12 {
        0 | 1 => (pid, ppid, 57, child, [0, 0, 0], &[]),
        2 => (pid, ppid, 231, 0, [0, 0, 0], &[]),
        3 => (pid, ppid, 0, 4, [fd, 0, 0], &[]),
        4 => (pid, ppid, 1, 4, [fd, 0, 0], &[]),
        5 => (pid, ppid, 40, 4, [fd, 1, 0], &[]),
        6 => (pid, ppid, 45, 4, [fd, 0, 0], PEERS[peer]),
        7 => (pid, ppid, 44, 4, [fd, 0, 0], PEERS[peer]),
        8 => (pid, ppid, 59, 0, [0, 0, 0], RUN[file]),
        9 => (pid, ppid, 76, 0, [0, 0, 0], RUN[file]),
        10 => (pid, ppid, 83, 0, [0, 0, 0], CREATED[file]),
        _ => (pid, ppid, 39, 0, [0, 0, 0], &[]),
    }
}

// Whether an act may put something at a descriptor.
fn may_open(act: &Act) -> bool
    ensures { result ≡ opens act.now }
{
    matches!(
        act,
        Act::Set { .. } | Act::SetBoth { .. } | Act::Copy { .. } | Act::Address { .. }
    )
}

// The acts of an event with the last one first.
fn newest_first(alloc: Global, acts: List<Act>) -> Result<List<Act>, NoMemory> {
    let mut acts = acts;
    let mut turned = List::new(alloc);
    while let Some(act) = acts.pop() {
        turned.push(act)?;
    }
    Ok(turned)
}

// The plain program takes these acts, the newest of which stands first.
fn take_plainly(plain: &mut Plain, acts: List<Act>, number: u32) -> Result<(), Refused> {
    let mut acts = acts;
    while let Some(act) = acts.pop() {
        if may_open(&act) {
            return Err(Refused::NoMemory);
        }
        plain.act(Taken {
            act,
            ms: 1000 + u64::from(number),
            serial: number,
        })?;
    }
    Ok(())
}

// The plain program takes an event.
fn take_plainly_by(
    alloc: Global,
    plain: &mut Plain,
    step: &Step,
    number: u32,
) -> Result<bool, NoMemory> {
    let records = records(alloc, step)?;
    let event = view(records.as_slice(), number);
    let mut done = List::new(alloc);
    acts(alloc, &event, &Limits::standard(), &mut done)?;
    let done = newest_first(alloc, done)?;
    Ok(take_plainly(plain, done, number).is_ok())
}

// Whether both have these flows, and the same objects.
fn agree(course: &Course, plain: &Plain, flows: &[Flow]) -> bool {
    for (id, key) in plain.objects().iter().enumerate() {
        if !course.has_object(id.min(1_000_000) as u32, key) {
            return false;
        }
    }
    plain.flows() == flows && plain.known() == course.objects()
}

// Whether both make the same of a long run.
fn run(
    alloc: Global,
    course: &mut Course,
    plain: &mut Plain,
    flows: &mut List<Flow>,
    seed: u64,
) -> Result<bool, Refused> {
    let mut state = seed;
    for number in 0..250 {
        let step = some_step(&mut state);
        let taken = take_plainly_by(alloc, plain, &step, number)?;
        let made = course.step(alloc, &step, number)?;
        put_flows(flows, made.as_slice())?;
        if !taken || !agree(course, plain, flows.as_slice()) {
            return Ok(false);
        }
    }
    Ok(true)
}

fn run_agrees(alloc: Global, seed: u64) -> bool {
    let mut course = Course::new(alloc, Limits::standard());
    let mut plain = Plain::new(alloc, 10_000, 10_000);
    let mut flows = List::new(alloc);
    run(alloc, &mut course, &mut plain, &mut flows, seed) == Ok(true)
}

#[test]
fn long_runs_make_the_flows_of_the_plain_program(rt: HostRuntime) {
    for seed in [1, 2, 3] {
        assert!(rt; run_agrees(rt.alloc(), seed));
    }
}

fn state(alloc: Global, flows: u64, acts: u64) -> StateRow {
    StateRow {
        taken: 0,
        part: 0,
        lines: 0,
        used: 0,
        other: 0,
        blank: 0,
        malformed: 0,
        excess: 0,
        events: 0,
        late: 0,
        unmapped: 0,
        flows,
        acts,
        seen: false,
        greatest: 0,
        released: false,
        released_ms: 0,
        released_serial: 0,
        effective: 0,
        long: false,
        tail: Bytes::new(alloc),
        bad: List::new(alloc),
    }
}

fn life_of(number: u64) -> Life {
    Life {
        life: number,
        live: true,
        awaits: Some(1),
        linked: false,
    }
}

// A row of each kind that says something of the tables, except Entity rows.
#[test]
fn tables_are_made_again_of_rows(rt: HostRuntime) -> Result<(), Fail> {
    let alloc = rt.alloc();
    let key = Key::Process { pid: 100, life: 0 };
    let text = Bytes::from_slice(alloc, b"/p".as_slice())?;
    let bytes = Bytes::from_slice(alloc, b"here".as_slice())?;
    let held = Held {
        object: Object::Pipe(2),
        cloexec: false,
    };
    let rows = [
        StoreRow::Name { key, text },
        StoreRow::Life {
            pid: 100,
            life: life_of(0),
        },
        StoreRow::Held {
            pid: 100,
            fd: 3,
            held: Some(held),
        },
        StoreRow::Address { act: 5, bytes },
        StoreRow::Born {
            file: file(7),
            born: 2,
        },
        StoreRow::State(state(alloc, 3, 9)),
    ];
    let tables = Tables::restore(alloc, Salt::fixed(), &Limits::standard(), rows.as_slice())?;
    assert_eq!(rt; tables.flows(), 3);
    assert_eq!(rt; tables.acts(), 9);
    assert_eq!(rt; tables.entities().count(), 0);
    assert!(rt;
        tables
            .entities()
            .has_name(&Key::Process { pid: 100, life: 0 }, b"/p".as_slice())
    );
    Ok(())
}
