//! Logs that were made apart from `audit_gen`: by another program, with PCG's published constants.

use audit_gen::generate;
use std::test::Fail;

#[test]
fn seed_1_runs_a_file_forks_and_runs_another(rt: HostRuntime) -> Result<(), Fail> {
    let log = generate(rt.alloc(), 1, 3)?;
    let wanted = "\
        type=SYSCALL msg=audit(1000.000:1): arch=c000003e syscall=59 success=yes exit=0 \
        a0=0 a1=0 a2=0 a3=0 items=0 ppid=1 pid=101 comm=\"p\" exe=\"/p\"\n\
        type=PATH msg=audit(1000.000:1): item=0 name=\"/f31\" inode=31 dev=08:01 nametype=NORMAL\n\
        type=EOE msg=audit(1000.000:1): \n\
        type=SYSCALL msg=audit(1000.001:2): arch=c000003e syscall=57 success=yes exit=109 \
        a0=0 a1=0 a2=0 a3=0 items=0 ppid=1 pid=104 comm=\"p\" exe=\"/p\"\n\
        type=EOE msg=audit(1000.001:2): \n\
        type=SYSCALL msg=audit(1000.002:3): arch=c000003e syscall=59 success=yes exit=0 \
        a0=0 a1=0 a2=0 a3=0 items=0 ppid=1 pid=107 comm=\"p\" exe=\"/p\"\n\
        type=PATH msg=audit(1000.002:3): item=0 name=\"/f26\" inode=26 dev=08:01 nametype=NORMAL\n\
        type=EOE msg=audit(1000.002:3): \n";
    assert_eq!(rt; log.as_slice(), wanted.as_bytes());
    Ok(())
}

#[test]
fn the_greatest_seed_runs_a_file_and_changes_another(rt: HostRuntime) -> Result<(), Fail> {
    let log = generate(rt.alloc(), u64::MAX, 2)?;
    let wanted = "\
        type=SYSCALL msg=audit(1000.000:1): arch=c000003e syscall=59 success=yes exit=0 \
        a0=0 a1=0 a2=0 a3=0 items=0 ppid=1 pid=101 comm=\"p\" exe=\"/p\"\n\
        type=PATH msg=audit(1000.000:1): item=0 name=\"/f2\" inode=2 dev=08:01 nametype=NORMAL\n\
        type=EOE msg=audit(1000.000:1): \n\
        type=SYSCALL msg=audit(1000.001:2): arch=c000003e syscall=90 success=yes exit=0 \
        a0=0 a1=0 a2=0 a3=0 items=0 ppid=1 pid=106 comm=\"p\" exe=\"/p\"\n\
        type=PATH msg=audit(1000.001:2): item=0 name=\"/f11\" inode=11 dev=08:01 nametype=NORMAL\n\
        type=EOE msg=audit(1000.001:2): \n";
    assert_eq!(rt; log.as_slice(), wanted.as_bytes());
    Ok(())
}

#[test]
fn seed_7_changes_a_file_and_runs_the_last_of_them(rt: HostRuntime) -> Result<(), Fail> {
    let log = generate(rt.alloc(), 7, 2)?;
    let wanted = "\
        type=SYSCALL msg=audit(1000.000:1): arch=c000003e syscall=90 success=yes exit=0 \
        a0=0 a1=0 a2=0 a3=0 items=0 ppid=1 pid=110 comm=\"p\" exe=\"/p\"\n\
        type=PATH msg=audit(1000.000:1): item=0 name=\"/f8\" inode=8 dev=08:01 nametype=NORMAL\n\
        type=EOE msg=audit(1000.000:1): \n\
        type=SYSCALL msg=audit(1000.001:2): arch=c000003e syscall=59 success=yes exit=0 \
        a0=0 a1=0 a2=0 a3=0 items=0 ppid=1 pid=114 comm=\"p\" exe=\"/p\"\n\
        type=PATH msg=audit(1000.001:2): item=0 name=\"/f32\" inode=32 dev=08:01 nametype=NORMAL\n\
        type=EOE msg=audit(1000.001:2): \n";
    assert_eq!(rt; log.as_slice(), wanted.as_bytes());
    Ok(())
}

#[test]
fn milliseconds_go_on_into_seconds(rt: HostRuntime) -> Result<(), Fail> {
    let log = generate(rt.alloc(), 42, 1_001)?;
    let last = "\
        type=SYSCALL msg=audit(1001.000:1001): arch=c000003e syscall=57 success=yes exit=101 \
        a0=0 a1=0 a2=0 a3=0 items=0 ppid=1 pid=100 comm=\"p\" exe=\"/p\"\n\
        type=EOE msg=audit(1001.000:1001): \n";
    assert_eq!(rt; log.as_slice().len(), 245_336);
    assert!(rt; log.as_slice().ends_with(last.as_bytes()));
    assert!(rt; generate(rt.alloc(), 42, 0)?.as_slice().is_empty());
    Ok(())
}
