//! Calls that run a program, and those that begin and end processes.
use super::cases::Answer::{self, Done, Refused};
use super::cases::Case;
use super::cases::Said::{Cwd, Path};
use audit_record::NameKind::{Normal, Parent};

pub static PROCESSES: [Case; 12] = [
    // A program and the loader that its file names.
    (
        59,
        Done(0),
        [0, 0, 0, 0],
        &[
            Cwd("/a"),
            Path(Normal, Some(7), Some("sh")),
            Path(Parent, Some(6), Some("/a")),
            Path(Normal, Some(8), Some("/lib/ld.so")),
        ],
        "100 in exec file 7 /a/sh; 100 in exec file 8 /lib/ld.so; 100 exec; ",
    ),
    (
        322,
        Done(0),
        [0, 0, 0, 0],
        &[Path(Normal, None, None)],
        "100 exec; ",
    ),
    (
        322,
        Refused(-2),
        [0, 0, 0, 0],
        &[Path(Normal, Some(7), Some("/sh"))],
        "",
    ),
    (57, Done(101), [0, 0, 0, 0], &[], "100 fork 101; "),
    (57, Done(0), [0, 0, 0, 0], &[], ""),
    (57, Done(100), [0, 0, 0, 0], &[], ""),
    (58, Done(101), [0x10000, 0, 0, 0], &[], "100 fork 101; "),
    (435, Done(101), [0x10000, 0, 0, 0], &[], "100 fork 101; "),
    (435, Done(4_294_967_296), [0, 0, 0, 0], &[], ""),
    (56, Done(101), [0x0120_0011, 0, 0, 0], &[], "100 fork 101; "),
    // A thread.
    (56, Done(101), [0x003d_0f00, 0, 0, 0], &[], ""),
    (231, Answer::None, [0, 0, 0, 0], &[], "100 end; "),
];
