//! Calls that open a file.
use super::cases::Answer::{Done, Refused};
use super::cases::Case;
use super::cases::Said::{Cwd, NoCwd, Path};
use audit_record::NameKind::{Create, Delete, Normal, Parent, Unknown};

pub static OPENS: [Case; 16] = [
    // The parent is no target. The flag empties the file.
    (
        2,
        Done(3),
        [0, 0x201, 0, 0],
        &[
            Cwd("/a"),
            Path(Parent, Some(6), Some("/a")),
            Path(Normal, Some(7), Some("f")),
        ],
        "100 out alter file 7 /a/f; 100 set 3 file 7 /a/f; ",
    ),
    (
        257,
        Done(3),
        [0, 0, 0x80241, 0],
        &[Cwd("/a"), Path(Create, Some(7), Some("f"))],
        "birth 7 /a/f; 100 out make file 7 /a/f; 100 set 3 file 7 /a/f cloexec; ",
    ),
    // A created file goes before a later one that was there, and of several the last one counts.
    (
        257,
        Done(3),
        [0, 0, 0x40, 0],
        &[
            Path(Create, Some(6), Some("/e")),
            Path(Create, Some(7), Some("/f")),
            Path(Normal, Some(8), Some("/g")),
        ],
        "birth 7 /f; 100 out make file 7 /f; 100 set 3 file 7 /f; ",
    ),
    (
        257,
        Done(3),
        [0, 0, 0x200, 0],
        &[
            Path(Normal, Some(7), Some("/f")),
            Path(Normal, Some(8), Some("/g")),
            Path(Unknown, Some(9), Some("/h")),
        ],
        "100 out alter file 8 /g; 100 set 3 file 8 /g; ",
    ),
    // A path without number and name is no target, and one of unknown kind is the last choice.
    (
        257,
        Done(3),
        [0, 0, 0, 0],
        &[
            Path(Unknown, None, Some("../b/./h")),
            Path(Normal, None, None),
            Cwd("/a"),
        ],
        "100 set 3 file - /b/h; ",
    ),
    (
        257,
        Done(3),
        [0, 0, 0, 0],
        &[Path(Normal, Some(7), None)],
        "100 set 3 file 7 -; ",
    ),
    (
        257,
        Done(3),
        [0, 0, 0, 0],
        &[Path(Normal, None, Some(""))],
        "100 set 3 file - .; ",
    ),
    (
        257,
        Done(3),
        [0, 0, 0, 0],
        &[Path(Normal, None, None), Path(Delete, Some(7), Some("/f"))],
        "100 close 3; ",
    ),
    (
        257,
        Done(4_294_967_296),
        [0, 0, 0, 0],
        &[Path(Normal, Some(7), Some("/f"))],
        "",
    ),
    (
        257,
        Done(-1),
        [0, 0, 0, 0],
        &[Path(Normal, Some(7), Some("/f"))],
        "",
    ),
    (
        257,
        Refused(-13),
        [0, 0, 0x200, 0],
        &[Path(Normal, Some(7), Some("/f"))],
        "",
    ),
    // The first working directory counts, also where it is absent by its word.
    (
        257,
        Done(3),
        [0, 0, 0, 0],
        &[NoCwd, Cwd("/a"), Path(Normal, Some(7), Some("f"))],
        "100 set 3 file 7 f; ",
    ),
    (
        257,
        Done(3),
        [0, 0, 0, 0],
        &[Cwd("/a"), Cwd("/b"), Path(Normal, Some(7), Some("f"))],
        "100 set 3 file 7 /a/f; ",
    ),
    // The flags of openat2 aren't seen, and creat always empties.
    (
        437,
        Done(3),
        [0, 0x80200, 0x80200, 0x80200],
        &[Path(Normal, Some(7), Some("/f"))],
        "100 set 3 file 7 /f; ",
    ),
    (
        85,
        Done(3),
        [0, 0x80000, 0x80000, 0],
        &[Path(Normal, Some(7), Some("/f"))],
        "100 out alter file 7 /f; 100 set 3 file 7 /f; ",
    ),
    (
        85,
        Done(3),
        [0, 0, 0, 0],
        &[Path(Create, Some(7), Some("/f"))],
        "birth 7 /f; 100 out make file 7 /f; 100 set 3 file 7 /f; ",
    ),
];
