//! Calls that alter, name, make and remove files.
use super::cases::Answer::{Done, Refused};
use super::cases::Case;
use super::cases::Said::{Cwd, Path};
use audit_record::NameKind::{Create, Delete, Normal, Parent};

pub static FILES: [Case; 24] = [
    (
        76,
        Done(0),
        [0, 0, 0, 0],
        &[Path(Normal, Some(7), Some("/f"))],
        "100 out alter file 7 /f; ",
    ),
    (
        90,
        Done(0),
        [0, 0, 0, 0],
        &[Cwd("/a"), Path(Normal, Some(7), Some("f"))],
        "100 out alter file 7 /a/f; ",
    ),
    (
        92,
        Done(0),
        [0, 0, 0, 0],
        &[Path(Normal, None, Some("/f"))],
        "100 out alter file - /f; ",
    ),
    (94, Done(0), [3, 0, 0, 0], &[], ""),
    (
        260,
        Refused(-1),
        [0, 0, 0, 0],
        &[Path(Normal, Some(7), Some("/f"))],
        "",
    ),
    (
        268,
        Done(0),
        [0, 0, 0, 0],
        &[
            Path(Normal, Some(6), Some("/e")),
            Path(Normal, Some(7), Some("/f")),
        ],
        "100 out alter file 7 /f; ",
    ),
    (
        77,
        Done(0),
        [3, 0, 0, 0],
        &[Path(Normal, Some(7), Some("/f"))],
        "100 out alter file 7 /f; ",
    ),
    (91, Done(0), [3, 0, 0, 0], &[], "100 out alter fd 3; "),
    (93, Refused(-1), [3, 0, 0, 0], &[], ""),
    (
        82,
        Done(0),
        [0, 0, 0, 0],
        &[
            Cwd("/a"),
            Path(Parent, Some(5), Some("/a")),
            Path(Delete, Some(7), Some("x")),
            Path(Create, Some(7), Some("y")),
        ],
        "100 out alter file 7 /a/y; ",
    ),
    (
        86,
        Done(0),
        [0, 0, 0, 0],
        &[
            Path(Normal, Some(7), Some("/x")),
            Path(Create, Some(7), Some("/y")),
        ],
        "100 out alter file 7 /y; ",
    ),
    (
        264,
        Done(0),
        [0, 0, 0, 0],
        &[Path(Delete, Some(7), Some("/x"))],
        "",
    ),
    (
        265,
        Refused(-17),
        [0, 0, 0, 0],
        &[Path(Create, Some(7), Some("/y"))],
        "",
    ),
    // Two files that change their places.
    (
        316,
        Done(0),
        [0, 0, 0, 0],
        &[
            Path(Delete, Some(7), Some("/x")),
            Path(Delete, Some(8), Some("/y")),
            Path(Create, Some(8), Some("/x")),
            Path(Create, Some(7), Some("/y")),
        ],
        "100 out alter file 8 /x; 100 out alter file 7 /y; ",
    ),
    (
        84,
        Done(0),
        [0, 0, 0, 0],
        &[
            Path(Parent, Some(5), Some("/")),
            Path(Delete, Some(7), Some("/x")),
        ],
        "100 out alter file 7 /x; ",
    ),
    (
        87,
        Done(0),
        [0, 0, 0, 0],
        &[
            Path(Delete, Some(7), Some("/x")),
            Path(Normal, Some(8), Some("/y")),
        ],
        "100 out alter file 7 /x; ",
    ),
    (87, Done(0), [0, 0, 0, 0], &[Path(Delete, None, None)], ""),
    (
        263,
        Refused(-2),
        [0, 0, 0, 0],
        &[Path(Delete, Some(7), Some("/x"))],
        "",
    ),
    (
        83,
        Done(0),
        [0, 0, 0, 0],
        &[
            Path(Parent, Some(5), Some("/")),
            Path(Create, Some(7), Some("/d")),
        ],
        "birth 7 /d; 100 out make file 7 /d; ",
    ),
    (
        88,
        Done(0),
        [0, 0, 0, 0],
        &[Path(Create, None, Some("/l"))],
        "birth - /l; 100 out make file - /l; ",
    ),
    (
        133,
        Done(0),
        [0, 0, 0, 0],
        &[
            Path(Create, Some(7), Some("/m")),
            Path(Create, Some(8), Some("/n")),
        ],
        "birth 7 /m; 100 out make file 7 /m; birth 8 /n; 100 out make file 8 /n; ",
    ),
    (
        258,
        Done(0),
        [0, 0, 0, 0],
        &[Path(Normal, Some(7), Some("/d"))],
        "",
    ),
    (
        259,
        Refused(-17),
        [0, 0, 0, 0],
        &[Path(Create, Some(7), Some("/d"))],
        "",
    ),
    (
        266,
        Done(0),
        [0, 0, 0, 0],
        &[Path(Create, Some(7), Some("/l"))],
        "birth 7 /l; 100 out make file 7 /l; ",
    ),
];
