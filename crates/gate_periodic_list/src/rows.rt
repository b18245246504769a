use crate::play::Step;

pub const ROWS: &[(&str, &[Step])] = &[
    (
        "a queue head of each frame, a second, one of every second frame",
        &[
            Step::Link(128, 8, 0),
            Step::Link(130, 8, 0),
            Step::Link(132, 16, 1),
            Step::Show(0),
            Step::Show(1),
        ],
    ),
    (
        "two descriptors of one endpoint in one frame",
        &[
            Step::Link(128, 8, 0),
            Step::Add(140, 5),
            Step::Add(142, 5),
            Step::Show(5),
            Step::Drop(140, 5),
            Step::Show(5),
            Step::Drop(142, 5),
            Step::Show(5),
        ],
    ),
    (
        "the middle of a class, its last, and one whose successor left before it",
        &[
            Step::Link(128, 16, 1),
            Step::Link(130, 16, 1),
            Step::Link(132, 16, 1),
            Step::Unlink(130, 16, 1),
            Step::Show(1),
            Step::Unlink(132, 16, 1),
            Step::Show(1),
            Step::Unlink(128, 16, 1),
            Step::Show(1),
        ],
    ),
    (
        "the longer period first, below it all of the shorter",
        &[
            Step::Link(128, 1, 0),
            Step::Link(130, 4, 0),
            Step::Link(132, 8192, 3),
            Step::Link(134, 32, 3),
            Step::Show(3),
            Step::Show(7),
            Step::Show(2),
        ],
    ),
    (
        "half of the stores",
        &[
            Step::Link(128, 8, 0),
            Step::Begin(130, 4096, 3, 1),
            Step::Show(3),
            Step::Show(515),
            Step::Link(132, 8, 0),
            Step::Complete,
            Step::Show(515),
            Step::Leave(130, 4096, 3, 1),
            Step::Show(3),
            Step::Show(515),
            Step::Complete,
            Step::Show(515),
        ],
    ),
    (
        "behind descriptors",
        &[
            Step::Add(140, 1),
            Step::Link(128, 16, 1),
            Step::Add(142, 1),
            Step::Link(130, 8192, 1),
            Step::Show(1),
            Step::Drop(140, 1),
            Step::Show(1),
        ],
    ),
    (
        "given back after its boundary",
        &[
            Step::Add(140, 1),
            Step::Drop(140, 1),
            Step::Read(80),
            Step::Read(87),
            Step::Read(88),
            Step::Read(96),
        ],
    ),
    (
        "refused",
        &[
            Step::Link(128, 12, 0),
            Step::Link(128, 16, 2),
            Step::Link(128, 8, 0),
            Step::Link(128, 16, 0),
            Step::Add(140, 1024),
            Step::Unlink(130, 8, 0),
        ],
    ),
];
