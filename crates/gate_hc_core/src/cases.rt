use crate::cases::Act::{Allow, Command, List, Step};

/// What is done with a controller.
#[derive(Clone, Copy)]
pub(crate) enum Act {
    /// So many events.
    Step(u32),
    /// A write of USBCMD (EHCI 1.0, 2.3.1).
    Command(u32),
    /// A write of PERIODICLISTBASE.
    List(u32),
    /// The wire allows the bus from now on, or doesn't.
    Allow(bool),
}

/// The words that matter, and what is done.
#[derive(Clone, Copy)]
pub(crate) struct Case {
    pub(crate) name: &'static str,
    /// The first element of the frame list; all others end it.
    pub(crate) element: u32,
    /// The link of the head, which is halted.
    pub(crate) link: u32,
    /// The link, the characteristics and the token of the queue head behind it.
    pub(crate) queue: [u32; 3],
    pub(crate) acts: &'static [Act],
}

/// Both parts are enabled, and the controller runs.
const RUN: u32 = 0x0008_0031;

/// A ring of the head alone, with this link.
fn broken(name: &'static str, link: u32, characteristics: u32) -> Case {
    Case {
        name,
        element: 1,
        link,
        queue: [0x1042, characteristics, 0],
        acts: &[Command(RUN), Step(7)],
    }
}

/// The rows.
pub(crate) fn all() -> [Case; 15] {
    [
        // The walk goes round behind the head, and never comes back to it.
        Case {
            name: "a ring without its head",
            element: 1,
            link: 0x1042,
            queue: [0x1042, 0x2003, 0],
            acts: &[Command(RUN), Step(10)],
        },
        broken("a link out of memory", 0x0010_0002, 0x2003),
        broken("a link to the last block", 0x1fe2, 0x2003),
        broken("a link to an FSTN", 0x1046, 0x2003),
        broken("a link to an iTD", 0x1040, 0x2003),
        broken("a reserved speed", 0x1042, 0x3003),
        broken("a link to nothing", 1, 0x2003),
        // The chain is the queue head, which has nothing to do; then the ring.
        Case {
            name: "a frame list that names a queue head",
            element: 0x1042,
            link: 0x1002,
            queue: [1, 0x2003, 0],
            acts: &[Command(RUN), Step(2), Step(4)],
        },
        Case {
            name: "a frame list that names an FSTN",
            element: 0x1046,
            link: 0x1002,
            queue: [1, 0x2003, 0],
            acts: &[Command(RUN), Step(3)],
        },
        // Its copy is dropped, and the ring's first event comes.
        Case {
            name: "a periodic part that is disabled in a visit",
            element: 0x1042,
            link: 0x1002,
            queue: [1, 0x2003, 0],
            acts: &[Command(RUN), Step(2), Command(0x0008_0021), Step(1)],
        },
        Case {
            name: "and the periodic part is off",
            element: 0x1042,
            link: 0x1002,
            queue: [0x1042, 0x2003, 0],
            acts: &[Command(0x0008_0021), Step(6)],
        },
        Case {
            name: "a frame list out of memory",
            element: 1,
            link: 0x1002,
            queue: [0x1042, 0x2003, 0],
            acts: &[List(0x10_0000), Command(RUN), Step(3)],
        },
        // Run is cleared in the middle of a microframe and set again: the microframe goes on.
        Case {
            name: "a controller that stands",
            element: 1,
            link: 0x1002,
            queue: [0x1042, 0x2003, 0],
            acts: &[
                Step(3),
                Command(RUN),
                Step(2),
                Command(0x0008_0030),
                Step(1),
                Command(RUN),
                Step(1),
            ],
        },
        // The asynchronous part is disabled with a copy in hand: that is its end. Enabled again it reads the head once more.
        Case {
            name: "a part that is disabled",
            element: 1,
            link: 0x1042,
            queue: [0x1002, 0x2003, 0],
            acts: &[
                Command(RUN),
                Step(2),
                Command(0x0008_0011),
                Step(4),
                Command(RUN),
                Step(3),
            ],
        },
        // A microframe in which the bus is held: an active queue head isn't asked, and the next microframe begins with it.
        Case {
            name: "a held microframe",
            element: 1,
            link: 0x1042,
            queue: [0x1002, 0x0200_2103, 0x0200_0d80],
            acts: &[Allow(false), Command(RUN), Step(8), Allow(true), Step(3)],
        },
    ]
}
