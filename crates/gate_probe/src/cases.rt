/// What the words of an image are before the changes.
#[derive(Clone, Copy)]
pub enum Fill {
    /// Each word is this one.
    Every(u32),
    /// An empty frame list, and a ring of a halted head and a queue head with one qTD.
    Lists,
    /// The same, and a chain of so many isochronous descriptors in frame 0.
    Descriptors(u32),
}

/// A wild image.
#[derive(Clone, Copy)]
pub struct Case {
    pub name: &'static str,
    pub fill: Fill,
    /// Where the frame list is.
    pub list_base: u32,
    /// Words by their byte addresses, written last.
    pub changes: &'static [(u32, u32)],
}

const fn lists(name: &'static str, changes: &'static [(u32, u32)]) -> Case {
    Case {
        name,
        fill: Fill::Lists,
        list_base: 0,
        changes,
    }
}

/// Those of which the ring itself is wild.
pub fn rings() -> [Case; 6] {
    [
        // The walk goes round behind the head, and never comes back to it.
        lists("a ring without its head", &[(0x1040, 0x1042), (0x1050, 1)]),
        lists("a link out of memory", &[(0x1000, 0x0010_0002)]),
        lists("a queue head in the last words", &[(0x1000, 0x1fe2)]),
        lists("a frame span node in the ring", &[(0x1000, 0x1046)]),
        lists("a reserved speed", &[(0x1044, 0x0200_3103)]),
        lists("a queue that leads out of memory", &[(0x1050, 0x0010_0000)]),
    ]
}

/// Those with a wild qTD.
pub fn transfers() -> [Case; 8] {
    [
        // Two INs that lead to one another; nothing answers, and the errors aren't counted.
        lists(
            "a loop of qTDs without an error count",
            &[
                (0x1080, 0x10a0),
                (0x1088, 0x0200_0180),
                (0x10a0, 0x1080),
                (0x10a8, 0x0200_0180),
            ],
        ),
        // The same, and three errors halt the queue.
        lists(
            "a loop of qTDs with an error count",
            &[
                (0x1080, 0x10a0),
                (0x1088, 0x0200_0d80),
                (0x10a0, 0x1080),
                (0x10a8, 0x0200_0d80),
            ],
        ),
        lists("a reserved PID code", &[(0x1088, 0x0200_0f80)]),
        lists("a current page of 5", &[(0x1088, 0x0200_5d80)]),
        lists("a total of 5001h", &[(0x1088, 0x5001_0d80)]),
        // An OUT of 512 bytes that begins 96 bytes before the end of the fifth page.
        lists(
            "a buffer past the last page",
            &[(0x1088, 0x0200_4c80), (0x108c, 0x1fa0)],
        ),
        lists(
            "a buffer out of memory",
            &[(0x1088, 0x0200_0c80), (0x108c, 0x0010_0000)],
        ),
        // It is sent as the words say; nothing answers, and three errors halt the queue.
        lists("a SETUP on endpoint 1", &[(0x1088, 0x0008_0e80)]),
    ]
}

/// Those of which the periodic part is wild.
pub fn frames() -> [Case; 6] {
    [
        lists("a frame span node in a frame", &[(0, 0x1046)]),
        lists("a descriptor in the last words", &[(0, 0x1fe0)]),
        // Six of them have their time, and the others are skipped; of the ring there is time for the halted head alone.
        Case {
            name: "seventeen descriptors in a frame",
            fill: Fill::Descriptors(17),
            list_base: 0,
            changes: &[(0x1000, 0x1002)],
        },
        Case {
            name: "a frame list out of memory",
            fill: Fill::Lists,
            list_base: 0x0010_0000,
            changes: &[],
        },
        // Each element of the frame list leads to an isochronous descriptor at 0, whose Mult is reserved.
        Case {
            name: "nothing but zeros",
            fill: Fill::Every(0),
            list_base: 0,
            changes: &[],
        },
        // It isn't active.
        lists(
            "a split descriptor that leads to itself",
            &[(0, 0x1104), (0x1100, 0x1104), (0x1118, 1)],
        ),
    ]
}
