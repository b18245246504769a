/// Where a link of a schedule leads (EHCI 1.0, 3.3.1). An address is a byte address, a multiple of 32.
#[derive(Clone, Copy, PartialEq, Eq, Debug)]
pub enum Link {
    /// The list ends here.
    End,
    /// An isochronous transfer descriptor.
    Itd(u32),
    /// A queue head.
    Qh(u32),
    /// A split-transaction isochronous transfer descriptor.
    Sitd(u32),
    /// A frame span traversal node.
    Fstn(u32),
}

/// Where a link of a queue leads (EHCI 1.0, 3.5.1).
#[derive(Clone, Copy, PartialEq, Eq, Debug)]
pub enum QtdLink {
    /// The queue ends here.
    End,
    /// A queue element transfer descriptor, at a byte address that is a multiple of 32.
    To(u32),
}
