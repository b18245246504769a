use crate::asked::{Asked, Losses};
use crate::who_heard::WhoHeard;

/// What went over the bus in one transaction, beside the bytes that were sent and answered.
#[derive(Clone, Copy, Debug, PartialEq, Eq)]
pub struct Told {
    /// The endpoint that was asked, with the number of the first packet.
    pub asked: Asked,
    /// Which of its packets are lost or damaged; where there is no such packet, that says nothing.
    pub losses: Losses,
    /// Who heard what.
    pub row: WhoHeard,
}
