/// What happens to the root ports. Ports are numbered from 1; an event of a port that isn't there changes nothing.
#[derive(Clone, Copy, Debug, PartialEq, Eq)]
pub enum PortEvent {
    /// What is declared at this port is plugged in. Where it is already, or nothing is declared, nothing changes.
    Plug(u8),
    /// It is unplugged. Where nothing is plugged in, nothing changes.
    Unplug(u8),
    /// The driver writes a word to PORTSC of this port; last, whether the controller runs.
    Write(u8, u32, bool),
    /// The driver writes CONFIGFLAG: true routes every port to this controller, false to the companion controllers.
    Route(bool),
}
