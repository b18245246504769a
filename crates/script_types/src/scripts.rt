use crate::devices::{DeviceText, HubText};
use usb_base::{Cmd, DevAddr, DiskText, EpName, Fate, ListOf, Speed};

/// One step of the driver or of the controller.
#[derive(Clone, Copy, Debug, PartialEq, Eq)]
pub enum Event {
    /// A step of the driver.
    D,
    /// A step of the controller.
    C,
}

/// An action line.
#[derive(Debug, Drop)]
pub enum Line {
    /// So many steps of this kind.
    Order(Event, u32),
    /// Turns of one step of the controller and one of the driver, until so many microframes have ended.
    Micro(u32),
    /// A command for the driver.
    Command(Cmd),
    /// What belongs to the root port of this number is plugged in.
    Plug(u8),
    /// It is unplugged.
    Unplug(u8),
}

/// What becomes of one packet of an endpoint.
#[derive(Clone, Copy, Debug, PartialEq, Eq)]
pub struct FateText {
    /// The endpoint.
    pub name: EpName,
    /// Whether the packet is one below a translator, and not one on the high-speed bus.
    pub down: bool,
    /// Its number among the packets of this endpoint on this bus, from 0.
    pub k: u32,
    /// What becomes of it.
    pub fate: Fate,
}

/// A whole script.
#[derive(Debug, Drop)]
pub struct Script {
    /// The words of memory: 2,048 to 262,144, a multiple of 1,024.
    pub words: u32,
    /// The hubs, in the order of their lines.
    pub hubs: ListOf<HubText>,
    /// The devices, in the order of their lines.
    pub devices: ListOf<DeviceText>,
    /// The endpoints of all devices, in the order of their lines.
    pub endpoints: ListOf<EpName>,
    /// The fates, in the order of their lines.
    pub fates: ListOf<FateText>,
    /// The spans of microframes in which the bus may not be used: the first and the last of each, counted from 1.
    pub holds: ListOf<(u32, u32)>,
    /// The action lines in their order, each with its number, from 1.
    pub lines: ListOf<(u32, Line)>,
    /// The version of the language, 1 or 2.
    pub version: u8,
    /// The elements of the frame list: 256, 512 or 1,024 (EHCI 1.0, 2.3.4).
    pub frames: u16,
    /// The transactions of a visit in asynchronous park mode, 1 to 3, or 0 where it is off (EHCI 1.0, 4.10.3.2).
    pub park: u8,
    /// The root ports with a high-speed device or hub, each with its address, in the order of their lines.
    pub roots: ListOf<(u8, DevAddr)>,
    /// The root ports with a full- or low-speed device that a companion controller serves, in the order of their lines.
    pub classics: ListOf<(u8, Speed)>,
    /// The disks, in the order of their lines.
    pub disks: ListOf<DiskText>,
}
