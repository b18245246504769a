use usb_base::{DevAddr, EpDesc, EpKind, EpName, EpNum, Speed, Way};

/// The endpoints of the rows.
#[derive(Clone, Copy)]
pub(crate) enum Pipe {
    /// 3.1.in, bulk, high speed.
    In,
    /// 3.2.out, bulk, high speed.
    Out,
    /// 3.4.out, bulk, high speed.
    Other,
    /// 4.0.ctl, control, high speed.
    Control,
    /// 5.1.in, bulk, full speed, behind port 2 of hub 9.
    Classic,
    /// 5.0.ctl, control, full speed, behind port 2 of hub 9.
    ClassicControl,
    /// 9.0.ctl, control, high speed: that of the hub.
    Hub,
    /// 5.2.in, interrupt, full speed, 8 bytes every 1,024 frames, behind port 2 of hub 9.
    ClassicRare,
    /// 6.1.in, interrupt, 8 bytes every 1,024 frames.
    Rare,
    /// 6.2.in, interrupt, three packets of 1,024 bytes in each microframe.
    Wide,
    /// 6.3.in, the same.
    OtherWide,
    /// 7.1.in, isochronous, 64 bytes every second frame.
    IsoIn,
    /// 7.2.out, isochronous, 64 bytes every 1,024 frames.
    IsoOut,
    /// 5.3.in, isochronous, full speed, 64 bytes every second frame, behind port 2 of hub 9.
    SplitIn,
    /// 5.4.out, isochronous, full speed, at most 376 bytes in each frame, behind port 2 of hub 9.
    SplitOut,
}

/// The name of an endpoint.
pub(crate) fn name_of(pipe: Pipe) -> Option<EpName> {
    let (addr, num, way) = match pipe {
        Pipe::In => (3, 1, Way::In),
        Pipe::Out => (3, 2, Way::Out),
        Pipe::Other => (3, 4, Way::Out),
        Pipe::Control => (4, 0, Way::Ctl),
        Pipe::Classic => (5, 1, Way::In),
        Pipe::ClassicControl => (5, 0, Way::Ctl),
        Pipe::Hub => (9, 0, Way::Ctl),
        Pipe::ClassicRare => (5, 2, Way::In),
        Pipe::Rare => (6, 1, Way::In),
        Pipe::Wide => (6, 2, Way::In),
        Pipe::OtherWide => (6, 3, Way::In),
        Pipe::IsoIn => (7, 1, Way::In),
        Pipe::IsoOut => (7, 2, Way::Out),
        Pipe::SplitIn => (5, 3, Way::In),
        Pipe::SplitOut => (5, 4, Way::Out),
    };
    Some(EpName {
        addr: DevAddr::new(addr)?,
        num: EpNum::new(num)?,
        way,
    })
}

/// What the host knows of an endpoint.
pub(crate) fn desc_of(pipe: Pipe) -> Option<EpDesc> {
    let (kind, speed, max) = match pipe {
        Pipe::In | Pipe::Out | Pipe::Other => (EpKind::Bulk, Speed::High, 512),
        Pipe::Control | Pipe::Hub => (EpKind::Control, Speed::High, 64),
        Pipe::Classic => (EpKind::Bulk, Speed::Full, 64),
        Pipe::ClassicControl => (EpKind::Control, Speed::Full, 64),
        Pipe::ClassicRare => (EpKind::Interrupt, Speed::Full, 8),
        Pipe::Rare => (EpKind::Interrupt, Speed::High, 8),
        Pipe::Wide | Pipe::OtherWide => (EpKind::Interrupt, Speed::High, 1024),
        Pipe::IsoIn | Pipe::IsoOut => (EpKind::Iso, Speed::High, 64),
        Pipe::SplitIn => (EpKind::Iso, Speed::Full, 64),
        Pipe::SplitOut => (EpKind::Iso, Speed::Full, 376),
    };
    let (period, multi) = match pipe {
        Pipe::ClassicRare | Pipe::Rare | Pipe::IsoOut => (8192, 1),
        Pipe::Wide | Pipe::OtherWide => (1, 3),
        Pipe::IsoIn | Pipe::SplitIn => (16, 1),
        Pipe::SplitOut => (8, 1),
        _ => (0, 1),
    };
    let (hub, port) = match speed {
        Speed::High => (None, 0),
        Speed::Full | Speed::Low => (DevAddr::new(9), 2),
    };
    Some(EpDesc {
        name: name_of(pipe)?,
        speed,
        kind,
        max,
        period,
        multi,
        hub,
        port,
        tt: 0,
    })
}
