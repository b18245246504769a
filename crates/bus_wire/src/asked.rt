use usb_base::EpName;

/// Who hears an ask, and answers.
#[derive(Clone, Copy, Debug, PartialEq, Eq)]
pub enum Answerer {
    /// The device at this place.
    Device(usize),
    /// Endpoint 0 of the hub at this place.
    Hub(usize),
    /// The translator of the hub at this place; stuffed bits make the packets of the endpoint that is asked longer by so
    /// many bytes in 36 (USB 2.0, 7.1.9).
    Translator(usize, u8),
    /// Nobody on this bus.
    Nobody,
}

/// An endpoint that is asked.
#[derive(Clone, Copy, Debug, PartialEq, Eq)]
pub struct Asked {
    /// Its place among the endpoints of the bus.
    pub place: usize,
    /// Its name.
    pub name: EpName,
    /// The number of its next packet on this bus.
    pub packet: u64,
    /// Who hears the ask.
    pub who: Answerer,
}

/// Which packets of one transaction are lost or damaged.
#[derive(Clone, Copy, Debug, PartialEq, Eq)]
pub struct Losses {
    /// The token, or the data that are sent right behind it.
    pub sent: bool,
    /// The answer.
    pub answer: bool,
    /// The acknowledgement of the answer.
    pub acknowledgement: bool,
}
