use thiserror::Error;
use usb_base::{Failed, Memory};

/// Why an image isn't shown whole.
#[derive(Debug, Drop, Error)]
pub enum ShowError {
    /// The sink failed. A front part of the text was written.
    #[error("a write failed")]
    Failed(Failed),
    /// Want of memory for the marks. Nothing was written.
    #[error("out of memory")]
    Memory(Memory),
}
