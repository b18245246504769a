ghost use Rattle.std.specs.Prelude.{◌≡◌};
ghost use Rattle.app_ends.specs.Codes.{exit_code};

/// How the program ended.
#[derive(Clone, Copy, Debug, PartialEq, Eq)]
pub enum Status {
    /// All that the form reads was read to its end, and all output was written.
    Ok,
    /// The words have none of the program's forms; nothing was read or written.
    Words,
    /// The input is not what the form reads; one line that says where and why was written.
    Refused,
    /// The source failed; nothing was written.
    ReadFault,
    /// The sink failed; what was written is a front part of the output.
    WriteFault,
    /// Want of memory; nothing was written.
    Memory,
}

impl Status {
    /// The exit status of the process: 0 for `Ok`, and 2 to 6 for the others in their order.
    pub fn code(self) -> u8
        ensures { result ≡ exit_code self }
    {
        match self {
            Status::Ok => 0,
            Status::Words => 2,
            Status::Refused => 3,
            Status::ReadFault => 4,
            Status::WriteFault => 5,
            Status::Memory => 6,
        }
    }
}
