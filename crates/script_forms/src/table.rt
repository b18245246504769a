//! The rows of the table.
ghost use Rattle.std.specs.Prelude.{◌≡◌};
ghost use Rattle.script_forms.specs.Table.{first_of, keyword_word, slots_of, second_slots_of, hub_forms, forms_of};

use usb_base::limits::{LONGEST_QTD, MOST_MEMORY};

/// The first word of a line that says something.
#[derive(Clone, Copy)]
pub enum FirstWord {
    Mem,
    Hub,
    Dev,
    Ep,
    Reply,
    Fate,
    Hold,
    Open,
    Cancel,
    Get,
    Put,
    Control,
    Iso,
    Order,
    Frames,
    Stuff,
    Epoch,
    Clear,
    Park,
    Root,
    Classic,
    Plug,
    Unplug,
    Reset,
    Give,
    Disk,
    Read,
    Write,
    Revive,
}

/// A word that stands for itself.
#[derive(Clone, Copy)]
pub enum Keyword {
    High,
    Full,
    Low,
    Down,
    Control,
    Bulk,
    Interrupt,
    Iso,
    In,
    Out,
    Ctl,
    Data,
    Fill,
    Nak,
    Nyet,
    Stall,
    Request,
    Lost,
    Damaged,
    By,
    D,
    C,
    M,
    Multi,
}

/// What may stand in one place of a form.
#[derive(Clone, Copy)]
pub enum Slot {
    /// A decimal number from the first to the second.
    Number(u32, u32),
    /// Bytes of two hexadecimal digits each, or `-` for none.
    Hex,
    /// Eight bytes of setup data (USB 2.0, 9.3), sixteen hexadecimal digits.
    Setup,
    /// This word.
    Key(Keyword),
    /// `in`, `out` or `ctl`.
    Way,
    /// `high` or `down`.
    Bus,
    /// `lost` or `damaged`.
    Fate,
}

/// The form of a line: its first word, and a slot for each further word.
#[derive(Clone, Copy)]
pub enum Form {
    /// `mem <words>`
    Mem,
    /// `hub <addr> <ports>`
    Hub,
    /// `hub <addr> <ports> multi`
    HubMulti,
    /// `dev <addr> high`
    DevHigh,
    /// `dev <addr> full <hub> <port>`
    DevFull,
    /// `dev <addr> low <hub> <port>`
    DevLow,
    /// `ep <addr> 0 ctl control <max>`
    EpControl,
    /// `ep <addr> <num> <way> bulk <max>`
    EpBulk,
    /// `ep <addr> <num> <way> interrupt <max> <period> <multi>`
    EpInterrupt,
    /// `ep <addr> <num> <way> iso <max> <period> <multi>`
    EpIso,
    /// `reply <ep> data <hex>`
    ReplyData,
    /// `reply <ep> fill <n> <seed>`
    ReplyFill,
    /// `reply <ep> nak <k>`
    ReplyNak,
    /// `reply <ep> nyet`
    ReplyNyet,
    /// `reply <ep> stall`
    ReplyStall,
    /// `reply <ep> request <setup> <hex>`
    ReplyRequest,
    /// `fate <ep> <bus> <k> <fate>`
    Fate,
    /// `hold <first> <last>`
    Hold,
    /// `open <ep>`
    Open,
    /// `cancel <ep>`
    Cancel,
    /// `get <ep> <n>`
    Get,
    /// `get <ep> <n> by <m>`
    GetBy,
    /// `put <ep> <hex>`
    Put,
    /// `put <ep> <hex> by <m>`
    PutBy,
    /// `put <ep> fill <n> <seed>`
    PutFill,
    /// `put <ep> fill <n> <seed> by <m>`
    PutFillBy,
    /// `control <addr> <setup>`
    Control,
    /// `control <addr> <setup> <hex>`
    ControlData,
    /// `iso <addr> <num> in <count>`
    IsoIn,
    /// `iso <addr> <num> out <count> <len> <seed>`
    IsoOut,
    /// `order d <n>`
    OrderD,
    /// `order c <n>`
    OrderC,
    /// `order m <n>`
    OrderM,
    /// `frames <n>`
    Frames,
    /// `stuff <ep> <p>`
    Stuff,
    /// `epoch <ep>`
    Epoch,
    /// `clear <ep>`
    Clear,
    /// `park <k>`
    Park,
    /// `root <port> <addr>`
    Root,
    /// `classic <port> full`
    ClassicFull,
    /// `classic <port> low`
    ClassicLow,
    /// `plug <port>`
    Plug,
    /// `unplug <port>`
    Unplug,
    /// `reset <port>`
    Reset,
    /// `give <port>`
    Give,
    /// `disk <addr> <in> <out> <blocks>`
    Disk,
    /// `read <addr> <lba> <count>`
    Read,
    /// `write <addr> <lba> <hex>`
    Write,
    /// `write <addr> <lba> fill <n> <seed>`
    WriteFill,
    /// `revive <addr>`
    Revive,
}

/// A number of any value.
const ANY: Slot = Slot::Number(0, 4_294_967_295);
/// The address of a device or hub (USB 2.0, 8.3.2.1); 0 is the default address.
const ADDRESS: Slot = Slot::Number(1, 127);
/// The bytes of a qTD, at most five pages of 4,096 (EHCI 1.0, 3.5.4).
const BY: Slot = Slot::Number(1, LONGEST_QTD);
/// A root port (EHCI 1.0, 2.2.3).
const PORT: Slot = Slot::Number(1, 15);
/// The first byte of bytes that each are one more.
const SEED: Slot = Slot::Number(0, 255);

/// The slots of a form that version 2 alone has, none for another.
fn second_slots(form: Form) -> &'static [Slot]
    ensures { result.now ≡ second_slots_of form }
{
    match form {
        Form::Frames => &[Slot::Number(256, 1024)],
        Form::Stuff => &[ANY, ANY, Slot::Way, Slot::Number(0, 6)],
        Form::Epoch => &[ANY, ANY, Slot::Way],
        Form::Clear => &[ANY, ANY, Slot::Way],
        Form::Park => &[Slot::Number(1, 3)],
        Form::Root => &[PORT, ANY],
        Form::ClassicFull => &[PORT, Slot::Key(Keyword::Full)],
        Form::ClassicLow => &[PORT, Slot::Key(Keyword::Low)],
        Form::Plug => &[ANY],
        Form::Unplug => &[ANY],
        Form::Reset => &[ANY],
        Form::Give => &[ANY],
        Form::Disk => &[ANY, ANY, ANY, Slot::Number(1, 1024)],
        Form::Read => &[ANY, ANY, Slot::Number(1, 40)],
        Form::Write => &[ANY, ANY, Slot::Hex],
        Form::WriteFill => &[
            ANY,
            ANY,
            Slot::Key(Keyword::Fill),
            Slot::Number(512, LONGEST_QTD),
            SEED,
        ],
        Form::Revive => &[ANY],
        _ => &[],
    }
}

/// The slots of a form.
pub fn slots(form: Form) -> &'static [Slot]
    ensures { result.now ≡ slots_of form }
{
    match form {
        Form::Mem => &[Slot::Number(2048, MOST_MEMORY)],
        Form::Hub => &[ADDRESS, Slot::Number(1, 15)],
        Form::HubMulti => &[ADDRESS, Slot::Number(1, 15), Slot::Key(Keyword::Multi)],
        Form::DevHigh => &[ADDRESS, Slot::Key(Keyword::High)],
        Form::DevFull => &[ADDRESS, Slot::Key(Keyword::Full), ANY, ANY],
        Form::DevLow => &[ADDRESS, Slot::Key(Keyword::Low), ANY, ANY],
        Form::EpControl => &[
            ANY,
            Slot::Number(0, 0),
            Slot::Key(Keyword::Ctl),
            Slot::Key(Keyword::Control),
            ANY,
        ],
        Form::EpBulk => &[
            ANY,
            Slot::Number(1, 15),
            Slot::Way,
            Slot::Key(Keyword::Bulk),
            ANY,
        ],
        Form::EpInterrupt => &[
            ANY,
            Slot::Number(1, 15),
            Slot::Way,
            Slot::Key(Keyword::Interrupt),
            ANY,
            ANY,
            ANY,
        ],
        Form::EpIso => &[
            ANY,
            Slot::Number(1, 15),
            Slot::Way,
            Slot::Key(Keyword::Iso),
            ANY,
            ANY,
            ANY,
        ],
        Form::ReplyData => &[ANY, ANY, Slot::Way, Slot::Key(Keyword::Data), Slot::Hex],
        Form::ReplyFill => &[
            ANY,
            ANY,
            Slot::Way,
            Slot::Key(Keyword::Fill),
            Slot::Number(0, 65536),
            SEED,
        ],
        Form::ReplyNak => &[
            ANY,
            ANY,
            Slot::Way,
            Slot::Key(Keyword::Nak),
            Slot::Number(1, 1000000),
        ],
        Form::ReplyNyet => &[ANY, ANY, Slot::Way, Slot::Key(Keyword::Nyet)],
        Form::ReplyStall => &[ANY, ANY, Slot::Way, Slot::Key(Keyword::Stall)],
        Form::ReplyRequest => &[
            ANY,
            ANY,
            Slot::Way,
            Slot::Key(Keyword::Request),
            Slot::Setup,
            Slot::Hex,
        ],
        Form::Fate => &[ANY, ANY, Slot::Way, Slot::Bus, ANY, Slot::Fate],
        Form::Hold => &[Slot::Number(1, 4294967295), Slot::Number(1, 4294967295)],
        Form::Open => &[ANY, ANY, Slot::Way],
        Form::Cancel => &[ANY, ANY, Slot::Way],
        Form::Get => &[ANY, ANY, Slot::Way, Slot::Number(0, 65535)],
        Form::GetBy => &[
            ANY,
            ANY,
            Slot::Way,
            Slot::Number(0, 65535),
            Slot::Key(Keyword::By),
            BY,
        ],
        Form::Put => &[ANY, ANY, Slot::Way, Slot::Hex],
        Form::PutBy => &[ANY, ANY, Slot::Way, Slot::Hex, Slot::Key(Keyword::By), BY],
        Form::PutFill => &[
            ANY,
            ANY,
            Slot::Way,
            Slot::Key(Keyword::Fill),
            Slot::Number(0, 65535),
            SEED,
        ],
        Form::PutFillBy => &[
            ANY,
            ANY,
            Slot::Way,
            Slot::Key(Keyword::Fill),
            Slot::Number(0, 65535),
            SEED,
            Slot::Key(Keyword::By),
            BY,
        ],
        Form::Control => &[ANY, Slot::Setup],
        Form::ControlData => &[ANY, Slot::Setup, Slot::Hex],
        Form::IsoIn => &[ANY, ANY, Slot::Key(Keyword::In), Slot::Number(1, 8)],
        Form::IsoOut => &[
            ANY,
            ANY,
            Slot::Key(Keyword::Out),
            Slot::Number(1, 8),
            Slot::Number(0, 3072),
            SEED,
        ],
        Form::OrderD => &[Slot::Key(Keyword::D), ANY],
        Form::OrderC => &[Slot::Key(Keyword::C), ANY],
        Form::OrderM => &[Slot::Key(Keyword::M), ANY],
        _ => second_slots(form),
    }
}

/// The forms of a hub's lines: version 2 has those of a hub with a translator for each port.
fn hub_forms(second: bool) -> &'static [Form]
    ensures { result.now ≡ hub_forms second }
{
    if second {
        return &[Form::Hub, Form::HubMulti];
    }
    &[Form::Hub]
}

/// The forms of the lines with a first word, in a version of the language.
pub fn forms(version: u8, first: FirstWord) -> &'static [Form]
    ensures { result.now ≡ forms_of version first }
{
    match first {
        FirstWord::Mem => &[Form::Mem],
        FirstWord::Hub => hub_forms(version == 2),
        FirstWord::Dev => &[Form::DevHigh, Form::DevFull, Form::DevLow],
        FirstWord::Ep => &[
            Form::EpControl,
            Form::EpBulk,
            Form::EpInterrupt,
            Form::EpIso,
        ],
        FirstWord::Reply => &[
            Form::ReplyData,
            Form::ReplyFill,
            Form::ReplyNak,
            Form::ReplyNyet,
            Form::ReplyStall,
            Form::ReplyRequest,
        ],
        FirstWord::Fate => &[Form::Fate],
        FirstWord::Hold => &[Form::Hold],
        FirstWord::Open => &[Form::Open],
        FirstWord::Cancel => &[Form::Cancel],
        FirstWord::Get => &[Form::Get, Form::GetBy],
        FirstWord::Put => &[Form::Put, Form::PutBy, Form::PutFill, Form::PutFillBy],
        FirstWord::Control => &[Form::Control, Form::ControlData],
        FirstWord::Iso => &[Form::IsoIn, Form::IsoOut],
        FirstWord::Order => &[Form::OrderD, Form::OrderC, Form::OrderM],
        FirstWord::Frames => &[Form::Frames],
        FirstWord::Stuff => &[Form::Stuff],
        FirstWord::Epoch => &[Form::Epoch],
        FirstWord::Clear => &[Form::Clear],
        FirstWord::Park => &[Form::Park],
        FirstWord::Root => &[Form::Root],
        FirstWord::Classic => &[Form::ClassicFull, Form::ClassicLow],
        FirstWord::Plug => &[Form::Plug],
        FirstWord::Unplug => &[Form::Unplug],
        FirstWord::Reset => &[Form::Reset],
        FirstWord::Give => &[Form::Give],
        FirstWord::Disk => &[Form::Disk],
        FirstWord::Read => &[Form::Read],
        FirstWord::Write => &[Form::Write, Form::WriteFill],
        FirstWord::Revive => &[Form::Revive],
    }
}

impl FirstWord {
    /// The first word with these bytes.
    pub(crate) fn of(word: &[u8]) -> Option<FirstWord>
        ensures { result ≡ first_of word.now }
    {
        if word == b"mem".as_slice() {
            return Some(FirstWord::Mem);
        }
        if word == b"hub".as_slice() {
            return Some(FirstWord::Hub);
        }
        if word == b"dev".as_slice() {
            return Some(FirstWord::Dev);
        }
        if word == b"ep".as_slice() {
            return Some(FirstWord::Ep);
        }
        if word == b"reply".as_slice() {
            return Some(FirstWord::Reply);
        }
        if word == b"fate".as_slice() {
            return Some(FirstWord::Fate);
        }
        if word == b"hold".as_slice() {
            return Some(FirstWord::Hold);
        }
        if word == b"open".as_slice() {
            return Some(FirstWord::Open);
        }
        if word == b"cancel".as_slice() {
            return Some(FirstWord::Cancel);
        }
        if word == b"get".as_slice() {
            return Some(FirstWord::Get);
        }
        if word == b"put".as_slice() {
            return Some(FirstWord::Put);
        }
        if word == b"control".as_slice() {
            return Some(FirstWord::Control);
        }
        if word == b"iso".as_slice() {
            return Some(FirstWord::Iso);
        }
        if word == b"order".as_slice() {
            return Some(FirstWord::Order);
        }
        FirstWord::second(word)
    }
}

/// The bytes of a keyword.
pub fn keyword_text(keyword: Keyword) -> &'static [u8]
    ensures { result.now ≡ keyword_word keyword }
{
    match keyword {
        Keyword::High => b"high",
        Keyword::Full => b"full",
        Keyword::Low => b"low",
        Keyword::Down => b"down",
        Keyword::Control => b"control",
        Keyword::Bulk => b"bulk",
        Keyword::Interrupt => b"interrupt",
        Keyword::Iso => b"iso",
        Keyword::In => b"in",
        Keyword::Out => b"out",
        Keyword::Ctl => b"ctl",
        Keyword::Data => b"data",
        Keyword::Fill => b"fill",
        Keyword::Nak => b"nak",
        Keyword::Nyet => b"nyet",
        Keyword::Stall => b"stall",
        Keyword::Request => b"request",
        Keyword::Lost => b"lost",
        Keyword::Damaged => b"damaged",
        Keyword::By => b"by",
        Keyword::D => b"d",
        Keyword::C => b"c",
        Keyword::M => b"m",
        Keyword::Multi => b"multi",
    }
}
