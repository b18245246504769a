ghost use Rattle.std.specs.Prelude.{◌≡◌, ◌<◌, ◌≤◌};
ghost use Rattle.usb_base.specs.Limits.{byte_times_of_microframe};
ghost use Rattle.itd_sitd.specs.Sitd.{IsSitdInRange};
ghost use Rattle.hc_iso.specs.Sitd.{IsSitdHeld, marked_mask, is_begun, sitd_missed, in_comes, out_comes, comes, sitd_turn, sent_part, part_bytes, sitd_ask, sitd_in, sitd_out, sitd_transaction, heard_data as data_heard, heard_nyet, split_heard, heard_outcome, after_split_heard, marked as with_mark, after_complete, after_start, next_position, after_part, heard_by, in_after, sitd_after, in_outcome, sitd_outcome, sitd_copy, missed_sitd, missed_copy};

use crate::held::{HeldSitd, IsoTransaction, SitdTurn, SplitHeard, SplitOutcome};
use hc_masks::{has, is_first, is_last, lacks, with};
use itd_sitd::Sitd;
use usb_base::limits::BYTE_TIMES_OF_MICROFRAME;
use usb_base::{Ask, DataPart, DevAddr, Dir, EpKind, EpNum, Pid, Reply, Speed, Split, cost};

/// The mask whose microframes are marked as done.
fn mask(sitd: &Sitd) -> u8
    ensures { result ≡ marked_mask sitd.now }
{
    if sitd.dir_in {
        return sitd.cmask;
    }
    sitd.smask
}

/// Whether its split transaction is under way.
fn begun(sitd: &Sitd) -> bool
    ensures { result ≡ is_begun sitd.now }
{
    if sitd.dir_in {
        return sitd.split_state;
    }
    sitd.c_prog != 0
}

fn missed(number: u8, sitd: &Sitd) -> bool
    requires { number < 8 }
    ensures { result ≡ sitd_missed number sitd.now }
{
    begun(sitd) && lacks(mask(sitd), sitd.c_prog, number)
}

fn in_turn(number: u8, sitd: &Sitd) -> bool
    requires { number < 8 }
    ensures { result ≡ in_comes number sitd.now }
{
    if sitd.split_state {
        return has(sitd.cmask, number);
    }
    has(sitd.smask, number)
}

fn out_turn(number: u8, sitd: &Sitd) -> bool
    requires { number < 8 }
    ensures { result ≡ out_comes number sitd.now }
{
    if sitd.c_prog == 0 {
        return is_first(sitd.smask, number);
    }
    has(sitd.smask, number)
}

fn works(number: u8, sitd: &Sitd) -> bool
    requires { number < 8 }
    ensures { result ≡ comes number sitd.now }
{
    if sitd.dir_in {
        return in_turn(number, sitd);
    }
    out_turn(number, sitd)
}

/// What there is to do at a siTD in a microframe (EHCI 1.0, 4.12.3.3).
pub fn turn(number: u8, sitd: &Sitd) -> SitdTurn
    requires { number < 8 }
    ensures { result ≡ sitd_turn number sitd.now }
{
    if !sitd.active {
        return SitdTurn::Rest;
    }
    if missed(number, sitd) {
        return SitdTurn::Miss;
    }
    if works(number, sitd) {
        return SitdTurn::Work;
    }
    SitdTurn::Rest
}

/// The part that a transaction position names (3.4.4).
fn part(tp: u8) -> DataPart
    ensures { result ≡ sent_part tp }
{
    match tp {
        0 => DataPart::All,
        1 => DataPart::Begin,
        2 => DataPart::Middle,
        _ => DataPart::End,
    }
}

/// The bytes of its next part, or the most that the next complete-split brings.
fn part_size(sitd: &Sitd) -> u16
    ensures value { result ≡ part_bytes sitd.now }
    ensures bound { result ≤ byte_times_of_microframe }
    ensures within { result ≤ sitd.now.total }
{
    u16::min(BYTE_TIMES_OF_MICROFRAME, sitd.total)
}

fn ask(sitd: &Sitd, split: Split, pid: Pid) -> Ask
    requires { IsSitdInRange sitd.now }
    ensures { result ≡ sitd_ask sitd.now split pid }
{
    Ask {
        split,
        pid,
        addr: DevAddr::new(sitd.addr).unwrap(),
        ep: EpNum::new(sitd.ep).unwrap(),
        speed: Speed::Full,
        kind: EpKind::Iso,
        toggle: Pid::Data0,
        limit: sitd.total,
    }
}

fn start(sitd: &Sitd, part: DataPart) -> Split
    requires { IsSitdInRange sitd.now }
    ensures { result ≡ Split.Start sitd.now.hub sitd.now.port part }
{
    Split::Start {
        hub: DevAddr::new(sitd.hub).unwrap(),
        port: sitd.port,
        part,
    }
}

fn complete(sitd: &Sitd) -> Split
    requires { IsSitdInRange sitd.now }
    ensures { result ≡ Split.Complete sitd.now.hub sitd.now.port }
{
    Split::Complete {
        hub: DevAddr::new(sitd.hub).unwrap(),
        port: sitd.port,
    }
}

fn next_in(sitd: &Sitd) -> IsoTransaction
    requires { IsSitdInRange sitd.now }
    ensures { result ≡ sitd_in sitd.now }
{
    if sitd.split_state {
        return IsoTransaction {
            ask: ask(sitd, complete(sitd), Pid::In),
            bytes: 0,
            price: cost(Speed::High, EpKind::Iso, Dir::In, part_size(sitd)),
        };
    }
    IsoTransaction {
        ask: ask(sitd, start(sitd, DataPart::All), Pid::In),
        bytes: 0,
        price: cost(Speed::High, EpKind::Iso, Dir::In, 0),
    }
}

fn next_out(sitd: &Sitd) -> IsoTransaction
    requires { IsSitdInRange sitd.now }
    ensures { result ≡ sitd_out sitd.now }
{
    let bytes = part_size(sitd);
    IsoTransaction {
        ask: ask(sitd, start(sitd, part(sitd.tp)), Pid::Out),
        bytes,
        price: cost(Speed::High, EpKind::Iso, Dir::Out, bytes),
    }
}

fn data_of(last: bool, bytes: u16, total: u16) -> SplitHeard
    ensures { result ≡ data_heard last bytes total }
{
    if bytes <= total {
        return SplitHeard::Data(last, bytes);
    }
    SplitHeard::TooLong
}

fn nyet(last: bool) -> SplitHeard
    ensures { result ≡ heard_nyet last }
{
    if last {
        return SplitHeard::Wrong;
    }
    SplitHeard::Later
}

/// What a complete-split heard.
fn heard(last: bool, total: u16, reply: &Reply) -> SplitHeard
    ensures { result ≡ split_heard last total reply.now }
{
    match reply {
        Reply::Bytes(Pid::Mdata, packet) => data_of(false, packet.as_slice().len() as u16, total),
        Reply::Bytes(Pid::Data0, packet) => data_of(true, packet.as_slice().len() as u16, total),
        Reply::Hand(Pid::Nyet) => nyet(last),
        Reply::Hand(Pid::Err) => SplitHeard::Error,
        _ => SplitHeard::Wrong,
    }
}

fn came_to(heard: SplitHeard) -> SplitOutcome
    ensures { result ≡ heard_outcome heard }
{
    match heard {
        SplitHeard::Data(_, bytes) => SplitOutcome::Moved(bytes),
        SplitHeard::Later => SplitOutcome::Nothing,
        SplitHeard::TooLong | SplitHeard::Error | SplitHeard::Wrong => SplitOutcome::Failed,
    }
}

/// The descriptor after a complete-split heard this, which is no more than what is left.
fn after_heard(sitd: &Sitd, heard: SplitHeard) -> Sitd
    ensures { result ≡ after_split_heard heard sitd.now }
{
    match heard {
        SplitHeard::Data(last, bytes) => Sitd {
            total: sitd.total.saturating_sub(bytes),
            active: sitd.active && !last,
            ..*sitd
        },
        SplitHeard::Later => *sitd,
        SplitHeard::TooLong => Sitd {
            babble: true,
            active: false,
            ..*sitd
        },
        SplitHeard::Error => Sitd {
            err: true,
            active: false,
            ..*sitd
        },
        SplitHeard::Wrong => Sitd {
            xact_err: true,
            active: false,
            ..*sitd
        },
    }
}

/// The descriptor with this microframe done.
fn marked(number: u8, sitd: &Sitd) -> Sitd
    requires { number < 8 }
    ensures { result ≡ with_mark number sitd.now }
{
    Sitd {
        c_prog: with(sitd.c_prog, number),
        ..*sitd
    }
}

#[tactic(auto, using(crate::proofs::Ranges::complete_in_range), unfolding(crate::specs::Sitd::after_complete))]
fn completed(number: u8, sitd: &Sitd, heard: SplitHeard) -> Sitd
    requires number { number < 8 }
    requires range { IsSitdInRange sitd.now }
    ensures value { result ≡ after_complete number heard sitd.now }
    ensures range { IsSitdInRange result }
{
    marked(number, &after_heard(sitd, heard))
}

#[tactic(auto, using(crate::proofs::Ranges::start_in_range), unfolding(crate::specs::Sitd::after_start))]
fn started(sitd: &Sitd) -> Sitd
    requires { IsSitdInRange sitd.now }
    ensures value { result ≡ after_start sitd.now }
    ensures range { IsSitdInRange result }
{
    Sitd {
        split_state: true,
        ..*sitd
    }
}

fn position(sitd: &Sitd) -> u8
    ensures { result ≡ next_position sitd.now }
{
    match sitd.t_count {
        0 | 1 => sitd.tp,
        2 => 3,
        _ => 2,
    }
}

#[tactic(auto, using(crate::proofs::Ranges::part_in_range), unfolding(crate::specs::Sitd::after_part))]
fn sent(number: u8, sitd: &Sitd) -> Sitd
    requires number { number < 8 }
    requires range { IsSitdInRange sitd.now }
    ensures value { result ≡ after_part number sitd.now }
    ensures range { IsSitdInRange result }
{
    let part = Sitd {
        total: sitd.total - part_size(sitd),
        t_count: sitd.t_count.saturating_sub(1),
        tp: position(sitd),
        active: sitd.active && sitd.t_count > 1,
        ..*sitd
    };
    marked(number, &part)
}

fn heard_in(number: u8, sitd: &Sitd, reply: &Reply) -> SplitHeard
    requires { number < 8 }
    ensures { result ≡ heard_by number sitd.now reply.now }
{
    heard(is_last(sitd.cmask, number), sitd.total, reply)
}

fn after_in(number: u8, sitd: &Sitd, reply: &Reply) -> Sitd
    requires number { number < 8 }
    requires range { IsSitdInRange sitd.now }
    ensures value { result ≡ in_after number reply.now sitd.now }
    ensures range { IsSitdInRange result }
{
    if sitd.split_state {
        return completed(number, sitd, heard_in(number, sitd, reply));
    }
    started(sitd)
}

/// The descriptor after a transaction.
fn after(number: u8, sitd: &Sitd, reply: &Reply) -> Sitd
    requires number { number < 8 }
    requires range { IsSitdInRange sitd.now }
    ensures value { result ≡ sitd_after number reply.now sitd.now }
    ensures range { IsSitdInRange result }
{
    if sitd.dir_in {
        return after_in(number, sitd, reply);
    }
    sent(number, sitd)
}

fn outcome_in(number: u8, sitd: &Sitd, reply: &Reply) -> SplitOutcome
    requires { number < 8 }
    ensures { result ≡ in_outcome number reply.now sitd.now }
{
    if sitd.split_state {
        return came_to(heard_in(number, sitd, reply));
    }
    SplitOutcome::Nothing
}

/// What a transaction came to.
fn outcome(number: u8, sitd: &Sitd, reply: &Reply) -> SplitOutcome
    requires { number < 8 }
    ensures { result ≡ sitd_outcome number reply.now sitd.now }
{
    if sitd.dir_in {
        return outcome_in(number, sitd, reply);
    }
    SplitOutcome::Moved(part_size(sitd))
}

#[tactic(auto, unfolding(crate::specs::Sitd::missed_sitd))]
fn after_miss(sitd: &Sitd) -> Sitd
    requires { IsSitdInRange sitd.now }
    ensures value { result ≡ missed_sitd sitd.now }
    ensures range { IsSitdInRange result }
{
    Sitd {
        missed: true,
        active: false,
        ..*sitd
    }
}

impl HeldSitd {
    /// Its next transaction.
    pub fn next(&self) -> IsoTransaction
        requires { IsSitdHeld self.now }
        ensures value { result ≡ sitd_transaction self.now.sitd }
        ensures size { result.bytes ≤ 1024 }
    {
        if self.sitd.dir_in {
            return next_in(&self.sitd);
        }
        next_out(&self.sitd)
    }

    /// Puts what a transaction in this microframe came to into the copy (EHCI 1.0, 4.12.3.3).
    pub fn settle(&mut self, number: u8, reply: &Reply)
        requires number { number < 8 }
        requires held { IsSitdHeld self.old }
        ensures copy { self.new ≡ sitd_copy number reply.now self.old }
        ensures held { IsSitdHeld self.new }
    {
        let outcome = outcome(number, &self.sitd, reply);
        self.sitd = after(number, &self.sitd, reply);
        self.settled = Some(outcome);
    }

    /// A microframe of its split transaction was missed: it is done (EHCI 1.0, 4.12.3.3.2).
    pub fn miss(&mut self)
        requires { IsSitdHeld self.old }
        ensures copy { self.new ≡ missed_copy self.old }
        ensures held { IsSitdHeld self.new }
    {
        self.sitd = after_miss(&self.sitd);
        self.settled = Some(SplitOutcome::Failed);
    }
}
