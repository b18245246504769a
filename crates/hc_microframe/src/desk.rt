ghost use Rattle.std.specs.Prelude.{◌≡◌, ◌≤◌, ◌-◌, ◌&&◌, ◌==◌, IsTrue, ◌↔◌, List, ℕ, length, Some, None, is_some, option_copied};
ghost use Rattle.hc_microframe.specs.Answers.{pid_named, hand, packet, is_whole, first_wanted, answer_in, told, answer_of, asked, Begins, Answers};

use crate::answers::{Answer, Wanted, pid_of};
use std::marker::Model;
use usb_base::{Ask, Packet, Reply, Wire};

/// The bus of a microframe, as answers that were written down: each transaction takes the first that is left. Where none is left, nothing
/// answers, and the first transaction that was asked so is kept.
#[derive(Drop)]
pub struct Desk<'a, 'b> {
    answers: &'a [Answer],
    bytes: &'b [u8],
    wanted: Option<Wanted>,
}

impl<'a, 'b> Model for Desk<'a, 'b> {
    ghost use Rattle.hc_microframe.specs.Answers.{Told};

    ghost Value = { Told };

    ghost view = { λ d. record { answers = d.answers.now; bytes = d.bytes.now; wanted = d.wanted } };
}

pub(crate) fn set_hand(reply: &mut Reply, bits: u8)
    ensures { reply.new ≡ hand (pid_named bits) }
{
    match pid_of(bits) {
        Some(pid) => reply.set_hand(pid),
        None => *reply = Reply::Silent,
    }
}

pub(crate) fn set_packet(reply: &mut Reply, bits: u8, bytes: &[u8])
    requires { length bytes.now ≤ 1024 }
    ensures { reply.new ≡ packet (pid_named bits) bytes.now }
{
    match pid_of(bits) {
        Some(pid) => reply.set_bytes(pid, bytes),
        None => *reply = Reply::Silent,
    }
}

/// Whether the bytes of an answer are whole among these, and no more than a packet has.
fn is_whole(bytes: &[u8], answer: &Answer) -> bool
    ensures { result ≡ is_whole bytes.now answer.now }
{
    answer.len <= 1024 && answer.start as usize + answer.len as usize <= bytes.len()
}

/// What is heard of an answer.
fn set(reply: &mut Reply, bytes: &[u8], answer: &Answer)
    ensures { reply.new ≡ answer_in bytes.now answer.now }
{
    if answer.kind == 1 {
        set_hand(reply, answer.pid);
        return;
    }
    if answer.kind == 2 && is_whole(bytes, answer) {
        let start = answer.start as usize;
        set_packet(
            reply,
            answer.pid,
            &bytes[start..start + answer.len as usize],
        );
        return;
    }
    *reply = Reply::Silent;
}

impl<'a, 'b> Desk<'a, 'b> {
    /// A bus with these answers, whose bytes stand among these.
    pub fn of(answers: &'a [Answer], bytes: &'b [u8]) -> Desk<'a, 'b>
        ensures { result ≡ told answers.now bytes.now }
    {
        Desk {
            answers,
            bytes,
            wanted: None,
        }
    }

    /// What was asked first when no answer was left.
    pub fn wanted(&self) -> Option<&Wanted>
        ensures { option_copied result ≡ self.now.wanted }
    {
        self.wanted.as_ref()
    }

    /// Whether something was asked when no answer was left.
    pub fn is_asked(&self) -> bool
        ensures { result ≡ is_some self.now.wanted }
    {
        self.wanted.is_some()
    }

    /// Whether no answer is left.
    pub fn is_empty(&self) -> bool
        ensures { result ≡ (length self.now.answers == 0) }
    {
        self.answers.is_empty()
    }

    /// How many answers are left.
    pub fn left(&self) -> usize
        ensures { result ≡ length self.now.answers }
    {
        self.answers.len()
    }

    fn want(&mut self, ask: &Ask, out: &[u8])
        requires { length out.now ≤ 1024 }
        ensures { self.new ≡ record self.old { wanted = first_wanted self.old.wanted (record { ask = ask.now; out = out.now }) } }
    {
        if self.wanted.is_none() {
            self.wanted = Some(Wanted {
                ask: *ask,
                out: Packet::copy_of(out),
            });
        }
    }
}

impl<'a, 'b> Wire for Desk<'a, 'b> {
    ghost begins = { Begins };

    ghost transacts = { Answers };

    fn begin(&mut self, _frindex: u16) -> bool {
        true
    }

    fn transact(&mut self, ask: &Ask, out: &[u8], reply: &mut Reply) {
        match self.answers.split_first() {
            Some((first, rest)) => {
                set(reply, self.bytes, first);
                self.answers = rest;
            }
            None => {
                *reply = Reply::Silent;
                self.want(ask, out);
            }
        }
    }
}
