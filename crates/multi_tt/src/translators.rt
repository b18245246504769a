ghost use Rattle.std.specs.Prelude.{◌≡◌, ◌≤◌, length, replicate, slice_get, IfOk, if◌then◌else◌};
ghost use Rattle.std.specs.Option.{option_map_or};
ghost use Rattle.usb_base.specs.declared.packets.Reply.TheVariants.{Silent};
ghost use Rattle.multi_tt.specs.Translators.{opening as new_translator, opening_of, place_of, put_if, translator_at, changed_at};
ghost use Rattle.multi_tt.specs.Single.{started, start_answer, completed, complete_answer, cleared, AllWork};
ghost use Rattle.multi_tt.specs.Calls.{port_of as port_of_split};

use crate::translator::Translator;
use hub_keys::Key;
use std::alloc::Global;
use std::marker::Model;
use usb_base::{Ask, Memory, Reply, Split, Wire};

/// The translators of a hub: one for all its ports, or one for each.
#[derive(Drop)]
pub struct Translators {
    multi: bool,
    all: Vec<Translator>,
}

impl Model for Translators {
    ghost use Rattle.multi_tt.specs.Translators.{Translators as Content};

    ghost Value = { Content };

    ghost view = { λ t. record { multi = t.multi; all = t.all.items } };
}

/// The port that a split names; 0 where an ask isn't split.
fn port_of(split: &Split) -> u8
    ensures { result ≡ port_of_split split.now }
{
    match split {
        Split::Plain => 0,
        Split::Start { port, .. } | Split::Complete { port, .. } => *port,
    }
}

/// The place of the translator that serves a port; there is no port 0.
fn place(multi: bool, port: u16) -> Option<usize>
    ensures { result ≡ place_of multi port }
{
    if !multi {
        return Some(0);
    }
    if 1 <= port {
        Some(port as usize - 1)
    } else {
        None
    }
}

/// How many translators a hub with so many ports has.
fn count_of(ports: u8, multi: bool) -> u8
    ensures { result ≡ (if multi then ports else 1) }
{
    if multi { ports } else { 1 }
}

/// So many translators.
fn build_all(alloc: Global, count: u8) -> Result<Vec<Translator>, Memory>
    ensures { IfOk result (λ v. v.items ≡ replicate count new_translator) }
{
    let mut all = Vec::with_capacity(alloc, count as usize)?;
    for _place in 0..count {
        let one = Translator::build(alloc)?;
        all.push_reserved(one);
    }
    Ok(all)
}

/// Lets the translator at a place take a start-split.
fn start_at(all: &mut [Translator], place: usize, ask: &Ask, bytes: &[u8], stuff: u8) -> Reply
    requires { length bytes.now ≤ 1024 }
    ensures answer { result ≡ option_map_or (start_answer ask.now) (slice_get all.old place) Silent }
    ensures after { all.new ≡ put_if (slice_get all.old place) place (started ask.now bytes.now stuff) all.old }
{
    if place >= all.len() {
        return Reply::Silent;
    }
    all[place].start(ask, bytes, stuff)
}

/// Lets the translator at a place answer a complete-split.
fn complete_at(all: &mut [Translator], place: usize, ask: &Ask) -> Reply
    ensures answer { result ≡ option_map_or (complete_answer ask.now) (slice_get all.old place) Silent }
    ensures after { all.new ≡ put_if (slice_get all.old place) place (completed ask.now) all.old }
{
    if place >= all.len() {
        return Reply::Silent;
    }
    all[place].complete(ask)
}

/// Clears a key in the translator at a place.
fn clear_at(all: &mut [Translator], place: usize, key: &Key)
    ensures { all.new ≡ put_if (slice_get all.old place) place (cleared key.now) all.old }
{
    if place < all.len() {
        all[place].clear(key);
    }
}

/// Resets the translator at a place.
fn reset_at(all: &mut [Translator], place: usize)
    ensures { all.new ≡ put_if (slice_get all.old place) place (λ t. new_translator) all.old }
{
    if place < all.len() {
        all[place].reset();
    }
}

impl Translators {
    /// Those of a hub with so many ports: one for each port, or one for all, each with free buffers and an empty pipeline.
    pub fn build(alloc: Global, ports: u8, multi: bool) -> Result<Translators, Memory>
        ensures { IfOk result (λ ts. ts ≡ opening_of ports multi) }
    {
        let all = build_all(alloc, count_of(ports, multi))?;
        Ok(Translators { multi, all })
    }

    /// Whether there is one for each port.
    pub fn is_multi(&self) -> bool
        ensures { result ≡ self.now.multi }
    {
        self.multi
    }

    /// Hands a start-split, with at most 1,024 bytes, to the translator of its port. Stuffed bits make its transaction longer
    /// by `stuff` bytes in 36 (USB 2.0, 7.1.9). Where the hub doesn't have this port it is answered by silence, and nothing
    /// changes.
    pub fn start(&mut self, ask: &Ask, bytes: &[u8], stuff: u8) -> Reply
        requires { length bytes.now ≤ 1024 }
        ensures answer { result ≡ option_map_or (start_answer ask.now) (translator_at (port_of_split ask.now.split) self.old) Silent }
        ensures after { self.new ≡ changed_at (port_of_split ask.now.split) (started ask.now bytes.now stuff) self.old }
    {
        match place(self.multi, port_of(&ask.split) as u16) {
            Some(place) => start_at(self.all.as_mut_slice(), place, ask, bytes, stuff),
            None => Reply::Silent,
        }
    }

    /// Hands a complete-split to the translator of its port. Where the hub doesn't have this port it is answered by silence,
    /// and nothing changes.
    pub fn complete(&mut self, ask: &Ask) -> Reply
        ensures answer { result ≡ option_map_or (complete_answer ask.now) (translator_at (port_of_split ask.now.split) self.old) Silent }
        ensures after { self.new ≡ changed_at (port_of_split ask.now.split) (completed ask.now) self.old }
    {
        match place(self.multi, port_of(&ask.split) as u16) {
            Some(place) => complete_at(self.all.as_mut_slice(), place, ask),
            None => Reply::Silent,
        }
    }

    /// Lets each translator work on the bus below for the microframe that ended, in the order of the ports, at the begin of the
    /// one with this frame index (0 to 16,383): 188 byte-times each (USB 2.0, 11.18).
    pub fn microframe<W: Wire>(&mut self, frindex: u16, down: &mut W)
        ensures work { AllWork W.transacts frindex self.old.all down.old down.new self.new.all }
        ensures multi { self.new.multi ≡ self.old.multi }
    {
        for one in self.all.iter_mut() {
            one.microframe(frindex, down);
        }
    }

    /// Frees the key's buffer in the translator of this port; of a control endpoint those of both directions (USB 2.0,
    /// 11.24.2.3).
    pub fn clear(&mut self, port: u16, key: &Key)
        ensures { self.new ≡ changed_at port (cleared key.now) self.old }
    {
        if let Some(place) = place(self.multi, port) {
            clear_at(self.all.as_mut_slice(), place, key);
        }
    }

    /// Frees both buffers of this port's translator, and empties its pipeline (USB 2.0, 11.24.2.9).
    pub fn reset(&mut self, port: u16)
        ensures { self.new ≡ changed_at port (λ t. new_translator) self.old }
    {
        if let Some(place) = place(self.multi, port) {
            reset_at(self.all.as_mut_slice(), place);
        }
    }
}
