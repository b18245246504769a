ghost use Rattle.std.specs.Prelude.{◌≡◌, ℕ, ◌≤◌, ◌<◌, ◌+◌, ◌-◌, ◌↔◌, ◌++◌, [], length, nat_le, ◌==◌, min, take, IfOk, OnOk, OnErr, IsErr, IsTrue, Some, vec_len, vec_capacity};
ghost use Rattle.std.specs.List.{list_any};
ghost use Rattle.std.specs.Io.{WritesAtMost};
ghost use Rattle.std.specs.Io.KnownBytes.{WriteAppends};
ghost use Rattle.usb_base.specs.Outside.{one_more};
ghost use Rattle.usb_base.specs.Memories.{SinkContent, writes_fail};

use crate::memory::Memory;
use crate::outside::{Failed, Sink};
use std::alloc::Global;
use std::marker::Model;

/// A sink into memory with room for a number of bytes, of which chosen writes fail.
#[derive(Drop)]
pub struct MemSink {
    bytes: Vec<u8>,
    room: u32,
    fails: Vec<u32>,
    calls: u64,
    faults: u64,
}

impl Model for MemSink {
    ghost Value = { SinkContent };

    ghost view = { λ s. record {
      written = s.bytes.items;
      room = s.room;
      fails = s.fails.items;
      calls = s.calls;
      faults = s.faults;
    } };

    ghost invariant = { λ s. (vec_len s.bytes ≤ s.room) × (s.room ≤ vec_capacity s.bytes) };
}

impl MemSink {
    /// An empty sink with room for `room` bytes. The writes whose numbers (from 0) stand in `fails` fail, and so does
    /// each write that finds the room used up; each failure raises the count.
    pub fn build(alloc: Global, room: u32, fails: &[u32]) -> Result<MemSink, Memory>
        ensures { IfOk result (λ s. s ≡ record { written = []; room = room; fails = fails.now; calls = 0; faults = 0 }) }
    {
        let bytes = Vec::with_capacity(alloc, room as usize)?;
        let fails = Vec::from_slice(alloc, fails)?;
        Ok(MemSink {
            bytes,
            room,
            fails,
            calls: 0,
            faults: 0,
        })
    }

    /// The bytes that were written so far.
    pub fn written(&self) -> &[u8]
        ensures { result.now ≡ self.now.written }
    {
        self.bytes.as_slice()
    }

    /// How many writes have failed.
    pub fn faults(&self) -> u64
        ensures { result ≡ self.now.faults }
    {
        self.faults
    }

    fn is_full(&self) -> bool
        ensures { result ≡ nat_le self.now.room (length self.now.written) }
    {
        self.room as usize <= self.bytes.len()
    }

    fn is_listed(&self) -> bool
        ensures { result ≡ list_any (λ k. k == self.now.calls) self.now.fails }
    {
        self.fails.iter().any(|fail| *fail as u64 == self.calls)
    }

    fn count_fault(&mut self)
        ensures after { self.new ≡ record self.old {
          calls = one_more self.old.calls;
          faults = one_more self.old.faults;
        } }
        ensures counted { self.old.faults ≤ self.new.faults }
    {
        self.calls = self.calls.saturating_add(1);
        self.faults = self.faults.saturating_add(1);
    }

    fn take(&mut self, piece: &[u8]) -> usize
        ensures count { result ≡ min (length piece.now) (self.old.room - length self.old.written) }
        ensures after { self.new ≡ record self.old {
          calls = one_more self.old.calls;
          written = self.old.written ++ take result piece.now;
        } }
    {
        self.calls = self.calls.saturating_add(1);
        let n = usize::min(piece.len(), self.room as usize - self.bytes.len());
        append_reserved(&mut self.bytes, &piece[..n]);
        n
    }
}

fn append_reserved(bytes: &mut Vec<u8>, piece: &[u8])
    requires { vec_len bytes.old + length piece.now ≤ vec_capacity bytes.old }
    ensures items { bytes.new.items ≡ bytes.old.items ++ piece.now }
    ensures capacity { vec_capacity bytes.new ≡ vec_capacity bytes.old }
{
    for byte in piece {
        bytes.push_reserved(*byte);
    }
}

impl Sink for MemSink {
    ghost written = { λ s. Some s.written };

    ghost faults = { λ s. s.faults };

    fn write(&mut self, piece: &[u8]) -> Result<usize, Failed>
        ensures bound { WritesAtMost result piece.now }
        ensures some { IfOk result (λ n. 0 < length piece.now → 0 < n) }
        ensures bytes { WriteAppends (Some self.old.written) (Some self.new.written) result piece.now }
        ensures stays { OnOk result (self.new.faults ≡ self.old.faults) }
        ensures rises { OnErr result (self.new.faults ≡ one_more self.old.faults) }
        ensures counted { self.old.faults ≤ self.new.faults }
        ensures chosen { IsErr result ↔ IsTrue (writes_fail self.old) }
        ensures amount { IfOk result (λ n. n ≡ min (length piece.now) (self.old.room - length self.old.written)) }
        ensures calls { self.new.calls ≡ one_more self.old.calls }
        ensures same { (self.new.fails ≡ self.old.fails) × (self.new.room ≡ self.old.room) }
    {
        if self.is_full() || self.is_listed() {
            self.count_fault();
            return Err(Failed);
        }
        Ok(self.take(piece))
    }
}
