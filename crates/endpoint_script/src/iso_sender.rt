ghost use Rattle.std.specs.Prelude.{◌≡◌, ◌++◌, IfOk, OnOk, IsTrue};
ghost use Rattle.std.specs.List.{list_all};
ghost use Rattle.std.specs.Option.{option_to_list};
ghost use Rattle.endpoint_script.specs.Items.{packet_in, packets_of, is_short};
ghost use Rattle.endpoint_script.specs.Streaming.{streaming_at, streaming_begun, due_of, count_pid, streaming_reply, streaming_answered};

use script_types::Item;
use std::alloc::{AllocError, Global};
use std::marker::Model;
use usb_base::{ListOf, Packet, Pid, Reply};

/// Appends a copy of the packet that an item is.
fn add_packet(alloc: Global, packets: &mut Vec<ListOf<u8>>, item: &Item) -> Result<(), AllocError>
    ensures { OnOk result (packets.new.items ≡ packets.old.items ++ option_to_list (packet_in item.now)) }
{
    let Item::Bytes(bytes) = item else {
        return Ok(());
    };
    packets.push(ListOf::of(bytes.as_slice().to_vec(alloc)?))?;
    Ok(())
}

/// Copies of the data packets among the items, in order.
fn packets(alloc: Global, items: &[Item]) -> Result<Vec<ListOf<u8>>, AllocError>
    ensures { IfOk result (λ packets. packets.items ≡ packets_of items.now) }
{
    let mut packets = Vec::new(alloc);
    for item in items {
        add_packet(alloc, &mut packets, item)?;
    }
    Ok(packets)
}

/// The PID of a packet that has `after` packets after it in its microframe or frame (USB 2.0, 5.9.2).
fn count_pid(after: usize) -> Pid
    ensures { result ≡ count_pid after }
{
    match after {
        0 => Pid::Data0,
        1 => Pid::Data1,
        _ => Pid::Data2,
    }
}

/// An isochronous IN endpoint, which contracts see as a `Streaming`.
#[derive(Drop)]
pub struct IsoSender {
    packets: Vec<ListOf<u8>>,
    next: usize,
    multi: u8,
    used: u8,
}

impl Model for IsoSender {
    ghost use Rattle.std.specs.Prelude.{drop, IsTrue, ◌≤◌, length};
    ghost use Rattle.std.specs.List.{list_all};
    ghost use Rattle.endpoint_script.specs.Items.{is_packet};
    ghost use Rattle.endpoint_script.specs.Streaming.{Streaming};

    ghost Value = { Streaming };

    ghost view = { λ s. record { packets = drop s.next s.packets.items; multi = s.multi; used = s.used } };

    ghost invariant = { λ s. (s.next ≤ length s.packets.items) × IsTrue (list_all is_packet (drop s.next s.packets.items)) };
}

impl IsoSender {
    #[tactic(auto, using(crate::proofs::Lists::short_packets))]
    /// The endpoint before its first IN: it sends at most `multi` packets in a microframe or frame, none of more than 1,024 bytes.
    pub fn open(alloc: Global, multi: u8, items: &[Item]) -> Result<IsoSender, AllocError>
        requires { IsTrue (list_all is_short items.now) }
        ensures { IfOk result (λ s. s ≡ streaming_at multi items.now) }
    {
        Ok(IsoSender {
            packets: packets(alloc, items)?,
            next: 0,
            multi,
            used: 0,
        })
    }

    /// A microframe or frame begins.
    pub fn begin(&mut self)
        ensures { self.new ≡ streaming_begun self.old }
    {
        self.used = 0;
    }

    /// Answers an IN.
    pub fn answer(&mut self) -> Reply
        ensures reply { result ≡ streaming_reply self.old }
        ensures after { self.new ≡ streaming_answered self.old }
    {
        let due = self.due();
        if due == 0 {
            return Reply::Bytes(Pid::Data0, Packet::empty());
        }
        let packet = Packet::copy_of(self.packets[self.next].as_slice());
        self.next += 1;
        self.used += 1;
        Reply::Bytes(count_pid(due - 1), packet)
    }

    fn due(&self) -> usize
        ensures { result ≡ due_of self.now }
    {
        usize::min(
            self.multi.saturating_sub(self.used) as usize,
            self.packets.len() - self.next,
        )
    }
}
