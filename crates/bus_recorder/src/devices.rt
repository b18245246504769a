//! Devices below a hub, which are asked as the bus asks them.
ghost use Rattle.std.specs.Prelude.{◌≡◌, ◌≤◌, length, false, slice_get};
ghost use Rattle.usb_base.specs.Acknowledgement.{acknowledges};
ghost use Rattle.usb_base.specs.declared.packets.Reply.TheVariants.{Silent};
ghost use Rattle.endpoint_script.specs.Device.{answer_of, acked_by};
ghost use Rattle.bus_wire.specs.Asking.{row_for, device_after, device_answer, changed_at};
ghost use Rattle.bus_wire.specs.Bus.{begins_anew, begun_at};
ghost use Rattle.bus_wire.specs.WhoHeard.{who_heard, is_answer, answer_sent, left_by};

use bus_wire::{Losses, WhoHeard};
use endpoint_script::Device;
use usb_base::{Ask, Reply, Speed};

/// Whether a packet came in answer.
fn is_answer(reply: &Reply) -> bool
    ensures { result ≡ is_answer reply.now }
{
    match reply {
        Reply::Silent => false,
        Reply::Bytes(_, _) | Reply::Hand(_) => true,
    }
}

/// Who heard what, where what was sent was heard and this is the answer.
#[tactic(auto, using(bus_wire::proofs::Sent::was_sent))]
fn heard(losses: &Losses, ask: &Ask, answer: &Reply) -> WhoHeard
    ensures row { result ≡ who_heard false (is_answer answer.now) losses.now.answer
        (acknowledges ask.now answer.now) losses.now.acknowledgement }
    ensures sent { answer.now ≡ answer_sent result answer.now }
{
    WhoHeard::of_heard(
        is_answer(answer),
        losses.answer,
        ask.acknowledges(answer),
        losses.acknowledgement,
    )
}

/// Asks nobody.
pub fn ask_nobody(ask: &Ask, losses: &Losses, reply: &mut Reply) -> WhoHeard
    ensures row { result ≡ row_for losses.now ask.now Silent }
    ensures reply { reply.new ≡ answer_sent result Silent }
{
    *reply = Reply::Silent;
    if losses.sent {
        WhoHeard::SentUnheard
    } else {
        WhoHeard::NoAnswer
    }
}

/// The acknowledgement comes to a device, where it is heard.
fn acknowledge(row: WhoHeard, device: &mut Device, ask: &Ask)
    ensures { device.new ≡ left_by row device.old device.old (acked_by device.old ask.now) }
{
    if let WhoHeard::AckHeard = row {
        device.acked(ask);
    }
}

/// Asks a device; `reply` becomes the answer that it sent, heard or not.
fn ask_device(
    device: &mut Device,
    ask: &Ask,
    out: &[u8],
    losses: &Losses,
    reply: &mut Reply,
) -> WhoHeard
    requires { length out.now ≤ 1024 }
    ensures row { result ≡ row_for losses.now ask.now (answer_of device.old ask.now out.now) }
    ensures reply { reply.new ≡ answer_sent result (answer_of device.old ask.now out.now) }
    ensures device { device.new ≡ device_after result ask.now out.now device.old }
{
    if losses.sent {
        *reply = Reply::Silent;
        return WhoHeard::SentUnheard;
    }
    *reply = device.answer(ask, out);
    let row = heard(losses, ask, reply);
    acknowledge(row, device, ask);
    row
}

/// Asks the device at a place.
pub fn ask_device_at(
    devices: &mut [Device],
    place: usize,
    ask: &Ask,
    out: &[u8],
    losses: &Losses,
    reply: &mut Reply,
) -> WhoHeard
    requires { length out.now ≤ 1024 }
    ensures row { result ≡ row_for losses.now ask.now (device_answer (slice_get devices.old place) ask.now out.now) }
    ensures reply { reply.new ≡ answer_sent result (device_answer (slice_get devices.old place) ask.now out.now) }
    ensures devices { devices.new ≡ changed_at place (device_after result ask.now out.now) devices.old }
{
    if place >= devices.len() {
        return ask_nobody(ask, losses, reply);
    }
    ask_device(&mut devices[place], ask, out, losses, reply)
}

fn is_new(speed: Speed, frindex: u16) -> bool
    ensures { result ≡ begins_anew speed frindex }
{
    match speed {
        Speed::High => true,
        Speed::Full | Speed::Low => frindex % 8 == 0,
    }
}

/// A microframe begins for a device.
pub fn begin_device(device: &mut Device, frindex: u16)
    ensures { device.new ≡ begun_at frindex device.old }
{
    if is_new(device.speed(), frindex) {
        device.begin();
    }
}
