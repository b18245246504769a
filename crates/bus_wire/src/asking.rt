ghost use Rattle.std.specs.Prelude.{◌≡◌, ◌≤◌, length, false, slice_get};
ghost use Rattle.usb_base.specs.Acknowledgement.{acknowledges};
ghost use Rattle.usb_base.specs.declared.packets.Reply.{Reply as Heard};
ghost use Rattle.usb_base.specs.declared.packets.Reply.TheVariants.{Silent};
ghost use Rattle.endpoint_script.specs.Device.{answer_of, acked_by};
ghost use Rattle.hub_class.specs.EndpointZero.{hub_reply, hub_acked};
ghost use Rattle.hub_class.specs.Translating.{transact_reply};
ghost use Rattle.bus_wire.specs.WhoHeard.{who_heard, is_answer, answer_sent, left_by};
ghost use Rattle.bus_wire.specs.Asking.{row_for, device_after, hub_after, translator_after, device_answer, hub_answer, translator_answer, changed_at};

use crate::asked::Losses;
use crate::who_heard::{WhoHeard, answers};
use endpoint_script::Device;
use hub_class::Hub;
use usb_base::{Ask, Reply};

/// Who heard what, where what was sent was heard and this is the answer.
#[tactic(auto, using(crate::proofs::Sent::was_sent))]
fn heard(losses: &Losses, ask: &Ask, answer: &Reply) -> WhoHeard
    ensures row { result ≡ who_heard false (is_answer answer.now) losses.now.answer (acknowledges ask.now answer.now) losses.now.acknowledgement }
    ensures sent { answer.now ≡ answer_sent result answer.now }
{
    WhoHeard::of_heard(
        answers(answer),
        losses.answer,
        ask.acknowledges(answer),
        losses.acknowledgement,
    )
}

/// Asks nobody.
pub fn ask_nobody(ask: &Ask, losses: &Losses, reply: &mut Reply) -> WhoHeard
    ensures row { result ≡ row_for losses.now ask.now Silent }
    ensures reply { reply.new ≡ answer_sent result Silent }
{
    *reply = Reply::Silent;
    if losses.sent {
        WhoHeard::SentUnheard
    } else {
        WhoHeard::NoAnswer
    }
}

/// The host's acknowledgement comes to a device, where it is heard.
fn acknowledge_device(row: WhoHeard, device: &mut Device, ask: &Ask)
    ensures { device.new ≡ left_by row device.old device.old (acked_by device.old ask.now) }
{
    if let WhoHeard::AckHeard = row {
        device.acked(ask);
    }
}

/// The host's acknowledgement comes to endpoint 0 of a hub, where it is heard.
fn acknowledge_hub(row: WhoHeard, hub: &mut Hub, ask: &Ask)
    ensures { hub.new ≡ left_by row hub.old hub.old (hub_acked ask.now hub.old) }
{
    if let WhoHeard::AckHeard = row {
        hub.acked(ask);
    }
}

/// Asks a device; `reply` becomes the answer that it sent, heard or not.
fn ask_device(
    device: &mut Device,
    ask: &Ask,
    out: &[u8],
    losses: &Losses,
    reply: &mut Reply,
) -> WhoHeard
    requires { length out.now ≤ 1024 }
    ensures row { result ≡ row_for losses.now ask.now (answer_of device.old ask.now out.now) }
    ensures reply { reply.new ≡ answer_sent result (answer_of device.old ask.now out.now) }
    ensures device { device.new ≡ device_after result ask.now out.now device.old }
{
    if losses.sent {
        *reply = Reply::Silent;
        return WhoHeard::SentUnheard;
    }
    *reply = device.answer(ask, out);
    let row = heard(losses, ask, reply);
    acknowledge_device(row, device, ask);
    row
}

/// Asks endpoint 0 of a hub; `reply` becomes the answer that it sent, heard or not.
fn ask_hub(hub: &mut Hub, ask: &Ask, out: &[u8], losses: &Losses, reply: &mut Reply) -> WhoHeard
    requires { length out.now ≤ 1024 }
    ensures row { result ≡ row_for losses.now ask.now (hub_reply ask.now out.now hub.old) }
    ensures reply { reply.new ≡ answer_sent result (hub_reply ask.now out.now hub.old) }
    ensures hub { hub.new ≡ hub_after result ask.now out.now hub.old }
{
    if losses.sent {
        *reply = Reply::Silent;
        return WhoHeard::SentUnheard;
    }
    *reply = hub.answer(ask, out);
    let row = heard(losses, ask, reply);
    acknowledge_hub(row, hub, ask);
    row
}

/// Asks the translator of a hub for an endpoint of this number of stuffed bits; `reply` becomes the answer that it sent, heard or not.
fn ask_translator(
    hub: &mut Hub,
    ask: &Ask,
    out: &[u8],
    stuff: u8,
    losses: &Losses,
    reply: &mut Reply,
) -> WhoHeard
    requires { length out.now ≤ 1024 }
    ensures row { result ≡ row_for losses.now ask.now (transact_reply ask.now hub.old) }
    ensures reply { reply.new ≡ answer_sent result (transact_reply ask.now hub.old) }
    ensures hub { hub.new ≡ translator_after result ask.now out.now stuff hub.old }
{
    if losses.sent {
        *reply = Reply::Silent;
        return WhoHeard::SentUnheard;
    }
    *reply = hub.transact(ask, out, stuff);
    heard(losses, ask, reply)
}

/// Asks the device at a place.
pub fn ask_device_at(
    devices: &mut [Device],
    place: usize,
    ask: &Ask,
    out: &[u8],
    losses: &Losses,
    reply: &mut Reply,
) -> WhoHeard
    requires { length out.now ≤ 1024 }
    ensures row { result ≡ row_for losses.now ask.now (device_answer (slice_get devices.old place) ask.now out.now) }
    ensures reply { reply.new ≡ answer_sent result (device_answer (slice_get devices.old place) ask.now out.now) }
    ensures devices { devices.new ≡ changed_at place (device_after result ask.now out.now) devices.old }
{
    if place >= devices.len() {
        return ask_nobody(ask, losses, reply);
    }
    ask_device(&mut devices[place], ask, out, losses, reply)
}

/// Asks endpoint 0 of the hub at a place.
pub fn ask_hub_at(
    hubs: &mut [Hub],
    place: usize,
    ask: &Ask,
    out: &[u8],
    losses: &Losses,
    reply: &mut Reply,
) -> WhoHeard
    requires { length out.now ≤ 1024 }
    ensures row { result ≡ row_for losses.now ask.now (hub_answer (slice_get hubs.old place) ask.now out.now) }
    ensures reply { reply.new ≡ answer_sent result (hub_answer (slice_get hubs.old place) ask.now out.now) }
    ensures hubs { hubs.new ≡ changed_at place (hub_after result ask.now out.now) hubs.old }
{
    if place >= hubs.len() {
        return ask_nobody(ask, losses, reply);
    }
    ask_hub(&mut hubs[place], ask, out, losses, reply)
}

/// Asks the translator of the hub at a place for an endpoint of this number of stuffed bits.
pub fn ask_translator_at(
    hubs: &mut [Hub],
    place: usize,
    ask: &Ask,
    out: &[u8],
    stuff: u8,
    losses: &Losses,
    reply: &mut Reply,
) -> WhoHeard
    requires { length out.now ≤ 1024 }
    ensures row { result ≡ row_for losses.now ask.now (translator_answer (slice_get hubs.old place) ask.now) }
    ensures reply { reply.new ≡ answer_sent result (translator_answer (slice_get hubs.old place) ask.now) }
    ensures hubs { hubs.new ≡ changed_at place (translator_after result ask.now out.now stuff) hubs.old }
{
    if place >= hubs.len() {
        return ask_nobody(ask, losses, reply);
    }
    ask_translator(&mut hubs[place], ask, out, stuff, losses, reply)
}
