//! Worked rows of the devices, which the check computes from the definitions. Their endpoint is number 1, and its packets have at
//! most 64 bytes.
ghost use Rattle.std.specs.Prelude.{◌≡◌, List, [], ◌∷◌};
ghost use Rattle.usb_base.specs.declared.packets.Pid.TheVariants as Pids;
ghost use Rattle.usb_base.specs.declared.packets.Speed.TheVariants.{High as AtHigh, Full as AtFull};
ghost use Rattle.usb_base.specs.declared.packets.Way.TheVariants as Ways;
ghost use Rattle.script_types.specs.declared.devices.Item.TheVariants.{Bytes as Data, Nak as Naks, Nyet as Last, Stall as Stalls, Epoch as Parts};
ghost use Rattle.endpoint_script.specs.Device.{taken_of, acted_of};
ghost use Rattle.endpoint_script.specs.Resets.{next_epoch};
ghost use Rattle.endpoint_script.specs.Worked.{Asks, Acks, Begins, replies, after, in0, in_ack, out0, out1, ping, setup, ack, nak, nyet, stall, silence, data0, data1, data2, name_of, sender, receiver, streamer, composite, request};

/// An IN endpoint sends its packets in order, the next one only after the acknowledgement was heard, and NAK past the end.
pub fn packets_are_sent_in_order()
    ensures order { replies (sender (Data (1 ∷ 2 ∷ []) ∷ Data [] ∷ [])) (in0 1 ∷ in_ack 1 ∷ in0 1 ∷ in_ack 1 ∷ in0 1 ∷ [])
        ≡ data0 (1 ∷ 2 ∷ []) ∷ data1 [] ∷ nak ∷ [] }
    ensures again { replies (sender (Data (1 ∷ []) ∷ Data (2 ∷ []) ∷ [])) (in0 1 ∷ in0 1 ∷ in_ack 1 ∷ in0 1 ∷ [])
        ≡ data0 (1 ∷ []) ∷ data0 (1 ∷ []) ∷ data1 (2 ∷ []) ∷ [] }
    ensures nothing_to_ack { replies (sender (Naks 1 ∷ Data (1 ∷ []) ∷ [])) (in_ack 1 ∷ in0 1 ∷ in_ack 1 ∷ in_ack 1 ∷ in0 1 ∷ []) ≡ nak ∷ nak ∷ [] }
{}

/// `Nak(k)` gives k NAKs, and a stall stays.
pub fn naks_and_stall()
    ensures two { replies (sender (Naks 2 ∷ Data (1 ∷ []) ∷ [])) (in0 1 ∷ in0 1 ∷ in0 1 ∷ []) ≡ nak ∷ nak ∷ data0 (1 ∷ []) ∷ [] }
    ensures stays { replies (sender (Data (1 ∷ []) ∷ Stalls ∷ Data (2 ∷ []) ∷ [])) (in0 1 ∷ in_ack 1 ∷ in0 1 ∷ in_ack 1 ∷ in0 1 ∷ [])
        ≡ data0 (1 ∷ []) ∷ stall ∷ stall ∷ [] }
{}

/// A reset leaves what stands in the next epoch, and nothing where no epoch follows; before it an endpoint answers as past the end.
#[tactic(auto, unfolding(crate::specs::Resets::next_epoch))]
pub fn epochs_follow_resets()
    ensures next { next_epoch (Data (1 ∷ []) ∷ Stalls ∷ Parts ∷ Data (2 ∷ []) ∷ Parts ∷ []) ≡ Data (2 ∷ []) ∷ Parts ∷ [] }
    ensures none { next_epoch (Data (1 ∷ []) ∷ Stalls ∷ []) ≡ [] }
    ensures before { replies (sender (Parts ∷ Data (1 ∷ []) ∷ [])) (in0 1 ∷ in_ack 1 ∷ in0 1 ∷ []) ≡ nak ∷ nak ∷ [] }
{}

/// An OUT endpoint takes each packet once: data with the toggle that it doesn't expect are acknowledged and dropped, whatever stands.
pub fn packets_are_taken_once()
    ensures once { taken_of (after (receiver AtHigh 9 []) (out0 1 (1 ∷ []) ∷ out0 1 (1 ∷ []) ∷ out1 1 (2 ∷ []) ∷ [])) (name_of 1 Ways.Out) ≡ 1 ∷ 2 ∷ [] }
    ensures acknowledged { replies (receiver AtHigh 9 []) (out0 1 (1 ∷ []) ∷ out0 1 (1 ∷ []) ∷ out1 1 (2 ∷ []) ∷ []) ≡ ack ∷ ack ∷ ack ∷ [] }
    ensures before_items { replies (receiver AtHigh 9 (Naks 1 ∷ Stalls ∷ [])) (out1 1 (1 ∷ []) ∷ out0 1 (1 ∷ []) ∷ out1 1 (1 ∷ []) ∷ out0 1 (1 ∷ []) ∷ [])
        ≡ ack ∷ nak ∷ ack ∷ stall ∷ [] }
{}

/// Data are taken only where there is room for all of them.
pub fn room_is_kept()
    ensures full { replies (receiver AtHigh 2 []) (out0 1 (1 ∷ 2 ∷ 3 ∷ []) ∷ out0 1 (1 ∷ 2 ∷ []) ∷ out1 1 (3 ∷ []) ∷ out1 1 [] ∷ []) ≡ nak ∷ ack ∷ nak ∷ ack ∷ [] }
    ensures last_waits { replies (receiver AtHigh 1 (Last ∷ [])) (out0 1 (1 ∷ 2 ∷ []) ∷ out0 1 (1 ∷ []) ∷ []) ≡ nak ∷ nyet ∷ [] }
{}

/// NYET takes its data; below high speed ACK stands for it. A PING meets the NAKs and the stall, and takes nothing.
pub fn nyet_then_ping()
    ensures high { replies (receiver AtHigh 9 (Last ∷ Naks 2 ∷ [])) (out0 1 (1 ∷ []) ∷ ping 1 ∷ ping 1 ∷ ping 1 ∷ out1 1 (2 ∷ []) ∷ [])
        ≡ nyet ∷ nak ∷ nak ∷ ack ∷ ack ∷ [] }
    ensures full { replies (receiver AtFull 9 (Last ∷ Naks 1 ∷ [])) (out0 1 (1 ∷ []) ∷ out1 1 (2 ∷ []) ∷ out1 1 (2 ∷ []) ∷ []) ≡ ack ∷ nak ∷ ack ∷ [] }
    ensures stalled { replies (receiver AtHigh 9 (Stalls ∷ [])) (ping 1 ∷ ping 1 ∷ []) ≡ stall ∷ stall ∷ [] }
    ensures ping_at_nyet { replies (receiver AtHigh 9 (Last ∷ [])) (ping 1 ∷ out0 1 (1 ∷ []) ∷ []) ≡ ack ∷ nyet ∷ [] }
    ensures none { taken_of (after (receiver AtHigh 9 []) (ping 1 ∷ [])) (name_of 1 Ways.Out) ≡ [] }
{}

/// An isochronous IN endpoint sends up to Multi packets in a microframe, counted down to DATA0, and uses them up unheard.
pub fn isochronous_packets()
    ensures three { replies (streamer 3 (Data (1 ∷ []) ∷ Data (2 ∷ []) ∷ Data (3 ∷ []) ∷ Data (4 ∷ []) ∷ [])) (in0 1 ∷ in0 1 ∷ in0 1 ∷ in0 1 ∷ Begins ∷ in0 1 ∷ in0 1 ∷ [])
        ≡ data2 (1 ∷ []) ∷ data1 (2 ∷ []) ∷ data0 (3 ∷ []) ∷ data0 [] ∷ data0 (4 ∷ []) ∷ data0 [] ∷ [] }
    ensures two_left { replies (streamer 3 (Data (1 ∷ []) ∷ Data (2 ∷ []) ∷ [])) (in0 1 ∷ in0 1 ∷ []) ≡ data1 (1 ∷ []) ∷ data0 (2 ∷ []) ∷ [] }
    ensures none { replies (streamer 1 []) (in0 1 ∷ []) ≡ data0 [] ∷ [] }
{}

/// An ask is for the endpoint of its number that its token suits, and for no other; else there is no answer.
pub fn asks_find_their_endpoint()
    ensures suited { replies composite (in0 1 ∷ out0 2 (9 ∷ []) ∷ in0 2 ∷ setup 0 request ∷ in0 0 ∷ in_ack 0 ∷ out1 0 [] ∷ [])
        ≡ data0 (5 ∷ []) ∷ ack ∷ data0 [] ∷ ack ∷ data1 (7 ∷ []) ∷ ack ∷ [] }
    ensures unsuited { replies composite (setup 1 request ∷ in0 3 ∷ out0 1 (9 ∷ []) ∷ Asks Pids.Sof 1 Pids.Data0 [] ∷ ping 1 ∷ [])
        ≡ silence ∷ silence ∷ silence ∷ silence ∷ silence ∷ [] }
    ensures took { taken_of (after composite (out0 2 (9 ∷ []) ∷ [])) (name_of 2 Ways.Out) ≡ 9 ∷ [] }
    ensures acted { acted_of (after composite (setup 0 request ∷ in0 0 ∷ in_ack 0 ∷ out1 0 [] ∷ out1 0 [] ∷ [])) (name_of 0 Ways.Ctl) ≡ 1 }
    ensures others { taken_of composite (name_of 1 Ways.In) ≡ [] }
{}
