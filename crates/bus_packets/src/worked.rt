//! Worked packets, which the check computes.
ghost use Rattle.std.specs.Prelude.{◌≡◌, true, false, [], ◌∷◌, ◌++◌};
ghost use Rattle.usb_base.specs.declared.packets.DataPart.TheVariants as parts;
ghost use Rattle.usb_base.specs.declared.packets.Pid.TheVariants as pids;
ghost use Rattle.usb_base.specs.declared.packets.Split.TheVariants as splits;
ghost use Rattle.bus_capture.specs.Capture.{packet_header, packet_tail};
ghost use Rattle.bus_packets.specs.Heard.{sends_data};
ghost use Rattle.bus_packets.specs.Packets.{nanos_of, turned_last, frame_record};
ghost use Rattle.bus_packets.specs.Times.{span, own_span};
ghost use Rattle.usb_base.specs.declared.packets.Speed.TheVariants as speeds;

/// Times: half a nanosecond is the next one.
pub fn times()
    ensures begin { nanos_of 125000000 ≡ 125000 }
    ensures near { nanos_of 10880343 ≡ 10880 }
    ensures half { nanos_of 500 ≡ 1 }
    ensures below { nanos_of 499 ≡ 0 }
{}

/// A token at high speed takes 9 byte-times of 480 Mb/s up to its answer, and 19 up to data of the host; at full speed 5 of 12 Mb/s, at low
/// speed 5 of 1.5 Mb/s.
pub fn spans()
    ensures high { span speeds.High 3 ≡ 150000 }
    ensures own { own_span speeds.High 3 ≡ 316666 }
    ensures full { span speeds.Full 3 ≡ 3333333 }
    ensures low { span speeds.Low 3 ≡ 26666666 }
{}

/// A damaged acknowledgement is no packet identifier any more, since its upper bits aren't its lower ones inverted.
#[tactic(auto, unfolding(crate::specs::Packets::turned_last))]
pub fn damage()
    ensures ack { turned_last (0xd2 ∷ []) ≡ 0x52 ∷ [] }
    ensures token { turned_last (0x69 ∷ 0x83 ∷ 0xe0 ∷ []) ≡ 0x69 ∷ 0x83 ∷ 0x60 ∷ [] }
{}

/// The SOF of frame 1, in the first of its microframes.
#[tactic(auto, unfolding(bus_capture::specs::Checks::after_bits, crate::specs::Packets::frame_record, crate::specs::Packets::record_at))]
pub fn frames()
    ensures { frame_record 1000000000 8 ≡ packet_header 0 1000000 3 ++ ((0xa5 ∷ 0x01 ∷ 0xe8 ∷ []) ++ packet_tail 3) }
{}

/// Data follow the token of a start-split OUT, and not that of a complete-split.
pub fn data_sent()
    ensures start { sends_data (splits.Start 9 1 parts.All) pids.Out ≡ true }
    ensures complete { sends_data (splits.Complete 9 1) pids.Out ≡ false }
    ensures in_token { sends_data splits.Plain pids.In ≡ false }
{}
