//! Worked control transfers, which the check computes from the definitions. Packets have at most 4 bytes.
ghost use Rattle.std.specs.Prelude.{◌≡◌, List, [], ◌∷◌};
ghost use Rattle.usb_base.specs.declared.packets.Reply.TheVariants.{Silent as NoAnswer};
ghost use Rattle.dev_control.specs.Worked.{Acks, replies, after, setup, in1, out0, out1, ping, ack, nak, stall, data0, data1, read_of, write_of, small, known, unknown};

/// A read whose reply is shorter than was asked for, and doesn't fill its last packet.
pub fn short_reply()
    ensures sent { replies (known (1 ∷ 2 ∷ 3 ∷ 4 ∷ 5 ∷ [])) (small 0) (setup (read_of 8) ∷ in1 ∷ Acks ∷ in1 ∷ Acks ∷ out1 [] ∷ [])
        ≡ ack ∷ data1 (1 ∷ 2 ∷ 3 ∷ 4 ∷ []) ∷ data0 (5 ∷ []) ∷ ack ∷ [] }
    ensures acts { (after (known (1 ∷ [])) (small 0) (setup (read_of 8) ∷ in1 ∷ Acks ∷ out1 [] ∷ [])).acted ≡ 1 }
    ensures ended { replies (known (1 ∷ [])) (small 0) (setup (read_of 8) ∷ in1 ∷ Acks ∷ in1 ∷ []) ≡ ack ∷ data1 (1 ∷ []) ∷ stall ∷ [] }
    ensures cut { replies (known (1 ∷ 2 ∷ 3 ∷ [])) (small 0) (setup (read_of 2) ∷ in1 ∷ Acks ∷ in1 ∷ []) ≡ ack ∷ data1 (1 ∷ 2 ∷ []) ∷ stall ∷ [] }
{}

/// A short reply that fills its last packet, or is empty, is followed by one empty packet; a whole one isn't.
pub fn filled_reply()
    ensures short { replies (known (1 ∷ 2 ∷ 3 ∷ 4 ∷ [])) (small 0) (setup (read_of 8) ∷ in1 ∷ Acks ∷ in1 ∷ Acks ∷ in1 ∷ [])
        ≡ ack ∷ data1 (1 ∷ 2 ∷ 3 ∷ 4 ∷ []) ∷ data0 [] ∷ stall ∷ [] }
    ensures empty { replies (known []) (small 0) (setup (read_of 8) ∷ in1 ∷ Acks ∷ in1 ∷ []) ≡ ack ∷ data1 [] ∷ stall ∷ [] }
    ensures whole { replies (known (1 ∷ 2 ∷ 3 ∷ 4 ∷ [])) (small 0) (setup (read_of 4) ∷ in1 ∷ Acks ∷ in1 ∷ [])
        ≡ ack ∷ data1 (1 ∷ 2 ∷ 3 ∷ 4 ∷ []) ∷ stall ∷ [] }
{}

/// A read goes on only where the acknowledgement was heard, and its status is taken at any point of it.
pub fn read_goes_on()
    ensures again { replies (known (1 ∷ 2 ∷ 3 ∷ 4 ∷ 5 ∷ [])) (small 0) (setup (read_of 8) ∷ in1 ∷ in1 ∷ Acks ∷ in1 ∷ [])
        ≡ ack ∷ data1 (1 ∷ 2 ∷ 3 ∷ 4 ∷ []) ∷ data1 (1 ∷ 2 ∷ 3 ∷ 4 ∷ []) ∷ data0 (5 ∷ []) ∷ [] }
    ensures early_status { replies (known (1 ∷ 2 ∷ 3 ∷ 4 ∷ 5 ∷ [])) (small 0) (setup (read_of 8) ∷ out1 [] ∷ in1 ∷ [])
        ≡ ack ∷ ack ∷ data1 (1 ∷ 2 ∷ 3 ∷ 4 ∷ []) ∷ [] }
    ensures no_status { replies (known (1 ∷ [])) (small 0) (setup (read_of 8) ∷ out0 [] ∷ out1 (1 ∷ []) ∷ []) ≡ ack ∷ stall ∷ stall ∷ [] }
{}

/// A write takes as many bytes as it announced, each packet once, and then confirms.
pub fn write_takes()
    ensures taken { replies (known []) (small 0) (setup (write_of 5) ∷ out1 (1 ∷ 2 ∷ 3 ∷ 4 ∷ []) ∷ out1 (1 ∷ 2 ∷ 3 ∷ 4 ∷ []) ∷ out0 (5 ∷ []) ∷ out0 (5 ∷ []) ∷ in1 ∷ [])
        ≡ ack ∷ ack ∷ ack ∷ ack ∷ ack ∷ data1 [] ∷ [] }
    ensures too_early { replies (known []) (small 0) (setup (write_of 5) ∷ in1 ∷ []) ≡ ack ∷ stall ∷ [] }
    ensures too_many { replies (known []) (small 0) (setup (write_of 1) ∷ out1 (1 ∷ []) ∷ out0 (2 ∷ []) ∷ out1 (1 ∷ []) ∷ [])
        ≡ ack ∷ ack ∷ stall ∷ ack ∷ [] }
    ensures longer { replies (known []) (small 0) (setup (write_of 1) ∷ out1 (1 ∷ 2 ∷ []) ∷ []) ≡ ack ∷ stall ∷ [] }
{}

/// A request with no data is confirmed at once.
pub fn no_data()
    ensures confirmed { replies (known []) (small 0) (setup (write_of 0) ∷ in1 ∷ []) ≡ ack ∷ data1 [] ∷ [] }
    ensures read_bit { replies (known []) (small 0) (setup (read_of 0) ∷ in1 ∷ []) ≡ ack ∷ data1 [] ∷ [] }
    ensures no_out { replies (known []) (small 0) (setup (write_of 0) ∷ out1 [] ∷ []) ≡ ack ∷ stall ∷ [] }
{}

/// A repeated status is answered alike and doesn't act again; a repeated SETUP begins its request anew.
pub fn repeated_status()
    ensures answered { replies (known []) (small 0) (setup (write_of 0) ∷ in1 ∷ Acks ∷ in1 ∷ []) ≡ ack ∷ data1 [] ∷ data1 [] ∷ [] }
    ensures acts_once { (after (known []) (small 0) (setup (write_of 0) ∷ in1 ∷ in1 ∷ in1 ∷ [])).acted ≡ 1 }
    ensures read_once { (after (known []) (small 0) (setup (read_of 8) ∷ in1 ∷ Acks ∷ out1 [] ∷ out1 [] ∷ [])).acted ≡ 1 }
    ensures anew { (after (known []) (small 0) (setup (write_of 0) ∷ in1 ∷ setup (write_of 0) ∷ in1 ∷ [])).acted ≡ 2 }
{}

/// NAKs that are left answer every token but a SETUP, before each other rule.
pub fn naks()
    ensures in_data { replies (known (1 ∷ [])) (small 2) (setup (read_of 8) ∷ in1 ∷ in1 ∷ in1 ∷ Acks ∷ out1 [] ∷ [])
        ≡ ack ∷ nak ∷ nak ∷ data1 (1 ∷ []) ∷ ack ∷ [] }
    ensures out_data { replies (known []) (small 2) (setup (write_of 1) ∷ out1 (7 ∷ []) ∷ ping ∷ ping ∷ out1 (7 ∷ []) ∷ in1 ∷ [])
        ≡ ack ∷ nak ∷ nak ∷ ack ∷ ack ∷ data1 [] ∷ [] }
    ensures status { replies (known []) (small 1) (setup (write_of 0) ∷ in1 ∷ in1 ∷ []) ≡ ack ∷ nak ∷ data1 [] ∷ [] }
    ensures before_setup { replies (known []) (small 1) (in1 ∷ in1 ∷ setup (write_of 0) ∷ []) ≡ nak ∷ stall ∷ ack ∷ [] }
    ensures refused { replies unknown (small 1) (setup (write_of 0) ∷ setup (write_of 0) ∷ in1 ∷ in1 ∷ []) ≡ ack ∷ ack ∷ nak ∷ stall ∷ [] }
{}

/// A request with no reply is stalled at each later stage, until the next SETUP; a PING too. Else a PING is acknowledged.
pub fn stalls()
    ensures stalled { replies unknown (small 0) (setup (read_of 8) ∷ in1 ∷ out1 [] ∷ ping ∷ in1 ∷ setup (read_of 8) ∷ [])
        ≡ ack ∷ stall ∷ stall ∷ stall ∷ stall ∷ ack ∷ [] }
    ensures never_acts { (after unknown (small 0) (setup (write_of 0) ∷ in1 ∷ in1 ∷ [])).acted ≡ 0 }
    ensures ping_ack { replies (known []) (small 0) (setup (write_of 1) ∷ ping ∷ out1 (1 ∷ []) ∷ ping ∷ []) ≡ ack ∷ ack ∷ ack ∷ ack ∷ [] }
{}

/// A SETUP of another length than eight bytes isn't heard.
pub fn short_setup()
    ensures silent { replies (known []) (small 1) (setup (1 ∷ 2 ∷ []) ∷ []) ≡ NoAnswer ∷ [] }
    ensures same { after (known []) (small 1) (setup (1 ∷ 2 ∷ []) ∷ []) ≡ small 1 }
{}
