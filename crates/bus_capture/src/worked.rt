//! Worked values, which the check computes. The packets of the request are those that any host sends first.
ghost use Rattle.std.specs.Prelude.{◌≡◌, [], ◌∷◌};
ghost use Rattle.usb_base.specs.declared.packets.Pid.TheVariants as pids;
ghost use Rattle.bus_capture.specs.Capture.{packet_header, packet_tail};
ghost use Rattle.bus_capture.specs.Checks.{check5, check16};
ghost use Rattle.bus_capture.specs.Packets.{token_bytes, data_bytes, handshake_bytes};

/// The checks of a token for address 0 and endpoint 0, and of the SOF of frame 1.
#[tactic(auto, unfolding(crate::specs::Checks::after_bits))]
pub fn token_checks()
    ensures token { check5 0 11 ≡ 0x02 }
    ensures frame { check5 1 11 ≡ 0x1d }
{}

/// The check of the request for a device's descriptor, of four other bytes, and of none.
#[tactic(auto, unfolding(crate::specs::Checks::after_bits, crate::specs::Checks::after_bytes))]
pub fn data_checks()
    ensures request { check16 (0x80 ∷ 6 ∷ 0 ∷ 1 ∷ 0 ∷ 0 ∷ 0x40 ∷ 0 ∷ []) ≡ 0x94dd }
    ensures four { check16 (0x23 ∷ 0x45 ∷ 0x67 ∷ 0x89 ∷ []) ≡ 0x1c0e }
    ensures none { check16 [] ≡ 0 }
{}

/// Whole packets: the three of a SETUP transaction that asks for a device's descriptor, and data of no bytes.
#[tactic(auto, unfolding(crate::specs::Checks::after_bits, crate::specs::Checks::after_bytes))]
pub fn whole_packets()
    ensures setup { token_bytes pids.Setup 0 0 ≡ 0x2d ∷ 0x00 ∷ 0x10 ∷ [] }
    ensures request { data_bytes pids.Data0 (0x80 ∷ 6 ∷ 0 ∷ 1 ∷ 0 ∷ 0 ∷ 0x40 ∷ 0 ∷ []) ≡ 0xc3 ∷ 0x80 ∷ 6 ∷ 0 ∷ 1 ∷ 0 ∷ 0 ∷ 0x40 ∷ 0 ∷ 0xdd ∷ 0x94 ∷ [] }
    ensures ack { handshake_bytes pids.Ack ≡ 0xd2 ∷ [] }
    ensures empty { data_bytes pids.Data1 [] ≡ 0x4b ∷ 0 ∷ 0 ∷ [] }
{}

/// The block of a packet of three bytes at high speed, 1,000 nanoseconds after the first, but for the packet itself.
pub fn blocks()
    ensures header { packet_header 0 1000 3
        ≡ 6 ∷ 0 ∷ 0 ∷ 0 ∷ 36 ∷ 0 ∷ 0 ∷ 0 ∷ 0 ∷ 0 ∷ 0 ∷ 0 ∷ 0 ∷ 0 ∷ 0 ∷ 0 ∷ 0xe8 ∷ 3 ∷ 0 ∷ 0 ∷ 3 ∷ 0 ∷ 0 ∷ 0 ∷ 3 ∷ 0 ∷ 0 ∷ 0 ∷ [] }
    ensures tail { packet_tail 3 ≡ 0 ∷ 36 ∷ 0 ∷ 0 ∷ 0 ∷ [] }
    ensures whole { packet_tail 4 ≡ 36 ∷ 0 ∷ 0 ∷ 0 ∷ [] }
{}
