//! Worked values of the definitions, which the check computes.
ghost use Rattle.std.specs.Prelude.{◌≡◌, ◌∷◌, [], Bool, true, false, ℕ, ◌+◌, ◌*◌, ◌/◌, ◌<◌, ◌≤◌, replicate};
ghost use Rattle.usb_base.specs.Cost.{bus_time, byte_times};
ghost use Rattle.usb_base.specs.Limits.{microframe_time, microframe_budget, frame_budget, byte_times_of_microframe, frame_list_length, longest_qtd, most_memory};
ghost use Rattle.usb_base.specs.Outside.{one_more, Rose};
ghost use Rattle.usb_base.specs.Acknowledgement.{acknowledges};
ghost use Rattle.usb_base.specs.declared.packets.Ask.{Ask as Asked};

use crate::packets::{DataPart, Dir, EpKind, Pid, Reply, Speed, Split};

/// Bus times in picoseconds.
pub fn prices()
    ensures high_none { bus_time Speed.High EpKind.Bulk Dir.In 0 ≡ 927769 }
    ensures high_512 { bus_time Speed.High EpKind.Bulk Dir.In 512 ≡ 10880343 }
    ensures high_64 { bus_time Speed.High EpKind.Interrupt Dir.Out 64 ≡ 2171320 }
    ensures high_1024 { bus_time Speed.High EpKind.Interrupt Dir.In 1024 ≡ 20835000 }
    ensures high_iso_1024 { bus_time Speed.High EpKind.Iso Dir.In 1024 ≡ 20551712 }
    ensures full_64 { bus_time Speed.Full EpKind.Interrupt Dir.In 64 ≡ 60231000 }
    ensures full_iso_in_931 { bus_time Speed.Full EpKind.Iso Dir.In 931 ≡ 734397680 }
    ensures full_iso_out_1023 { bus_time Speed.Full EpKind.Iso Dir.Out 1023 ≡ 805155540 }
    ensures low_in_8 { bus_time Speed.Low EpKind.Interrupt Dir.In 8 ≡ 117829590 }
    ensures low_out_8 { bus_time Speed.Low EpKind.Interrupt Dir.Out 8 ≡ 117132000 }
{}

/// Byte-times below a translator.
pub fn byte_times_of_packets()
    ensures full_64 { byte_times Speed.Full EpKind.Interrupt 64 ≡ 77 }
    ensures full_1025 { byte_times Speed.Full EpKind.Bulk 1025 ≡ 1038 }
    ensures full_8 { byte_times Speed.Full EpKind.Interrupt 8 ≡ 21 }
    ensures full_iso_931 { byte_times Speed.Full EpKind.Iso 931 ≡ 940 }
    ensures low_8 { byte_times Speed.Low EpKind.Interrupt 8 ≡ 168 }
{}

/// The numbers that several crates name, as the standards give them: 80 of 100 of a microframe and 90 of 100 of a frame of
/// eight; 12 bits a microsecond at full speed, in whole bytes; pages of 4,096 bytes.
pub fn limits()
    ensures microframe { microframe_budget ≡ 80 * microframe_time / 100 }
    ensures frame { frame_budget ≡ 90 * (8 * microframe_time) / 100 }
    ensures byte_times { byte_times_of_microframe ≡ (12 * 125 + 7) / 8 }
    ensures list { 4 * frame_list_length ≡ 4096 }
    ensures qtd { longest_qtd ≡ 5 * 4096 }
    ensures memory { 4 * most_memory ≡ 256 * 4096 }
{}

/// Which answers to an IN of device 3 are acknowledged, where DATA1 with at most two bytes is expected.
pub fn acknowledged()
    ensures fits { let ask : Asked = record { split = Split.Plain; pid = Pid.In; addr = 3; ep = 1; speed = Speed.High; kind = EpKind.Bulk; toggle = Pid.Data1; limit = 2 } in
        (acknowledges ask (Reply.Bytes Pid.Data1 (7 ∷ 8 ∷ [])) ≡ true)
        × (acknowledges ask (Reply.Bytes Pid.Data1 (7 ∷ 8 ∷ 9 ∷ [])) ≡ false)
        × (acknowledges ask (Reply.Bytes Pid.Data1 []) ≡ true)
        × (acknowledges ask (Reply.Bytes Pid.Data0 (7 ∷ 8 ∷ 9 ∷ [])) ≡ true)
        × (acknowledges ask (Reply.Bytes Pid.Mdata (7 ∷ 8 ∷ 9 ∷ [])) ≡ true)
        × (acknowledges ask (Reply.Hand Pid.Nak) ≡ false)
        × (acknowledges ask Reply.Silent ≡ false)
        × (acknowledges (record ask { kind = EpKind.Iso }) (Reply.Bytes Pid.Data1 (7 ∷ [])) ≡ false)
        × (acknowledges (record ask { split = Split.Complete 9 1 }) (Reply.Bytes Pid.Data1 (7 ∷ [])) ≡ false)
        × (acknowledges (record ask { split = Split.Start 9 1 DataPart.All }) (Reply.Bytes Pid.Data1 (7 ∷ [])) ≡ false)
        × (acknowledges (record ask { pid = Pid.Out }) (Reply.Bytes Pid.Data1 (7 ∷ [])) ≡ false) }
{}

/// The count of faults after one more.
#[tactic(auto, using(crate::proofs::Known::rose_by_one))]
pub fn faults_counted()
    ensures first { one_more 0 ≡ 1 }
    ensures last { one_more 18446744073709551615 ≡ 18446744073709551615 }
    ensures rose { (n : ℕ) → Rose n (one_more n) }
{}
