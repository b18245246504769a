//! Worked values of the definitions, which the check computes.
ghost use Rattle.std.specs.Prelude.{◌≡◌, [], ◌∷◌, Some, None};
ghost use Rattle.usb_base.specs.declared.packets.Reply.{Reply as Heard};
ghost use Rattle.op_registers.specs.RegisterFile.{reset_file};
ghost use Rattle.hc_microframe.specs.State.{shown, file_of, cursor_after_write};
ghost use Rattle.hc_microframe.specs.Answers.{answer_in};
ghost use Rattle.hc_microframe.specs.Microframe.{cursor_after};
ghost use Rattle.hc_microframe.specs.Samples.{state, commanded, answer, three_bytes};

use usb_base::Pid;

/// A reset controller's words; a state whose words have bits that no register holds, which are left out; one whose USBCMD resets.
pub fn states()
    ensures reset { shown reset_file 0 ≡ state 0x00080000 0x1000 0 0 0 0 0 0 }
    ensures opened { let file = file_of (state 0x00080031 0x2021 0xff 0xffff 0x2001 0x1042 3 0x1080) in
        shown file 0 ≡ state 0x00080031 0xe021 0x3f 0x3fff 0x2000 0x1040 1 0 }
    ensures resets { file_of (state 0x00080033 0x2021 0x3f 5 0x2000 0x1040 1 0) ≡ reset_file }
{}

/// Where the ring is gone on with: after a write of ASYNCLISTADDR, a reset, another write; after a microframe whose time ran out at 1080h,
/// one whose ring was quiet, one that didn't walk the ring, and one that ended in a host system error.
pub fn cursors()
    ensures ring { cursor_after_write 0x1080 0x18 0x1000 ≡ 0 }
    ensures reset { cursor_after_write 0x1080 0x00 0x00080002 ≡ 0 }
    ensures other { cursor_after_write 0x1080 0x00 0x00080031 ≡ 0x1080 }
    ensures late { cursor_after 0x1040 (Some 0x1080) (file_of (commanded 0x21)) ≡ 0x1080 }
    ensures quiet { cursor_after 0x1040 None (file_of (commanded 0x21)) ≡ 0 }
    ensures unwalked { cursor_after 0x1040 None (file_of (commanded 0x11)) ≡ 0x1040 }
    ensures failed { cursor_after 0x1040 (Some 0x1080) (file_of (commanded 0x20)) ≡ 0 }
{}

/// A handshake, data that are whole, data that aren't, an identifier that no packet has, and an answer of another kind.
pub fn answers()
    ensures nak { answer_in [] (answer 1 0xa 0 0) ≡ Heard.Hand Pid.Nak }
    ensures whole { answer_in three_bytes (answer 2 0xb 2 1) ≡ Heard.Bytes Pid.Data1 (8 ∷ 9 ∷ []) }
    ensures broken { answer_in three_bytes (answer 2 0xb 3 1) ≡ Heard.Silent }
    ensures unnamed { answer_in [] (answer 1 0 0 0) ≡ Heard.Silent }
    ensures none { answer_in [] (answer 0 0xa 0 0) ≡ Heard.Silent }
{}
