ghost use Rattle.std.specs.Prelude.{◌≡◌, ◌<◌};
ghost use Rattle.hc_interrupt.specs.Turns.{microframe_of, tag_of};

/// The microframe of its frame that FRINDEX tells: bits 2 to 0 (EHCI 1.0, 2.3.4).
pub fn microframe(frindex: u16) -> u8
    ensures value { result ≡ microframe_of frindex }
    ensures bound { result < 8 }
{
    (frindex % 8) as u8
}

/// The frame that FRINDEX tells, as a frame tag does: bits 7 to 3 (EHCI 1.0, 3.6.3).
pub fn frame_tag(frindex: u16) -> u8
    ensures value { result ≡ tag_of frindex }
    ensures bound { result < 32 }
{
    (frindex / 8 % 32) as u8
}
