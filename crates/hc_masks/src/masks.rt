ghost use Rattle.std.specs.Prelude.{◌≡◌, ◌<◌, ◌≤◌, ◌^◌, not, ◌&&◌, ◌||◌};
ghost use Rattle.hc_masks.specs.Masks.{has as stands, is_after_first as after_first, is_first as first, is_last as last, lacks as lacking, with_bit};

/// The bit of a microframe.
fn bit_of(number: u8) -> u8
    requires { number < 8 }
    ensures { result ≡ 2 ^ number }
{
    match number {
        0 => 1,
        1 => 2,
        2 => 4,
        3 => 8,
        4 => 16,
        5 => 32,
        6 => 64,
        _ => 128,
    }
}

/// Whether a microframe stands in a mask.
pub fn has(mask: u8, number: u8) -> bool
    requires { number < 8 }
    ensures { result ≡ stands mask number }
{
    mask / bit_of(number) % 2 == 1
}

/// Whether a microframe before this one stands in a mask.
pub fn is_after_first(mask: u8, number: u8) -> bool
    requires { number < 8 }
    ensures { result ≡ after_first mask number }
{
    mask % bit_of(number) != 0
}

/// Whether a microframe is the first of a mask.
pub fn is_first(mask: u8, number: u8) -> bool
    requires { number < 8 }
    ensures { result ≡ first mask number }
{
    has(mask, number) && !is_after_first(mask, number)
}

/// Whether a microframe is the last of a mask.
pub fn is_last(mask: u8, number: u8) -> bool
    requires { number < 8 }
    ensures { result ≡ last mask number }
{
    mask / bit_of(number) == 1
}

/// Whether a microframe stands in a mask and isn't done, or that is so `before` it.
fn is_open(before: bool, mask: u8, done: u8, number: u8) -> bool
    requires { number < 8 }
    ensures { result ≡ (before || (stands mask number && not (stands done number))) }
{
    before || (has(mask, number) && !has(done, number))
}

/// Whether one of the microframes of a mask before this one isn't done.
pub fn lacks(mask: u8, done: u8, number: u8) -> bool
    requires { number ≤ 8 }
    ensures { result ≡ lacking mask done number }
{
    let mut open = false;
    for earlier in 0..number {
        open = is_open(open, mask, done, earlier);
    }
    open
}

/// What is done, with this microframe.
#[tactic(auto, using(crate::proofs::Room::room_for_bit))]
pub fn with(done: u8, number: u8) -> u8
    requires { number < 8 }
    ensures { result ≡ with_bit done number }
{
    if has(done, number) {
        return done;
    }
    done + bit_of(number)
}
