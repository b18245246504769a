ghost use Rattle.std.specs.Prelude.{◌≡◌, ℕ, ◌≤◌, ◌↔◌, IsSome, IfSome};

use std::marker::Model;

/// A device address, 0 to 127 (USB 2.0, 8.3.2.1). A contract sees the number.
#[derive(Clone, Copy, Debug, PartialEq, Eq, PartialOrd, Ord, Hash)]
pub struct DevAddr {
    number: u8,
}

impl Model for DevAddr {
    ghost Value = { ℕ };

    ghost view = { λ a. a.number };

    ghost invariant = { λ a. a.number ≤ 127 };

    ghost inverse = { λ n. record { number = n } };
}

impl DevAddr {
    /// The default address, 0 (USB 2.0, 9.1.1.4).
    pub fn zero() -> DevAddr
        ensures { result ≡ 0 }
    {
        DevAddr { number: 0 }
    }

    /// The address `n`; `None` exactly above 127.
    pub fn new(n: u8) -> Option<DevAddr>
        ensures valid { IsSome result ↔ (n ≤ 127) }
        ensures value { IfSome result (λ a. a ≡ n) }
    {
        if n <= 127 {
            Some(DevAddr { number: n })
        } else {
            None
        }
    }

    /// The number of the address, 0 to 127.
    pub fn get(&self) -> u8
        ensures same { result ≡ self.now }
        ensures bound { self.now ≤ 127 }
    {
        self.number
    }
}

/// An endpoint number, 0 to 15 (USB 2.0, 8.3.2.2). A contract sees the number.
#[derive(Clone, Copy, Debug, PartialEq, Eq, PartialOrd, Ord, Hash)]
pub struct EpNum {
    number: u8,
}

impl Model for EpNum {
    ghost Value = { ℕ };

    ghost view = { λ a. a.number };

    ghost invariant = { λ a. a.number ≤ 15 };

    ghost inverse = { λ n. record { number = n } };
}

impl EpNum {
    /// The number of the default control pipe, 0 (USB 2.0, 5.5.1).
    pub fn zero() -> EpNum
        ensures { result ≡ 0 }
    {
        EpNum { number: 0 }
    }

    /// The endpoint number `n`; `None` exactly above 15.
    pub fn new(n: u8) -> Option<EpNum>
        ensures valid { IsSome result ↔ (n ≤ 15) }
        ensures value { IfSome result (λ a. a ≡ n) }
    {
        if n <= 15 {
            Some(EpNum { number: n })
        } else {
            None
        }
    }

    /// The endpoint number, 0 to 15.
    pub fn get(&self) -> u8
        ensures same { result ≡ self.now }
        ensures bound { self.now ≤ 15 }
    {
        self.number
    }
}

/// A time in picoseconds. A microframe of 125 microseconds is 125,000,000 of them.
#[derive(Clone, Copy, Debug, PartialEq, Eq, PartialOrd, Ord, Hash)]
pub struct Ps(pub u64);
