ghost use Rattle.std.specs.Prelude.{◌≡◌, nat_eq, if◌then◌else◌};
ghost use Rattle.drv_chains.specs.declared.boundary.Boundary.TheVariants.{Since, Seen};
ghost use Rattle.drv_chains.specs.Boundary.{after_reading, is_seen};

/// What was read of the frame index since the last store that unlinked a member (EHCI 1.0, 2.3.4 and 4.6).
#[derive(Clone, Copy, Debug, PartialEq, Eq)]
pub enum Boundary {
    /// No reading came.
    Unread,
    /// All readings had this frame number.
    Since(u16),
    /// Two readings had different frame numbers: the controller has let the member go.
    Seen,
}

impl Boundary {
    /// One reading of FRINDEX more.
    pub fn read(&mut self, frindex: u16)
        ensures { self.new ≡ after_reading frindex self.old }
    {
        let frame = frindex / 8 % 2048;
        *self = match *self {
            Boundary::Unread => Boundary::Since(frame),
            Boundary::Since(first) => first_or_later(first, frame),
            Boundary::Seen => Boundary::Seen,
        };
    }

    /// Whether the member may be given back.
    pub fn is_seen(&self) -> bool
        ensures { result ≡ is_seen self.now }
    {
        matches!(self, Boundary::Seen)
    }
}

fn first_or_later(first: u16, frame: u16) -> Boundary
    ensures { result ≡ (if nat_eq frame first then Since first else Seen) }
{
    if frame == first {
        return Boundary::Since(first);
    }
    Boundary::Seen
}
