//! The streams of the IN endpoints of a world (EHCI 1.0, 4.6, 4.8 and 4.10; USB 2.0, 8.6): each event of the controller leaves both sides of each pipe agreed
//! and what is reported right, so that at any moment the bytes reported of an endpoint begin the stream that its device was given.
ghost use Rattle.std.specs.Prelude.{◌≡◌, ℕ, Bool, true};
ghost use Rattle.std.specs.List.{concat};
ghost use Rattle.claims_base.specs.Prefix.{IsPrefix};
ghost use Rattle.bus_wire.specs.Bus.{Fixed};
ghost use Rattle.claims_base.specs.Controller.{Base};
ghost use Rattle.bus_world.specs.World.{World, controller_next};
ghost use Rattle.law_world.specs.steps.Streaming.{Streams, Standing, IsStreaming, HearsBytesNow, StaysStreaming};

/// Each event of the controller leaves the streams so.
pub fn the_controller_leaves_the_streams()
    ensures { (fixed : Fixed) (base : Base) (member : ℕ → Bool) (x : Streams) (s : Standing) (w : World) → HearsBytesNow fixed w → IsStreaming fixed base member x s w
        → StaysStreaming fixed base member x s (controller_next fixed w) }
{}

/// The bytes reported of an endpoint begin its stream.
pub fn what_is_reported_begins_the_stream()
    ensures { (fixed : Fixed) (base : Base) (member : ℕ → Bool) (x : Streams) (s : Standing) (w : World) (n : ℕ) → IsStreaming fixed base member x s w → x.streams n ≡ true
        → IsPrefix (s.reported n) (concat (x.packets (x.endpoint n).addr (x.endpoint n).ep)) }
{}
