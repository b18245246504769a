ghost use Rattle.std.specs.Prelude.{◌≡◌, Some, None, true, false};
ghost use Rattle.async_walk.specs.Parts.{walk_from};
ghost use Rattle.periodic_walk.specs.Parts.{walk_from as frame_from};
ghost use Rattle.hc_core.specs.Parts.{of_parts};

use crate::controller::{Controller, MicroframePart};
use async_walk::{AsyncState, RingParts};
use periodic_walk::{FrameParts, PeriodicState};
use usb_base::Reply;

impl Controller {
    /// Where in the microframe the controller is.
    pub fn part(&self) -> MicroframePart
        ensures { result ≡ self.now.part }
    {
        self.part
    }

    /// The walk of the frame's chain.
    pub fn frame(&self) -> &PeriodicState
        ensures { result.now ≡ self.now.frame }
    {
        &self.frame
    }

    /// The walk of the ring.
    pub fn walk(&self) -> &AsyncState
        ensures { result.now ≡ self.now.walk }
    {
        &self.walk
    }

    /// The controller that has these parts. So none but these are a controller's.
    pub fn from_parts(part: MicroframePart, frame: PeriodicState, walk: AsyncState) -> Controller
        ensures { result ≡ of_parts part frame walk }
    {
        Controller { part, frame, walk }
    }

    /// Is in this part of the microframe from here on.
    pub fn set_part(&mut self, part: MicroframePart)
        ensures { self.new ≡ record self.old { part = part } }
    {
        self.part = part;
    }

    /// Takes these parts of the walk of the frame's chain in place; false, and nothing changes, where no walk has them.
    pub fn load_frame(&mut self, parts: &FrameParts, reply: &Reply, got: &[u8]) -> bool
        ensures loaded { result ≡ true → frame_from parts.now reply.now got.now ≡ Some self.new.frame }
        ensures refused { result ≡ false → frame_from parts.now reply.now got.now ≡ None }
        ensures same { self.new ≡ record self.old { frame = self.new.frame } }
        ensures stays { result ≡ false → self.new ≡ self.old }
    {
        self.frame.load(parts, reply, got)
    }

    /// Takes these parts of the walk of the ring in place; false, and nothing changes, where no walk has them.
    pub fn load_walk(&mut self, parts: &RingParts, reply: &Reply) -> bool
        ensures loaded { result ≡ true → walk_from parts.now reply.now ≡ Some self.new.walk }
        ensures refused { result ≡ false → walk_from parts.now reply.now ≡ None }
        ensures same { self.new ≡ record self.old { walk = self.new.walk } }
        ensures stays { result ≡ false → self.new ≡ self.old }
    {
        self.walk.load(parts, reply)
    }
}
