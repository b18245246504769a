ghost use Rattle.std.specs.Prelude.{◌≡◌, ℕ, false, List, Option, Some};
ghost use Rattle.usb_base.specs.declared.packets.Reply.{Reply as Answer};
ghost use Rattle.qh_qtd.specs.declared.queue_head.Qh.{Qh};
ghost use Rattle.hc_copy.specs.Transacting.{call_in};
ghost use Rattle.async_walk.specs.Naks.{planned};
ghost use Rattle.claims_report.specs.Requests.{Request};
ghost use Rattle.law_request.specs.Host.{Endpoint, is_over};
ghost use Rattle.law_request.specs.Line.{Line};
ghost use Rattle.claims_report.specs.ControlSides.{Device};
ghost use Rattle.law_devices.specs.request_calls.Bus.{device_of, IsControlBus};
ghost use Rattle.law_devices.specs.request_calls.Stages.{WorksOn, AreGiven, IsTransaction};

use usb_base::Wire;

/// A queue head that works on the stage of a request that isn't over makes one transaction of the request: what its copy is left with is the host's
/// side of the request after it, and the device is left so.
pub fn a_transaction_is_one_of_the_request<W: Wire>()
    ensures { (device : W → ℕ → ℕ → Option Device) (e : Endpoint) (r : Request) (q : Qh) (l : Line) (source out : List ℕ) (wire : W) (reply : Answer) (after : W)
        → IsControlBus W.transacts device → WorksOn e r q l.host → AreGiven r q l.host source out → is_over l.host.stage ≡ false
        → device wire e.addr e.num ≡ Some (device_of e l.device) → W.transacts wire (call_in (planned q) out false).ask (call_in (planned q) out false).out reply after
        → IsTransaction e r q source out reply l (device after e.addr e.num) }
{}
