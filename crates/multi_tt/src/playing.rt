ghost use Rattle.std.specs.Prelude.{◌≡◌, ◌≤◌, ℕ, map, true, Some, IfOk, IsTrue};
ghost use Rattle.std.specs.List.{list_all};
ghost use Rattle.usb_base.specs.declared.packets.Reply.TheVariants.{Silent as Silence};
ghost use Rattle.multi_tt.specs.Translators.{opening, opening_of, translator_at};
ghost use Rattle.multi_tt.specs.Calls.{hub_after, hub_played, only, played};
ghost use Rattle.multi_tt.specs.Played.{call_of, is_short};

use crate::translators::Translators;
use hub_keys::Key;
use std::alloc::Global;
use usb_base::{Ask, ListOf, Memory, Reply, Wire};

/// A call on the translators of a hub.
#[derive(Debug, Drop)]
pub enum TtCall {
    /// A start-split with its bytes, at most 1,024, which stuffed bits make longer by so many in 36.
    Start(Ask, ListOf<u8>, u8),
    /// A complete-split.
    Complete(Ask),
    /// The microframe with this frame index begins, over a bus below on which nobody answers.
    Silent(u16),
    /// ClearTTBuffer of a key at this port.
    Clear(u8, Key),
    /// ResetTT at this port.
    Reset(u8),
}

/// A bus below on which nobody answers.
#[derive(Drop)]
struct SilentBus;

impl Wire for SilentBus {
    ghost begins = { λ w frindex allowed v. allowed ≡ true };

    ghost transacts = { λ w ask out reply v. reply ≡ Silence };

    fn begin(&mut self, _frindex: u16) -> bool {
        true
    }

    fn transact(&mut self, _ask: &Ask, _out: &[u8], reply: &mut Reply) {
        *reply = Reply::Silent;
    }
}

/// A microframe in which nobody answers.
fn silent_microframe(translators: &mut Translators, frindex: u16)
    ensures { translators.new ≡ hub_after (call_of (TtCall.Silent frindex)) translators.old }
{
    let mut bus = SilentBus;
    translators.microframe(frindex, &mut bus);
}

fn make(translators: &mut Translators, call: &TtCall)
    requires { IsTrue (is_short call.now) }
    ensures { translators.new ≡ hub_after (call_of call.now) translators.old }
{
    match call {
        TtCall::Start(ask, bytes, stuff) => {
            translators.start(ask, bytes.as_slice(), *stuff);
        }
        TtCall::Complete(ask) => {
            translators.complete(ask);
        }
        TtCall::Silent(frindex) => silent_microframe(translators, *frindex),
        TtCall::Clear(port, key) => translators.clear(*port as u16, key),
        TtCall::Reset(port) => translators.reset(*port as u16),
    }
}

/// Makes these calls on the translators of a new hub that has one for each of its ports.
fn make_all(alloc: Global, ports: u8, calls: &[TtCall]) -> Result<Translators, Memory>
    requires { IsTrue (list_all is_short calls.now) }
    ensures { IfOk result (λ ts. ts ≡ hub_played (map call_of calls.now) (opening_of ports true)) }
{
    let mut translators = Translators::build(alloc, ports, true)?;
    for call in calls {
        make(&mut translators, call);
    }
    Ok(translators)
}

/// Makes these calls on the translators of a new hub that has one for each of its ports. The translator of a port is then as
/// one alone would be after those calls that name the port, and the microframes.
pub fn play(alloc: Global, ports: u8, calls: &[TtCall]) -> Result<Translators, Memory>
    requires { IsTrue (list_all is_short calls.now) }
    ensures all { IfOk result (λ ts. ts ≡ hub_played (map call_of calls.now) (opening_of ports true)) }
    ensures each { IfOk result (λ ts. (port : ℕ) → 1 ≤ port → port ≤ ports
        → translator_at port ts ≡ Some (played (only port (map call_of calls.now)) opening)) }
{
    make_all(alloc, ports, calls)
}
