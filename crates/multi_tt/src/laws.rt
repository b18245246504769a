//! The laws, each a function whose contract is the law.
ghost use Rattle.multi_tt.specs.Laws.{PortsAreApart, WorksByCalls};

use usb_base::Wire;

/// After every list of calls on the translators of a hub that has one for each port, whatever is heard on the bus below: the
/// part of each port, and each answer for it, is that of a single translator after the calls that name this port and the
/// microframes. So no endpoint is answered otherwise because of another port.
pub fn ports_are_apart()
    ensures { PortsAreApart }
{}

/// Over any wire, the work of a microframe is the call `Works` with what was heard there: so the law speaks of every run of
/// translators.
pub fn the_work_is_a_call<W: Wire>()
    ensures { WorksByCalls W.transacts }
{}
