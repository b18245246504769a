ghost use Rattle.std.specs.Prelude.{◌≡◌};
ghost use Rattle.hc_copy.specs.Visits.{next_pointer, visit_of};

use crate::held::Visit;
use link_words::{QtdLink, ShortLink};
use qh_qtd::Qh;

/// The pointer that a queue head whose overlay is done follows: the alternate one where bytes remain and it leads somewhere, else the
/// next (EHCI 1.0, 4.10.2).
pub fn pointer(queue_head: &Qh) -> ShortLink
    ensures { result ≡ next_pointer queue_head.now }
{
    if queue_head.token.total != 0 && !queue_head.alternate.t {
        queue_head.alternate
    } else {
        queue_head.next
    }
}

/// What there is to do at a queue head, of which its schedule tells whether it `may` work now (EHCI 1.0, 4.10).
pub fn visit(queue_head: &Qh, may: bool) -> Visit
    ensures { result ≡ visit_of may queue_head.now }
{
    if !may {
        return Visit::Rest;
    }
    if queue_head.token.halted {
        return Visit::Rest;
    }
    if queue_head.token.active {
        return Visit::Work;
    }
    Visit::Take(QtdLink::from(pointer(queue_head)))
}
