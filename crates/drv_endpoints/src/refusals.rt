//! Which commands an endpoint takes.
ghost use Rattle.std.specs.Prelude.{◌≡◌, ℕ, ◌≤◌, ◌<◌, Some, None, Err, IfSome, IfNone};
ghost use Rattle.usb_base.specs.Limits.{longest_qtd};
ghost use Rattle.word_mem.specs.Memory.{Mem};
ghost use Rattle.drv_table.specs.DriverContent.{DriverContent};
ghost use Rattle.drv_table.specs.Kinds.{is_iso};
ghost use Rattle.drv_table.specs.Offers.{Asked, open_transfer, offered_open, takes_get, takes_put, is_queued};
ghost use Rattle.drv_table.specs.CancelOffers.{first_end};

use crate::names::goes_same_way;
use drv_table::Endpoint;
use usb_base::limits::LONGEST_QTD;
use usb_base::{EndCause, EpDesc, EpKind, OfferError, Way};

/// Why an endpoint isn't opened again.
pub fn not_again(endpoint: &Endpoint) -> OfferError
    ensures { (d : DriverContent) (m : Mem) (x : EpDesc) → offered_open d m x (Some endpoint.now) ≡ Err result }
{
    match endpoint.ended {
        Some(cause) => OfferError::Closed(cause),
        None => OfferError::AlreadyOpen,
    }
}

/// Why an endpoint that is cancelled ended first.
pub fn or_cancel(ended: Option<EndCause>) -> Option<EndCause>
    ensures { result ≡ first_end ended }
{
    match ended {
        Some(cause) => Some(cause),
        None => Some(EndCause::Cancel),
    }
}

/// Why this endpoint takes no transfer of `most` bytes: it has ended, or there are more than 20,480.
pub fn refusal(endpoint: &Endpoint, most: usize) -> Option<OfferError>
    ensures some { IfSome result (λ why. (d : DriverContent) (m : Mem) (e : ℕ) (a : Asked) → a.most ≡ most → open_transfer d m e endpoint.now a endpoint.now.ended ≡ Err why) }
    ensures going { IfNone result (endpoint.now.ended ≡ None) }
    ensures short { IfNone result (most ≤ longest_qtd) }
{
    match endpoint.ended {
        Some(cause) => Some(OfferError::Closed(cause)),
        None => if_long(most),
    }
}

/// Whether there are more than 20,480 bytes.
fn if_long(most: usize) -> Option<OfferError>
    ensures some { IfSome result (λ why. (why ≡ OfferError.TooLong) × (longest_qtd < most)) }
    ensures short { IfNone result (most ≤ longest_qtd) }
{
    if most > LONGEST_QTD as usize {
        return Some(OfferError::TooLong);
    }
    None
}

/// Whether a get is for this endpoint.
pub fn can_get(endpoint: &Endpoint) -> bool
    ensures { result ≡ takes_get endpoint.now }
{
    is_of_queue(endpoint.desc.kind) && goes_same_way(endpoint.desc.name.way, Way::In)
}

/// Whether a put is for this endpoint.
pub fn can_put(endpoint: &Endpoint) -> bool
    ensures { result ≡ takes_put endpoint.now }
{
    is_of_queue(endpoint.desc.kind) && goes_same_way(endpoint.desc.name.way, Way::Out)
}

/// Whether its transfers stand in a queue and have no setup stage.
fn is_of_queue(kind: EpKind) -> bool
    ensures { result ≡ is_queued kind }
{
    match kind {
        EpKind::Bulk | EpKind::Interrupt => true,
        EpKind::Control | EpKind::Iso => false,
    }
}

/// Whether its place in the frame list has descriptors, and no queue head.
pub fn is_isochronous(kind: EpKind) -> bool
    ensures { result ≡ is_iso kind }
{
    match kind {
        EpKind::Iso => true,
        EpKind::Bulk | EpKind::Interrupt | EpKind::Control => false,
    }
}
