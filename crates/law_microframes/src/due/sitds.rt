//! The transactions of split isochronous transfer descriptors (EHCI 1.0, 3.4 and 4.12.3).
ghost use Rattle.law_microframes.specs.due.sitds.SitdLaws.{TextsServeSitds};

/// Once the walk of the frames is over, each siTD that it fetched with a transaction to come in the microframe had it, one for one: an OUT
/// its part, an IN its start-split or its complete-split.
pub fn texts_serve_sitds()
    ensures { TextsServeSitds }
{}
