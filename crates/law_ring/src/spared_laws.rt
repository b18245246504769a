//! Steps of a driver that spare what is told of a ring's endpoints (EHCI 1.0, 4.8 and 4.10): where the overlays of queue heads, the published qTDs and their
//! buffers stay, so do the bytes moved, the toggles, both sides of each pipe and what is still to be harvested; a qTD that is published has no bytes yet.
ghost use Rattle.law_ring.specs.SparedLaws.{LinkedHandIsSame, StaleHandIsSame, SparedIsTold, SparedHasToggle, PipesAreSpared, AccountsAreSpared, PublishedAddsNothing};
ghost use Rattle.std.specs.Prelude.{ℕ, Option};
ghost use Rattle.law_ring.specs.Bus.{Sender};

use usb_base::Wire;

/// What is in hand tells the same once a link was stored, and once a halted queue head was mended.
pub fn stores_leave_the_hand()
    ensures linked { LinkedHandIsSame }
    ensures stale { StaleHandIsSame }
{}

/// What is spared is told as before.
pub fn what_is_spared_is_told()
    ensures bytes { SparedIsTold }
    ensures toggle { SparedHasToggle }
{}

/// Both sides of each pipe agree as before.
pub fn spared_pipes_agree<W: Wire>()
    ensures { (sender : W → ℕ → ℕ → Option Sender) → PipesAreSpared sender }
{}

/// What is still to be harvested stays, and a qTD that is published is its last.
pub fn what_is_published_is_accounted_for()
    ensures spared { AccountsAreSpared }
    ensures published { PublishedAddsNothing }
{}
