//! What one transaction of a queue head leaves of the host's side of its transfer (EHCI 1.0, 3.5.3, 4.10.3 to 4.12 and 4.15; USB 2.0, 8.5 and 8.6): how many
//! bytes are left, which toggle comes next, how many errors, and whether it goes on. `a_transaction_settles` says it of each token, plain or split, whatever is
//! heard.
ghost use Rattle.std.specs.Prelude.{◌≡◌, ℕ, Bool, List, length};
ghost use Rattle.usb_base.specs.declared.packets.EpKind.{EpKind};
ghost use Rattle.usb_base.specs.declared.packets.Reply.{Reply};
ghost use Rattle.qh_qtd.specs.declared.queue_head.Qh.{Qh};
ghost use Rattle.hc_copy.specs.Planning.{transaction_of};
ghost use Rattle.law_structures.specs.lent_structures.Settles.{Settles};

/// A transaction of a queue head that sends as many bytes as are planned settles, whatever is heard.
pub fn a_transaction_settles()
    ensures { (kind : EpKind) (q : Qh) (out : List ℕ) (last : Bool) (reply : Reply) → length out ≡ (transaction_of kind q).bytes → Settles kind q out last reply }
{}
