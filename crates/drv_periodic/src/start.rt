ghost use Rattle.std.specs.Prelude.{◌≡◌, ◌+◌, ◌≤◌, true, ◌∷◌, map};
ghost use Rattle.drv_chains.specs.Order.{frames};
ghost use Rattle.drv_chains.specs.declared.members.Member.TheVariants.{Once, Each};
ghost use Rattle.drv_chains.specs.Chains.{predecessors};
ghost use Rattle.drv_search.specs.Search.{words_left, word_of, IsSearch};
ghost use Rattle.drv_members.specs.Ranks.{is_queue};
ghost use Rattle.drv_members.specs.Members.{IsKept, IsMember, is_linked};

use bandwidth_steps::{CountedBy, Steps};
use drv_chains::{Descriptor, Member, Predecessor, QueueHead};
use drv_members::{FrameMembers, level_of};
use drv_search::{Found, Search};
use std::sync::ledger::Ledger;

/// The first word to store, and where the search goes on.
#[derive(Clone, Copy, Debug, PartialEq, Eq)]
pub(crate) struct FirstWord {
    pub(crate) word: Predecessor,
    pub(crate) search: Search,
}

/// The word that was found.
pub(crate) fn word_found<C>(members: &FrameMembers<C>, found: Found) -> Predecessor
    ensures { result ≡ word_of members.now.schedule found }
{
    match found {
        Found::Last(queue) => Predecessor::After(Member::Each(queue)),
        Found::Frame(frame) => members.word_in(frame),
    }
}

/// The words of a member that stands in the list.
pub(crate) fn start<L: Ledger, C: CountedBy<L>>(
    members: &FrameMembers<C>,
    member: &Member,
    reads: &mut Steps<L>,
) -> FirstWord
    requires member { IsMember member.now }
    requires linked { is_linked members.now.schedule member.now ≡ true }
    ensures words { predecessors members.now.schedule member.now (frames 10) ≡ result.word ∷ map (word_of members.now.schedule) (words_left members.now.schedule result.search) }
    ensures search { IsSearch result.search }
    ensures reads { reads.new ≤ reads.old + 11 }
{
    match *member {
        Member::Once(descriptor) => start_once(members, &descriptor),
        Member::Each(queue) => start_each(members, &queue, reads),
    }
}

/// The one word of a descriptor.
fn start_once<C>(members: &FrameMembers<C>, descriptor: &Descriptor) -> FirstWord
    requires frame { IsMember (Once descriptor.now) }
    requires linked { is_linked members.now.schedule (Once descriptor.now) ≡ true }
    ensures words { predecessors members.now.schedule (Once descriptor.now) (frames 10) ≡ result.word ∷ map (word_of members.now.schedule) (words_left members.now.schedule result.search) }
    ensures search { IsSearch result.search }
{
    FirstWord {
        word: members.word_ahead(descriptor),
        search: Search::nothing(),
    }
}

/// The words of a queue head: that of the one before it in its class, or those that a search below the class finds.
fn start_each<L: Ledger, C: CountedBy<L>>(
    members: &FrameMembers<C>,
    queue: &QueueHead,
    reads: &mut Steps<L>,
) -> FirstWord
    requires queue { is_queue queue.now ≡ true }
    requires linked { is_linked members.now.schedule (Each queue.now) ≡ true }
    ensures words { predecessors members.now.schedule (Each queue.now) (frames 10) ≡ result.word ∷ map (word_of members.now.schedule) (words_left members.now.schedule result.search) }
    ensures search { IsSearch result.search }
    ensures reads { reads.new ≤ reads.old + 11 }
{
    let level = level_of(queue);
    if let Some(before) = members.ahead_in_class(level, queue, reads) {
        return FirstWord {
            word: Predecessor::After(Member::Each(before)),
            search: Search::nothing(),
        };
    }
    let mut search = Search::below(level, queue.phase);
    match search.next(members, reads) {
        Some(found) => FirstWord {
            word: word_found(members, found),
            search,
        },
        None => FirstWord {
            word: Predecessor::Element(queue.phase),
            search,
        },
    }
}
