ghost use Rattle.std.specs.Prelude.{◌≡◌, ◌+◌, ◌%◌, ◌<◌, ◌^◌, Option};
ghost use Rattle.drv_chains.specs.Chains.{id_of};
ghost use Rattle.drv_periodic.specs.Periodic.{link_to, store_at, members_after};

use crate::work::{Store, Task, Work};
use drv_chains::{Member, Predecessor};
use drv_members::FrameMembers;
use drv_search::Search;

/// The name of a member: the link word that leads to it.
pub(crate) fn name_of(member: &Member) -> u32
    ensures { result ≡ id_of member.now }
{
    match member {
        Member::Once(descriptor) => descriptor.id,
        Member::Each(queue) => queue.id,
    }
}

/// The link word that leads to a member, or to the end.
pub(crate) fn link_word(member: Option<Member>) -> u32
    ensures { result ≡ link_to member }
{
    match member {
        Some(member) => name_of(&member),
        None => 1,
    }
}

/// The store of a value into a word.
pub(crate) fn store_of(list: u16, word: Predecessor, value: u32) -> Store
    ensures store { result ≡ store_at list word value }
    ensures aligned { result.at % 4 ≡ 0 }
{
    match word {
        Predecessor::Element(frame) => Store {
            block: list,
            at: 32 * list as u32 + 4 * frame as u32,
            value,
        },
        Predecessor::After(member) => {
            let block = name_of(&member) / 32;
            Store {
                block: (block % 65536) as u16,
                at: block * 32,
                value,
            }
        }
    }
}

/// One store more was made.
pub(crate) fn next_task(task: &Task, word: Predecessor, search: Search) -> Task
    requires { task.now.work.made + 1 < 2 ^ 32 }
    ensures { result ≡ record { work = record task.now.work { made = task.now.work.made + 1 }; value = task.now.value; word = word; search = search } }
{
    Task {
        work: Work {
            member: task.work.member,
            removes: task.work.removes,
            made: task.work.made + 1,
        },
        value: task.value,
        word,
        search,
    }
}

/// The last store was made: a member that left is out of the schedule.
pub(crate) fn finish<C>(members: &mut FrameMembers<C>, work: &Work)
    ensures { members.new ≡ members_after members.old work.now }
{
    if work.removes {
        members.remove(&work.member);
    }
}
