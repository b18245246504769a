ghost use Rattle.std.specs.Prelude.{◌≡◌, ℕ, ◌==◌, IfOk, List};
ghost use Rattle.std.specs.List.{list_any};
ghost use Rattle.std.specs.List.Sorted.{IsPermutation, IsNonDecreasing};
ghost use Rattle.bus_wire.specs.Fates.{is_bad, is_same_way, is_same_name, is_against, bad_numbers};

use script_types::FateText;
use std::alloc::Global;
use std::marker::Model;
use usb_base::{EpName, Fate, Memory, Way};

/// The numbers of the packets of one endpoint on one bus that are lost or damaged.
#[derive(Debug, Drop)]
pub struct Numbers {
    rising: Vec<u64>,
}

impl Model for Numbers {
    ghost Value = { List ℕ };

    ghost view = { λ n. n.rising.items };

    ghost invariant = { λ n. IsNonDecreasing n.rising.items };
}

fn are_same_ways(a: Way, b: Way) -> bool
    ensures { result ≡ is_same_way a b }
{
    match (a, b) {
        (Way::In, Way::In) | (Way::Out, Way::Out) | (Way::Ctl, Way::Ctl) => true,
        _ => false,
    }
}

/// Whether two names are the same.
pub fn are_same_names(a: &EpName, b: &EpName) -> bool
    ensures { result ≡ is_same_name a.now b.now }
{
    a.addr.get() == b.addr.get() && a.num.get() == b.num.get() && are_same_ways(a.way, b.way)
}

fn is_lost(fate: Fate) -> bool
    ensures { result ≡ is_bad fate }
{
    match fate {
        Fate::Good => false,
        Fate::Lost | Fate::Damaged => true,
    }
}

fn speaks_against(fate: &FateText, name: &EpName, below: bool) -> bool
    ensures { result ≡ is_against name.now below fate.now }
{
    fate.down == below && is_lost(fate.fate) && are_same_names(&fate.name, name)
}

fn numbers_against(
    alloc: Global,
    fates: &[FateText],
    name: &EpName,
    below: bool,
) -> Result<Vec<u64>, Memory>
    ensures { IfOk result (λ v. v.items ≡ bad_numbers fates.now name.now below) }
{
    let mut numbers = Vec::new(alloc);
    for fate in fates {
        if speaks_against(fate, name, below) && numbers.push(fate.k as u64).is_err() {
            return Err(Memory);
        }
    }
    Ok(numbers)
}

impl Numbers {
    /// The numbers of the packets of the endpoint that the fates speak against, on the bus below a translator or on the high-speed bus.
    pub fn of(
        alloc: Global,
        fates: &[FateText],
        name: &EpName,
        below: bool,
    ) -> Result<Numbers, Memory>
        ensures { IfOk result (λ n. IsPermutation (bad_numbers fates.now name.now below) n) }
    {
        let mut rising = numbers_against(alloc, fates, name, below)?;
        rising.sort()?;
        Ok(Numbers { rising })
    }

    /// Whether the packet with this number is among them.
    pub fn has(&self, k: u64) -> bool
        ensures { result ≡ list_any (λ n. n == k) self.now }
    {
        self.rising.binary_search(&k).is_ok()
    }
}
