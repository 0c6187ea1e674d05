//! Waiting requests by priority, along chains.

ghost use Rattle.std.specs.Prelude.{◌≡◌, ◌<◌, ◌++◌, ◌∷◌, [], length, slice_get, Some, OnOk, IfSome};
ghost use Rattle.grant_machine_parts.specs.Ranks.{Ranked, of_priority, by_priority};
ghost use Rattle.grant_machine_parts.specs.Chains.{AreChains};

use crate::waiting::Ranked;
use std::alloc::AllocError;

/// So many priorities there are.
const PRIORITIES: usize = 8;

/// So many requests can stand in chains.
const MOST_CHAINED: usize = 255;

/// Chains through at most 255 requests, one for each priority, by arrival: the number, from 1, of the first request of
/// each priority, and behind each request that of the next one of its priority; 0 where there is none.
#[derive(Clone, Copy)]
pub(crate) struct Chains {
    pub(crate) firsts: [u8; PRIORITIES],
    pub(crate) nexts: [u8; MOST_CHAINED],
}

/// The priority of the request at a place.
fn priority_at(ranked: &[Ranked], place: usize) -> usize
    requires { place < length ranked.now }
    ensures { (r : Ranked) → slice_get ranked.now place ≡ Some r → result ≡ r.priority }
{
    usize::from(ranked[place].priority)
}

/// Adds the request at a place.
fn add_at(ordered: &mut Vec<Ranked>, ranked: &[Ranked], place: usize) -> Result<(), AllocError>
    requires { place < length ranked.now }
    ensures { OnOk result ((r : Ranked) → slice_get ranked.now place ≡ Some r → ordered.new.items ≡ ordered.old.items ++ r ∷ []) }
{
    ordered.push(ranked[place])?;
    Ok(())
}

impl Chains {
    /// The chains through these requests, unless they are too many.
    fn of(ranked: &[Ranked]) -> Option<Chains>
        ensures { IfSome result (λ chains. AreChains chains ranked.now) }
    {
        let mut i = ranked.len();
        if i > MOST_CHAINED {
            return None;
        }
        let mut firsts = [0u8; PRIORITIES];
        let mut nexts = [0u8; MOST_CHAINED];
        while i > 0 {
            i -= 1;
            let priority = priority_at(ranked, i);
            if priority < PRIORITIES {
                nexts[i] = firsts[priority];
                firsts[priority] = i as u8 + 1;
            }
        }
        Some(Chains { firsts, nexts })
    }

    /// Adds the requests of a priority, by arrival.
    fn add(
        &self,
        ordered: &mut Vec<Ranked>,
        ranked: &[Ranked],
        priority: u8,
    ) -> Result<(), AllocError>
        requires chains { AreChains self.now ranked.now }
        requires known { priority < 8 }
        ensures { OnOk result (ordered.new.items ≡ ordered.old.items ++ of_priority ranked.now priority) }
    {
        let mut number = usize::from(self.firsts[usize::from(priority)]);
        while number > 0 {
            let place = number - 1;
            add_at(ordered, ranked, place)?;
            number = usize::from(self.nexts[place]);
        }
        Ok(())
    }
}

/// Adds the requests of a priority, by arrival, with a look at each of all.
fn add_of_all(ordered: &mut Vec<Ranked>, ranked: &[Ranked], priority: u8) -> Result<(), AllocError>
    ensures { OnOk result (ordered.new.items ≡ ordered.old.items ++ of_priority ranked.now priority) }
{
    for one in ranked {
        if one.priority == priority {
            ordered.push(*one)?;
        }
    }
    Ok(())
}

/// Adds the requests of a priority, by arrival, along its chain where there are chains.
fn add_priority(
    ordered: &mut Vec<Ranked>,
    ranked: &[Ranked],
    chains: &Option<Chains>,
    priority: u8,
) -> Result<(), AllocError>
    requires { IfSome chains.now (λ chains. AreChains chains ranked.now) }
    ensures { OnOk result (ordered.new.items ≡ ordered.old.items ++ of_priority ranked.now priority) }
{
    if usize::from(priority) < PRIORITIES {
        if let Some(chains) = chains {
            return chains.add(ordered, ranked, priority);
        }
    }
    add_of_all(ordered, ranked, priority)
}

/// Puts the waiting requests by priority, greater first, and then by arrival, over what is there.
pub fn by_priority(ordered: &mut Vec<Ranked>, ranked: &[Ranked]) -> Result<(), AllocError>
    ensures { OnOk result (ordered.new.items ≡ by_priority ranked.now) }
{
    ordered.clear();
    if ranked.is_empty() {
        return Ok(());
    }
    let chains = Chains::of(ranked);
    for priority in [7, 6, 5, 4, 3, 2, 1, 0] {
        add_priority(ordered, ranked, &chains, priority)?;
    }
    Ok(())
}
