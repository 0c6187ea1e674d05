//! How often there was something under a key, and with how many minislots.

ghost use Rattle.std.specs.Prelude.{◌≡◌, ℕ, IfSome, OnOk};
ghost use Rattle.std.specs.Ordering.{nat_cmp};
ghost use Rattle.std.specs.BTreeMap.{get};
ghost use Rattle.map_stats.specs.Tallies.{more, tally_step};

use std::alloc::AllocError;
use std::collections::BTreeMap;

/// How many, and how many minislots they have together.
#[derive(Clone, Copy)]
pub struct Tally {
    pub count: u64,
    pub minislots: u64,
}

/// Tallies by key.
pub type Tallies = BTreeMap<u32, Tally>;

/// Those of the uses of SIDs, by longer keys.
pub type SidTallies = BTreeMap<u128, Tally>;

/// With one of so many minislots more, unless a number would pass 2^64 - 1.
fn more(tally: Option<Tally>, minislots: u16) -> Option<Tally>
    ensures { IfSome result (λ now. now ≡ more tally minislots) }
{
    let had = match tally {
        Some(had) => had,
        None => Tally {
            count: 0,
            minislots: 0,
        },
    };
    let count = had.count.checked_add(1)?;
    let minislots = had.minislots.checked_add(u64::from(minislots))?;
    Some(Tally { count, minislots })
}

/// Adds one of so many minislots under a key. Where there is no memory, or a number would pass 2^64 - 1, nothing
/// changes.
pub(crate) fn add(tallies: &mut Tallies, key: u32, minislots: u16) -> Result<(), AllocError>
    ensures { OnOk result ((q : ℕ) → get nat_cmp tallies.new q ≡ tally_step q (get nat_cmp tallies.old q) (key, minislots)) }
{
    let had = tallies.get(&key).copied();
    match more(had, minislots) {
        Some(now) => {
            tallies.insert(key, now)?;
            Ok(())
        }
        None => Err(AllocError),
    }
}

/// The same under a longer key.
pub(crate) fn add_to_sid(
    tallies: &mut SidTallies,
    key: u128,
    minislots: u16,
) -> Result<(), AllocError>
    ensures { OnOk result ((q : ℕ) → get nat_cmp tallies.new q ≡ tally_step q (get nat_cmp tallies.old q) (key, minislots)) }
{
    let had = tallies.get(&key).copied();
    match more(had, minislots) {
        Some(now) => {
            tallies.insert(key, now)?;
            Ok(())
        }
        None => Err(AllocError),
    }
}
