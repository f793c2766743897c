// The operation `masks`: fills a lent list with the masks of a file's design and answers with their tally.
// `masks` asks nothing of its caller; the functions below it ask for an accepted file and a list of n words.
#![tactic(auto)]

ghost use Rattle.std.specs.Prelude.{◌≡◌, ◌≤◌, ◌<◌};
ghost use Rattle.endian.specs.Lists.{words_of};
ghost use Rattle.netlist.specs.Layout.{design_of, count_of};
ghost use Rattle.rules.specs.Lent.{Lent};
ghost use Rattle.rules.specs.Sound.{Acceptance};
ghost use Rattle.care.specs.Call.{tally_of, masks_call};
ghost use Rattle.care.specs.Least.{output_seed, seed_of, masks_of};

use crate::tally::tally_of;
use bits::mask::low_mask;
use care::Tally;
use checker::check;
use netlist::layout::{role_at, width_at};
use netlist::record::Role;
use netlist::refusal::{Refusal, Refused};
use sweep::raise;

pub mod tally;

// All w bits for an output, and none for another record.
fn seed_of(role: Role, w: u64) -> u64
    requires { w ≤ 64 }
    ensures { result ≡ seed_of role w }
{
    match role {
        Role::Output => low_mask(w),
        Role::Input | Role::Register { .. } | Role::Gate => 0,
    }
}

// The mask that record i has before anything is asked of it.
#[tactic(auto, unfolding(netlist::specs::Layout::design_of, netlist::specs::Layout::record_at))]
pub fn seed_at(file: &[u8], i: usize) -> u64
    requires { Acceptance file.now (count_of file.now) × (i < count_of file.now) }
    ensures { result ≡ output_seed (design_of file.now) i }
{
    seed_of(role_at(file, i), width_at(file, i))
}

// Fills a list with the seed. As for `reset` and `load` in `board`, the one line that differs is the whole, so nothing is gained by a function for
// all three.
fn seed(file: &[u8], list: &mut [u64])
    requires { Lent file.now list.old }
    ensures { list.new ≡ words_of (output_seed (design_of file.now)) (count_of file.now) }
{
    for (i, word) in list.iter_mut().enumerate() {
        *word = seed_at(file, i);
    }
}

// Fills a list with the masks of an accepted file.
#[tactic(auto, unfolding(care::specs::Least::masks_of, netlist::specs::Layout::design_of))]
pub fn fill(file: &[u8], list: &mut [u64]) -> Tally
    requires { Lent file.now list.old }
    ensures tally { result ≡ tally_of (design_of file.now) (masks_of (design_of file.now)) }
    ensures list { list.new ≡ masks_of (design_of file.now) }
{
    seed(file, list);
    raise(file, list);
    tally_of(file, list)
}

// The masks of a file's design in a list of n words, and their tally.
#[tactic(auto, using(rules::proofs::Acceptance::accepted, rules::proofs::Acceptance::lent), unfolding(care::specs::Call::masks_call, care::specs::Call::call_after))]
pub fn masks(file: &[u8], list: &mut [u64]) -> Result<Tally, Refused>
    ensures answer { result ≡ (masks_call file.now list.old).answer }
    ensures list { list.new ≡ (masks_call file.now list.old).list }
{
    let n = check(file)?;
    if list.len() != n {
        return Err(Refusal::BadList.into());
    }
    Ok(fill(file, list))
}
