// The operation `trim_by`: writes the file that a given list of masks cuts, and answers with the list's tally.
// `trim_by` asks nothing of its caller; the functions below it ask for an accepted file and a list of n words. Nothing is written before the
// last refusal has been ruled out.
ghost use Rattle.std.specs.Prelude.{◌≡◌, length, is_ok};
ghost use Rattle.netlist.specs.Layout.{design_of};
ghost use Rattle.netlist.specs.Refusals.{leaves};
ghost use Rattle.rules.specs.Lent.{Lent};
ghost use Rattle.trim.specs.CallBy.{list_answer, trim_by_call};
ghost use Rattle.trim.specs.Trimmed.{trimmed_by};

use crate::write::write_trimmed;
use care::Tally;
use checker::check;
use fault::lowest_fault;
use masker::tally::tally_of;
use netlist::refusal::{Refusal, Refused};

// The tally of a list of masks, or the lowest record whose mask breaks a width or a rule.
#[tactic(auto, using(trim::proofs::CallByLaws::list_broken, trim::proofs::CallByLaws::list_done), unfolding(netlist::specs::Layout::design_of))]
fn judge(file: &[u8], list: &[u64]) -> Result<Tally, Refused>
    requires { Lent file.now list.now }
    ensures { result ≡ list_answer (design_of file.now) list.now }
{
    let low = lowest_fault(file, list);
    if low < list.len() {
        return Err(Refusal::BadMask.at(low));
    }
    Ok(tally_of(file, list))
}

// Writes the file that a list of masks cuts, unless the list is refused.
fn write_by(file: &[u8], list: &[u64], destination: &mut [u8]) -> Result<Tally, Refused>
    requires { Lent file.now list.now × (length destination.old ≡ length file.now) }
    ensures answer { result ≡ list_answer (design_of file.now) list.now }
    ensures destination { destination.new ≡ leaves (is_ok result) (trimmed_by file.now list.now) destination.old }
{
    let tally = judge(file, list)?;
    write_trimmed(file, list, destination);
    Ok(tally)
}

#[tactic(auto, using(rules::proofs::Acceptance::accepted, rules::proofs::Acceptance::lent), unfolding(trim::specs::CallBy::trim_by_call, trim::specs::CallBy::after_trim, trim::specs::Call::trim_after, trim::specs::Call::trim_answer, care::specs::Call::masks_call, care::specs::Call::call_after))]
pub fn trim_by(file: &[u8], list: &[u64], destination: &mut [u8]) -> Result<Tally, Refused>
    ensures answer { result ≡ (trim_by_call file.now list.now destination.old).answer }
    ensures destination { destination.new ≡ (trim_by_call file.now list.now destination.old).destination }
{
    let n = check(file)?;
    if list.len() != n {
        return Err(Refusal::BadList.into());
    }
    if destination.len() != file.len() {
        return Err(Refusal::BadDestination.into());
    }
    write_by(file, list, destination)
}
