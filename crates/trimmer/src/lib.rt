// The operation `trim`: fills a lent list with the masks of a file's design, writes the trimmed file and answers with the tally.
// Nothing is asked of a caller.
#![tactic(auto)]

ghost use Rattle.std.specs.Prelude.{◌≡◌};
ghost use Rattle.trim.specs.Call.{trim_call};

use crate::write::write_trimmed;
use care::Tally;
use checker::check;
use masker::fill;
use netlist::refusal::{Refusal, Refused};

pub mod by;
pub mod write;

#[tactic(auto, using(rules::proofs::Acceptance::accepted, rules::proofs::Acceptance::lent, care::proofs::LeastMasks::masks_length), unfolding(trim::specs::Call::trim_after, trim::specs::Call::trim_answer, care::specs::Call::masks_call, care::specs::Call::call_after))]
pub fn trim(file: &[u8], list: &mut [u64], destination: &mut [u8]) -> Result<Tally, Refused>
    ensures answer { result ≡ (trim_call file.now list.old destination.old).answer }
    ensures list { list.new ≡ (trim_call file.now list.old destination.old).list }
    ensures destination { destination.new ≡ (trim_call file.now list.old destination.old).destination }
{
    let n = check(file)?;
    if list.len() != n {
        return Err(Refusal::BadList.into());
    }
    if destination.len() != file.len() {
        return Err(Refusal::BadDestination.into());
    }
    let tally = fill(file, list);
    write_trimmed(file, list, destination);
    Ok(tally)
}
