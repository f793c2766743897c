// The operation `compact`: fills a lent list with the masks of a file's design, writes the compacted file and answers with its length.
// `compact` asks nothing of its caller; `write_front` asks for an accepted file, a list of n words and as many bytes as the file has.
#![tactic(auto)]

ghost use Rattle.std.specs.Prelude.{◌≡◌, length};
ghost use Rattle.std.proofs.lemmas.List.Edits.{sets};
ghost use Rattle.compact.specs.Call.{compact_call};
ghost use Rattle.compact.specs.Part.{compacted_by};
ghost use Rattle.compactor.specs.Ready.{Ready};

use crate::words::with_words;
use crate::write::write_compacted;
use checker::check;
use masker::fill;
use netlist::refusal::{Refusal, Refused};

pub mod survivors;
pub mod words;
pub mod write;

// Writes the file that a list of masks leaves into the front of the destination, and answers its length.
fn write_front(file: &[u8], list: &[u64], destination: &mut [u8]) -> usize
    requires { Ready file.now list.now destination.old }
    ensures length { result ≡ length (compacted_by file.now list.now) }
    ensures destination { destination.new ≡ sets destination.old 0 (compacted_by file.now list.now) }
{
    let n = list.len();
    with_words(
        n,
        &mut |numbers| write_compacted(file, list, numbers, destination),
    )
}

pub fn compact(file: &[u8], list: &mut [u64], destination: &mut [u8]) -> Result<usize, Refused>
    ensures answer { result ≡ (compact_call file.now list.old destination.old).answer }
    ensures list { list.new ≡ (compact_call file.now list.old destination.old).list }
    ensures destination { destination.new ≡ (compact_call file.now list.old destination.old).destination }
{
    let n = check(file)?;
    if list.len() != n {
        return Err(Refusal::BadList.into());
    }
    if destination.len() != file.len() {
        return Err(Refusal::BadDestination.into());
    }
    fill(file, list);
    Ok(write_front(file, list, destination))
}
