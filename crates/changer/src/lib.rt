// The operation `change_over`: the masks of a file's design, and the board list that the compacted file goes on with. Nothing is written before the
// last refusal has been ruled out. It asks nothing of its caller; `change` asks for an accepted file and lists of n words.
#![tactic(auto)]

ghost use Rattle.std.specs.Prelude.{◌≡◌, is_ok};
ghost use Rattle.netlist.specs.Layout.{design_of};
ghost use Rattle.netlist.specs.Refusals.{leaves};
ghost use Rattle.rules.specs.Lent.{Lent};
ghost use Rattle.care.specs.Least.{masks_of};
ghost use Rattle.clock.specs.Call.{words_answer};
ghost use Rattle.changeover.specs.Call.{change_over_call};
ghost use Rattle.changeover.specs.Carried.{new_list};

use crate::carry::fill_new;
use checker::check;
use masker::fill;
use netlist::refusal::{Refusal, Refused};
use simulator::{both_have, check_words};

pub mod carry;

// Changes over, for an accepted file and lists of n words, unless a word is refused.
fn change(file: &[u8], list: &mut [u64], board: &[u64], new: &mut [u64]) -> Result<(), Refused>
    requires { Lent file.now list.old × (Lent file.now board.now × Lent file.now new.old) }
    ensures answer { result ≡ words_answer (design_of file.now) board.now }
    ensures list { list.new ≡ leaves (is_ok result) (masks_of (design_of file.now)) list.old }
    ensures new { new.new ≡ leaves (is_ok result) (new_list (design_of file.now) (masks_of (design_of file.now)) board.now) new.old }
{
    check_words(file, board)?;
    fill(file, list);
    fill_new(file, list, board, new);
    Ok(())
}

// Fills a list with the masks of a file's design, and another with the words of a board list that go over to the compacted file.
#[tactic(auto, unfolding(changeover::specs::Call::change_over_call, clock::specs::Call::answer_after))]
pub fn change_over(
    file: &[u8],
    list: &mut [u64],
    board: &[u64],
    new: &mut [u64],
) -> Result<(), Refused>
    ensures answer { result ≡ (change_over_call file.now list.old board.now new.old).answer }
    ensures list { list.new ≡ (change_over_call file.now list.old board.now new.old).list }
    ensures new { new.new ≡ (change_over_call file.now list.old board.now new.old).new }
{
    let n = check(file)?;
    if list.len() != n {
        return Err(Refusal::BadList.into());
    }
    if !both_have(board.len(), new.len(), n) {
        return Err(Refusal::BadList.into());
    }
    change(file, list, board, new)
}
