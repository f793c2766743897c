// The operations `start` and `cycle`. Nothing is written before the last refusal has been ruled out.
// Both ask nothing of their callers; the functions below them ask for an accepted file and lists of n words.
#![tactic(auto)]

ghost use Rattle.std.specs.Prelude.{◌≡◌, is_ok};
ghost use Rattle.netlist.specs.Layout.{design_of};
ghost use Rattle.netlist.specs.Refusals.{leaves};
ghost use Rattle.rules.specs.Lent.{Lent};
ghost use Rattle.clock.specs.Call.{both_have, words_answer, start_call, cycle_call};
ghost use Rattle.clock.specs.Values.{plain_values, plain_next};

use board::load::load;
use board::reset::reset;
use board::values::work_out;
use board::words::is_wide;
use checker::check;
use netlist::refusal::{Refusal, Refused};

// The lowest record whose word keeps a cycle from being run, if there is one.
pub fn check_words(file: &[u8], board: &[u64]) -> Result<(), Refused>
    requires { Lent file.now board.now }
    ensures { result ≡ words_answer (design_of file.now) board.now }
{
    for i in 0..board.len() {
        if is_wide(file, board, i) {
            return Err(Refusal::WideWord.at(i));
        }
    }
    Ok(())
}

// Runs one cycle of an accepted file on lists of n words, unless a word is refused.
fn run(file: &[u8], board: &mut [u64], next: &mut [u64]) -> Result<(), Refused>
    requires { Lent file.now board.old × Lent file.now next.old }
    ensures answer { result ≡ words_answer (design_of file.now) board.old }
    ensures board { board.new ≡ leaves (is_ok result) (plain_values (design_of file.now) board.old) board.old }
    ensures next { next.new ≡ leaves (is_ok result) (plain_next (design_of file.now) board.old) next.old }
{
    check_words(file, board)?;
    work_out(file, board);
    load(file, board, next);
    Ok(())
}

// Writes the reset states of a file's design into a board list of n words.
#[tactic(auto, using(rules::proofs::Acceptance::accepted, rules::proofs::Acceptance::lent), unfolding(clock::specs::Call::start_call, clock::specs::Call::answer_after))]
pub fn start(file: &[u8], board: &mut [u64]) -> Result<(), Refused>
    ensures answer { result ≡ (start_call file.now board.old).answer }
    ensures board { board.new ≡ (start_call file.now board.old).board }
{
    let n = check(file)?;
    if board.len() != n {
        return Err(Refusal::BadList.into());
    }
    reset(file, board);
    Ok(())
}

// Whether a board list and the list that is filled from it both have n places.
pub fn both_have(board: usize, next: usize, n: usize) -> bool
    ensures { result ≡ both_have board next n }
{
    board == n && next == n
}

// Runs one cycle of a file's design: the values in the board list, the next states in the next list.
#[tactic(auto, unfolding(clock::specs::Call::cycle_with, clock::specs::Call::answer_after))]
pub fn cycle(file: &[u8], board: &mut [u64], next: &mut [u64]) -> Result<(), Refused>
    ensures answer { result ≡ (cycle_call file.now board.old next.old).answer }
    ensures board { board.new ≡ (cycle_call file.now board.old next.old).board }
    ensures next { next.new ≡ (cycle_call file.now board.old next.old).next }
{
    let n = check(file)?;
    if !both_have(board.len(), next.len(), n) {
        return Err(Refusal::BadList.into());
    }
    run(file, board, next)
}
