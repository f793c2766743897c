// The functions that C calls on lists of words: an operation each, and the number of its answer.
// A caller in C is checked by nothing: include/pcn.h says what it must pass. Nothing is asked of a caller in Rattle.
#![tactic(auto)]

ghost use Rattle.std.specs.Prelude.{◌≡◌};
ghost use Rattle.clock.specs.Call.{start_call, cycle_call};
ghost use Rattle.trim.specs.CallBy.{trim_by_call};
ghost use Rattle.answer.specs.Answer.{clocked_answer, tallied_answer};

use answer::number;
use simulator::{cycle, start};
use trimmer::by::trim_by;

// Writes the reset states of a file's design into a board list.
#[unsafe(no_mangle)]
pub extern "C" fn pcn_start(file: &[u8], board: &mut [u64]) -> u64
    ensures answer { result ≡ clocked_answer (start_call file.now board.old).answer }
    ensures board { board.new ≡ (start_call file.now board.old).board }
{
    number(start(file, board))
}

// Runs one cycle of a file's design: the values in the board list, the next states in the next list.
#[unsafe(no_mangle)]
pub extern "C" fn pcn_cycle(file: &[u8], board: &mut [u64], next: &mut [u64]) -> u64
    ensures answer { result ≡ clocked_answer (cycle_call file.now board.old next.old).answer }
    ensures board { board.new ≡ (cycle_call file.now board.old next.old).board }
    ensures next { next.new ≡ (cycle_call file.now board.old next.old).next }
{
    number(cycle(file, board, next))
}

// Writes the file that a given list of masks cuts: the list's tally, or the refusal and its record.
#[unsafe(no_mangle)]
pub extern "C" fn pcn_trim_by(file: &[u8], masks: &[u64], destination: &mut [u8]) -> u64
    ensures answer { result ≡ tallied_answer (trim_by_call file.now masks.now destination.old).answer }
    ensures destination { destination.new ≡ (trim_by_call file.now masks.now destination.old).destination }
{
    number(trim_by(file, masks, destination))
}
