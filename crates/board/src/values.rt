// The values of a cycle, worked out in a board list in rising order.
// A caller has an accepted file and a board list of n words.
ghost use Rattle.std.specs.Prelude.{◌≡◌, ◌<◌};
ghost use Rattle.netlist.specs.Layout.{design_of};
ghost use Rattle.rules.specs.Lent.{Lent, LentAt};
ghost use Rattle.clock.specs.Values.{value_at, plain_values};

use netlist::layout::keep_at;
use result::result_at;

// The value of record i, where the records below it have theirs.
#[tactic(auto, unfolding(netlist::specs::Layout::design_of, netlist::specs::Layout::record_at))]
fn value_at(file: &[u8], board: &[u64], i: usize) -> u64
    requires { LentAt file.now board.now i }
    ensures { result ≡ value_at (design_of file.now) board.now i }
{
    result_at(file, board, i) & keep_at(file, i)
}

// Works out the values of all records.
#[tactic(auto, using(clock::proofs::ValueLaws::values_next), unfolding(clock::specs::Values::values_to, clock::specs::Values::values_of, netlist::specs::Layout::design_of))]
pub fn work_out(file: &[u8], board: &mut [u64])
    requires { Lent file.now board.old }
    ensures { board.new ≡ plain_values (design_of file.now) board.old }
{
    for i in 0..board.len() {
        board[i] = value_at(file, board, i);
    }
}
