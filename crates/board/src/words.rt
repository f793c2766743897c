// The words that a cycle starts from: whether one has a bit at its width or above.
// A caller of `is_wide` has an accepted file, a record of it, and a board list of n words.
ghost use Rattle.std.specs.Prelude.{◌≡◌};
ghost use Rattle.netlist.specs.Kinds.{is_held};
ghost use Rattle.netlist.specs.Layout.{design_of};
ghost use Rattle.rules.specs.Lent.{LentAt};
ghost use Rattle.clock.specs.Call.{is_wide};

use bits::arith::shr;
use netlist::layout::{role_at, width_at};
use netlist::record::Role;

// Whether a cycle takes the word at a record of this role from the board list.
fn is_held(role: Role) -> bool
    ensures { result ≡ is_held role }
{
    matches!(role, Role::Input | Role::Register { .. })
}

// Whether a cycle takes a word from record i that has a bit at its width or above. The word is looked at before the role: it is hardly ever too
// wide, where roles come in no order that a processor could foresee.
#[tactic(auto, using(netlist::proofs::Tests::short_test), unfolding(netlist::specs::Layout::design_of, netlist::specs::Layout::record_at))]
pub fn is_wide(file: &[u8], board: &[u64], i: usize) -> bool
    requires { LentAt file.now board.now i }
    ensures { result ≡ is_wide (design_of file.now) board.now i }
{
    if shr(board[i], width_at(file, i)) == 0 {
        return false;
    }
    is_held(role_at(file, i))
}
