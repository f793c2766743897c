// The tests of a record's operands.
// `names` and `operands_fit` ask that the records below the limit lie within the file.
ghost use Rattle.std.specs.Prelude.{◌≡◌, [], ◌∷◌, ◌≤◌, length};
ghost use Rattle.netlist.specs.Kinds.{is_output, operands_of};
ghost use Rattle.netlist.specs.Layout.{record_start, design_of, role_at};
ghost use Rattle.netlist.specs.Rules.{below, is_not, test_all};
ghost use Rattle.rules.specs.Fit.{operand_limit, names_rules};

use netlist::layout::code_at;
use netlist::record::{Record, Role, Uses};

// What the operands of record i, of n, have to stay below.
pub fn operand_limit(role: Role, n: usize, i: usize) -> usize
    ensures { result ≡ operand_limit role n i }
{
    match role {
        Role::Input => i,
        Role::Register { .. } => n,
        Role::Output => i,
        Role::Gate => i,
    }
}

// An operand lies below the limit and names no output. Its kind's number is tested, since its record is decoded nowhere in the check.
#[tactic(auto, using(netlist::proofs::KindLaws::output_code), unfolding(netlist::specs::Layout::design_of, netlist::specs::Layout::record_at))]
fn names(file: &[u8], limit: usize, j: usize) -> bool
    requires { record_start limit ≤ length file.now }
    ensures { result ≡ test_all (below j limit ∷ is_not (is_output (role_at (design_of file.now) j)) ∷ []) }
{
    j < limit && code_at(file, j) != Record::OUTPUT
}

#[tactic(auto, using(rules::proofs::OperandLaws::second_fails), unfolding(rules::specs::Fit::names_rules, netlist::specs::Kinds::operands_of))]
pub fn operands_fit(file: &[u8], limit: usize, uses: Uses) -> bool
    requires { record_start limit ≤ length file.now }
    ensures { result ≡ test_all (names_rules (design_of file.now) limit (operands_of uses)) }
{
    let count = uses.count;
    if count < 1 {
        return true;
    }
    if !names(file, limit, uses.a) {
        return false;
    }
    if count < 2 {
        return true;
    }
    if !names(file, limit, uses.b) {
        return false;
    }
    if count < 3 {
        return true;
    }
    names(file, limit, uses.c)
}
