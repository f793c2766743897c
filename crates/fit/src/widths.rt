// The tests of a record's width, of the width rule of its kind, and of the limit of a multiplier.
// A caller of `widths_fit` has the number of a kind; the others ask nothing.
ghost use Rattle.std.specs.Prelude.{◌≡◌, [], ◌∷◌, ◌+◌, ◌<◌};
ghost use Rattle.netlist.specs.Kinds.{kind_of, width_rules};
ghost use Rattle.netlist.specs.Limits.{kind_count};
ghost use Rattle.netlist.specs.Rules.{equal, below, at_most, test_all};
ghost use Rattle.netlist.specs.declared.record.Fields.{Fields};
ghost use Rattle.rules.specs.Fit.{width_range, multiplier_rules};

use netlist::record::{Fields, Kind, Record};

// One function for each number of equations: a list of them is no plainer, where each is one line.
fn one_equal(x: u64, y: u64) -> bool
    ensures { result ≡ test_all (equal x y ∷ []) }
{
    x == y
}

fn both_equal(x: u64, y: u64, u: u64, v: u64) -> bool
    ensures { result ≡ test_all (equal x y ∷ equal u v ∷ []) }
{
    x == y && u == v
}

fn three_equal(x: u64, y: u64, u: u64, v: u64, s: u64, t: u64) -> bool
    ensures { result ≡ test_all (equal x y ∷ equal u v ∷ equal s t ∷ []) }
{
    x == y && both_equal(u, v, s, t)
}

// x + y = z, with no sum that could wrap.
fn sum_equal(x: u64, y: u64, z: u64) -> bool
    ensures { result ≡ test_all (equal (x + y) z ∷ []) }
{
    x <= z && y == z - x
}

// x = y and u < v, as a shift by u places asks of the widths.
fn equal_and_below(x: u64, y: u64, u: u64, v: u64) -> bool
    ensures { result ≡ test_all (equal x y ∷ below u v ∷ []) }
{
    x == y && u < v
}

// x + y ≤ z, with no sum that could wrap.
fn sum_at_most(x: u64, y: u64, z: u64) -> bool
    ensures { result ≡ test_all (at_most (x + y) z ∷ []) }
{
    y <= z && x <= z - y
}

// A multiplier has 32 bits or less.
#[tactic(auto, using(netlist::proofs::KindLaws::multiplier_code))]
pub fn multiplier_fits(code: u64, w: u64) -> bool
    ensures { (f : Fields) → result ≡ test_all (multiplier_rules (kind_of code f) w) }
{
    code != Record::MUL || w <= Record::MAX_MULTIPLIER_WIDTH
}

pub fn width_in_range(w: u64) -> bool
    ensures { result ≡ test_all (width_range w) }
{
    1 <= w && w <= Record::MAX_WIDTH
}

// The width rule of the kind with a number, for a record of width w whose operands have the widths wa, wb and wc. The processor
// predicts tests of ranges better than a jump by the number.
#[tactic(auto, using(netlist::proofs::KindLaws::no_width_rule, netlist::proofs::KindLaws::one_width_rule, netlist::proofs::KindLaws::shifts, netlist::proofs::KindLaws::two_operands), unfolding(netlist::specs::Kinds::kind_of))]
pub fn widths_fit(code: u64, fields: Fields, w: u64, wa: u64, wb: u64, wc: u64) -> bool
    requires { code < kind_count }
    ensures { result ≡ test_all (width_rules (kind_of code fields) w wa wb wc) }
{
    if code < Record::REGISTER {
        return true;
    }
    if code < Record::EXTRACT {
        return one_equal(wa, w);
    }
    if code == Record::EXTRACT {
        return sum_at_most(fields.k, w, wa);
    }
    if code == Record::CONCAT {
        return sum_equal(wa, wb, w);
    }
    if code == Record::MUX {
        return three_equal(wa, 1, wb, w, wc, w);
    }
    if code < Record::EQUAL {
        return both_equal(wa, w, wb, w);
    }
    if Kind::is_shift(code) {
        return equal_and_below(wa, w, fields.k, w);
    }
    both_equal(wa, wb, w, 1)
}
