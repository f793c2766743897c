// The tests of a record's fields, and of its words.
// Nothing is asked of a caller.
ghost use Rattle.std.specs.Prelude.{◌≡◌, [], ◌∷◌, ◌^◌};
ghost use Rattle.netlist.specs.Rules.{below, test_all};
ghost use Rattle.rules.specs.Fit.{field_rules};

use bits::arith::shr;
use netlist::record::{Fields, Uses};

// The fields of the file are those that the kind uses, and 0 elsewhere.
#[tactic(auto, unfolding(rules::specs::Fit::field_rules))]
pub fn fields_fit(f: Fields, u: Uses) -> bool
    ensures { result ≡ test_all (field_rules f u) }
{
    // Field by field: with the `==` of `Fields` a check takes a tenth longer.
    f.a == u.a && (f.b == u.b && (f.c == u.c && f.k == u.k))
}

// Two words have no bit at w or above.
pub fn words_fit(x: u64, y: u64, w: u64) -> bool
    ensures { result ≡ test_all (below x (2 ^ w) ∷ below y (2 ^ w) ∷ []) }
{
    shr(x, w) == 0 && shr(y, w) == 0
}
