// What a record asks of its operands under the care rules, kind by kind.
// A caller has an accepted file and a record of it, or an operand that the file holds.
#![tactic(auto)]

ghost use Rattle.std.specs.Prelude.{◌≡◌, true, false, MatchOption, [], ◌∷◌, ◌+◌, ◌≤◌, ◌<◌, length};
ghost use Rattle.std.specs.Int.Bits.{bit_or};
ghost use Rattle.bits.specs.Words.{cut, down};
ghost use Rattle.netlist.specs.Kinds.{is_constant};
ghost use Rattle.netlist.specs.Layout.{design_of, count_of, record_start, record_size};
ghost use Rattle.rules.specs.Sound.{Acceptance};
ghost use Rattle.signal.specs.Asks.{ask, up_to_highest, if_any, all_if_any, up_within, top_if_copied, constant_value, beside, each_beside, asks_of, demand_of};
ghost use Rattle.demand.specs.Held.{listed, cut_inverting, Holds, Readable};

use bits::arith::{shl, shr};
use bits::mask::{bit_length, cut_to, low_mask};
use netlist::layout::{code_at, fields_at, keep_at, record_at, width_at};
use netlist::record::{Kind, Record};
use signal::Ask;

// What a record asks of its operands: nothing, or a mask of one, two or three of them.
#[derive(Clone, Copy)]
pub enum Asks {
    None,
    One(Ask),
    Two(Ask, Ask),
    Three(Ask, Ask, Ask),
}

fn ask(operand: usize, mask: u64) -> Ask
    ensures { result ≡ ask operand mask }
{
    Ask { operand, mask }
}

// Every bit from 0 to the highest one in d.
#[tactic(auto, using(bits::proofs::Shifts::length_le))]
fn up_to_highest(d: u64) -> u64
    ensures { result ≡ up_to_highest d }
{
    low_mask(bit_length(d))
}

// The bits of m if d is not 0, and nothing if it is.
fn if_any(m: u64, d: u64) -> u64
    ensures { result ≡ if_any m d }
{
    if d == 0 { 0 } else { m }
}

// All w bits if d is not 0, and nothing if it is.
fn all_if_any(w: u64, d: u64) -> u64
    requires { w ≤ 64 }
    ensures { result ≡ all_if_any w d }
{
    if_any(low_mask(w), d)
}

// A sum, difference or product: a carry may reach every bit above it.
fn of_carries(a: usize, b: usize, d: u64) -> Asks
    ensures { listed result ≡ ask a (up_to_highest d) ∷ ask b (up_to_highest d) ∷ [] }
{
    let bits = up_to_highest(d);
    Asks::Two(ask(a, bits), ask(b, bits))
}

// A comparison of operands of widths v and w.
fn of_comparison(a: usize, v: u64, b: usize, w: u64, d: u64) -> Asks
    requires { (v ≤ 64) × (w ≤ 64) }
    ensures { listed result ≡ ask a (all_if_any v d) ∷ ask b (all_if_any w d) ∷ [] }
{
    Asks::Two(ask(a, all_if_any(v, d)), ask(b, all_if_any(w, d)))
}

// A concat whose low operand b has w bits.
fn of_concat(a: usize, b: usize, w: u64, d: u64) -> Asks
    ensures { listed result ≡ ask a (down w d) ∷ ask b (cut w d) ∷ [] }
{
    Asks::Two(ask(a, shr(d, w)), ask(b, cut_to(d, w)))
}

// d moved up by k places, within w.
fn up_within(d: u64, k: u64, w: u64) -> u64
    ensures { result ≡ up_within w k d }
{
    cut_to(shl(d, k), w)
}

// The top bit of w, if d has a bit in a place that a shift by k copies it to.
fn top_if_copied(d: u64, k: u64, w: u64) -> u64
    requires { (k < w) × (w ≤ 64) }
    ensures { result ≡ top_if_copied w k d }
{
    if_any(1 << (w - 1), shr(d, w - k))
}

// A right shift by k that copies the top bit of its operand of w bits.
fn of_arithmetic_shift(a: usize, k: u64, w: u64, d: u64) -> Asks
    requires { (k < w) × (w ≤ 64) }
    ensures { listed result ≡ ask a (bit_or (up_within w k d) (top_if_copied w k d)) ∷ [] }
{
    Asks::One(ask(a, up_within(d, k, w) | top_if_copied(d, k, w)))
}

// The value of record i, if that is a constant.
#[tactic(auto, using(crate::proofs::Constants::not_constant, crate::proofs::Constants::is_read, crate::proofs::Constants::value_read))]
fn constant_value(file: &[u8], i: usize) -> Option<u64>
    requires { record_start i + record_size ≤ length file.now }
    ensures { MatchOption result (is_constant ((design_of file.now).at i).kind ≡ false) (λ v. (is_constant ((design_of file.now).at i).kind ≡ true) × (v ≡ constant_value ((design_of file.now).at i))) }
{
    if code_at(file, i) != Record::CONSTANT {
        return None;
    }
    let k = fields_at(file, i).k;
    let keep = keep_at(file, i);
    Some(k & keep)
}

// What operand x is asked beside y: d, cut by the value of y where y alone is a constant. `inverted` is a word that is joined in, 0 or D, and chooses
// no step.
#[tactic(auto, unfolding(signal::specs::Asks::beside))]
fn beside(file: &[u8], x: usize, y: usize, inverted: u64, d: u64) -> u64
    requires { Holds file.now x y }
    ensures { result ≡ beside (cut_inverting inverted) ((design_of file.now).at x) ((design_of file.now).at y) d }
{
    match (constant_value(file, x), constant_value(file, y)) {
        (None, Some(v)) => inverted ^ (v & d),
        _ => d,
    }
}

// An and of a and b, with 0 for `inverted`, or an or, with d.
fn of_masking(file: &[u8], a: usize, b: usize, inverted: u64, d: u64) -> Asks
    requires { Holds file.now a b }
    ensures { listed result ≡ each_beside (cut_inverting inverted) (design_of file.now).at a b d }
{
    Asks::Two(
        ask(a, beside(file, a, b, inverted, d)),
        ask(b, beside(file, b, a, inverted, d)),
    )
}

// What a kind asks, with d for D.
#[tactic(auto, unfolding(signal::specs::Asks::beside, netlist::specs::Layout::design_of, netlist::specs::Layout::record_at))]
fn of_kind(file: &[u8], kind: Kind, d: u64) -> Asks
    requires { Readable file.now kind }
    ensures { listed result ≡ asks_of (design_of file.now).at kind d }
{
    match kind {
        Kind::Input | Kind::Constant { .. } => Asks::None,
        Kind::Register { a, .. } | Kind::Output { a } => Asks::One(ask(a, d)),
        Kind::Extract { a, k } => Asks::One(ask(a, shl(d, k))),
        Kind::Concat { a, b } => of_concat(a, b, width_at(file, b), d),
        Kind::And { a, b } => of_masking(file, a, b, 0, d),
        Kind::Or { a, b } => of_masking(file, a, b, d, d),
        Kind::Xor { a, b } => Asks::Two(ask(a, d), ask(b, d)),
        Kind::Mux { a, b, c } => Asks::Three(ask(a, if_any(1, d)), ask(b, d), ask(c, d)),
        Kind::Add { a, b } | Kind::Sub { a, b } | Kind::Mul { a, b } => of_carries(a, b, d),
        Kind::Equal { a, b } | Kind::Below { a, b } | Kind::SignedBelow { a, b } => {
            of_comparison(a, width_at(file, a), b, width_at(file, b), d)
        }
        Kind::LeftShift { a, k } => Asks::One(ask(a, shr(d, k))),
        Kind::RightShift { a, k } => Asks::One(ask(a, up_within(d, k, width_at(file, a)))),
        Kind::ArithmeticRightShift { a, k } => of_arithmetic_shift(a, k, width_at(file, a), d),
    }
}

// D of record i, whose mask is m.
#[tactic(auto, unfolding(netlist::specs::Layout::design_of, netlist::specs::Layout::record_at))]
pub fn demand_at(file: &[u8], i: usize, m: u64) -> u64
    requires { record_start i + record_size ≤ length file.now }
    ensures { result ≡ demand_of ((design_of file.now).at i) m }
{
    m & keep_at(file, i)
}

// What record i asks with d for D.
#[tactic(auto, unfolding(netlist::specs::Layout::design_of))]
pub fn asked(file: &[u8], i: usize, d: u64) -> Asks
    requires { Acceptance file.now (count_of file.now) × (i < count_of file.now) }
    ensures { listed result ≡ asks_of (design_of file.now).at ((design_of file.now).at i).kind d }
{
    of_kind(file, record_at(file, i).kind, d)
}
