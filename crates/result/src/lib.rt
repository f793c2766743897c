// The results of records, kind by kind.
// A caller of `result_at` has an accepted file, a record of it, and a board list with a word for each record.
#![tactic(auto)]

ghost use Rattle.std.specs.Prelude.{cond, ◌≡◌, ◌+◌, ◌*◌, ◌^◌, ◌≤◌, ◌<◌, eqb, ltb};
ghost use Rattle.endian.specs.Lists.{word_at};
ghost use Rattle.bits.specs.Words.{cut, product_at};
ghost use Rattle.netlist.specs.Layout.{design_of};
ghost use Rattle.rules.specs.Lent.{LentAt};
ghost use Rattle.signal.specs.Results.{emptied, arithmetic_down, signed_at, result_of, result_at};

use bits::arith::{add, mul, shl, shr, sub};
use bits::mask::{cut_to, low_mask};
use netlist::layout::{fields_at, record_at, width_at};
use netlist::record::{Fields, Kind, Record};

// x above the n bits of y, in w bits.
#[tactic(auto, using(bits::proofs::Modulo::sum_cut))]
fn concat(x: u64, y: u64, n: u64, w: u64) -> u64
    requires { w ≤ 64 }
    ensures { result ≡ cut w (x * 2 ^ n + y) }
{
    add(shl(x, n), y, w)
}

// The product at width w.
#[tactic(auto, using(bits::proofs::CutLaws::cut_wrapped))]
fn product(x: u64, y: u64, w: u64) -> u64
    requires { w ≤ 64 }
    ensures { result ≡ product_at w x y }
{
    cut_to(mul(x, y), w)
}

fn choose(x: u64, y: u64, z: u64) -> u64
    ensures { result ≡ cond (eqb x 1) y z }
{
    if x == 1 { y } else { z }
}

fn equal(x: u64, y: u64) -> u64
    ensures { result ≡ cond (eqb x y) 1 0 }
{
    u64::from(x == y)
}

fn below(x: u64, y: u64) -> u64
    ensures { result ≡ cond (ltb x y) 1 0 }
{
    u64::from(x < y)
}

// The places that a shift of w bits down by k leaves empty.
fn emptied(k: u64, w: u64) -> u64
    requires { w ≤ 64 }
    ensures { result ≡ emptied w k }
{
    let all = low_mask(w);
    all - shr(all, k)
}

// x moved down by k places, with its top bit of w in each empty place.
fn arithmetic_right_shift(x: u64, k: u64, w: u64) -> u64
    requires { (1 ≤ w) × (w ≤ 64) }
    ensures { result ≡ arithmetic_down w k x }
{
    let moved = shr(x, k);
    if shr(x, w - 1) % 2 == 1 {
        moved | emptied(k, w)
    } else {
        moved
    }
}

// Whether x is below y, both in two's complement of w bits. With its top bit turned over, a negative word stands below the others.
#[tactic(auto, using(signal::proofs::SignedLaws::turned_below, signal::proofs::SignedLaws::top_word))]
fn signed_below(x: u64, y: u64, w: u64) -> u64
    requires { (1 ≤ w) × (w ≤ 64) }
    ensures { result ≡ cond (ltb (signed_at w x) (signed_at w y)) 1 0 }
{
    let top = 1 << (w - 1);
    below(x ^ top, y ^ top)
}

// The result of a kind of w bits: wb is the width of b, `own` the record's own word, and x, y and z are the values of a, b and c.
fn result_of(kind: Kind, w: u64, wb: u64, own: u64, x: u64, y: u64, z: u64) -> u64
    requires { (1 ≤ w) × (w ≤ 64) × (1 ≤ wb) × (wb ≤ 64) }
    ensures { result ≡ result_of kind w wb own x y z }
{
    match kind {
        Kind::Input => own,
        Kind::Constant { k } => k,
        Kind::Register { .. } => own,
        Kind::Output { .. } => x,
        Kind::Extract { k, .. } => cut_to(shr(x, k), w),
        Kind::Concat { .. } => concat(x, y, wb, w),
        Kind::And { .. } => x & y,
        Kind::Or { .. } => x | y,
        Kind::Xor { .. } => x ^ y,
        Kind::Mux { .. } => choose(x, y, z),
        Kind::Add { .. } => add(x, y, w),
        Kind::Sub { .. } => sub(x, y, w),
        Kind::Mul { .. } => product(x, y, w),
        Kind::Equal { .. } => equal(x, y),
        Kind::Below { .. } => below(x, y),
        Kind::LeftShift { k, .. } => concat(x, 0, k, w),
        Kind::RightShift { k, .. } => shr(x, k),
        Kind::ArithmeticRightShift { k, .. } => arithmetic_right_shift(x, k, w),
        Kind::SignedBelow { .. } => signed_below(x, y, wb),
    }
}

// The result of record i on a board where its operands have their values. A field that its kind has no use for is 0, so all three are read
// before the kind is looked at.
pub fn result_at(file: &[u8], board: &[u64], i: usize) -> u64
    requires { LentAt file.now board.now i }
    ensures { result ≡ result_at (design_of file.now).at (word_at board.now) i }
{
    let Record { kind, width, .. } = record_at(file, i);
    let Fields { a, b, c, .. } = fields_at(file, i);
    let wb = width_at(file, b);
    result_of(kind, width, wb, board[i], board[a], board[b], board[c])
}
