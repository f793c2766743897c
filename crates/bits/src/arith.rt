// Shifts, sums, differences and products of words, modulo a power of two.
// A caller of add or sub keeps the width at 64 or below; the others ask nothing.
ghost use Rattle.std.specs.Prelude.{◌≡◌, ◌≤◌};
ghost use Rattle.bits.specs.Words.{up, down, sum_at, difference_at, product_at};

use crate::mask::cut_to;

// x moved up by k places; what leaves the word is lost.
#[tactic(auto, using(crate::proofs::Modulo::shift_away))]
pub fn shl(x: u64, k: u64) -> u64
    ensures { result ≡ up k x }
{
    // std's `unbounded_shl` takes the places as a u32, which k need not fit.
    if k < 64 { x << k } else { 0 }
}

// x moved down by k places.
#[tactic(auto, using(crate::proofs::Modulo::shift_out))]
pub fn shr(x: u64, k: u64) -> u64
    ensures { result ≡ down k x }
{
    // As in `shl`: std's `unbounded_shr` takes a u32.
    if k < 64 { x >> k } else { 0 }
}

// The sum at width w: the carry beyond the width is dropped.
#[tactic(auto, using(crate::proofs::CutLaws::cut_wrapped))]
pub fn add(x: u64, y: u64, w: u64) -> u64
    requires { w ≤ 64 }
    ensures { result ≡ sum_at w x y }
{
    cut_to(x.wrapping_add(y), w)
}

// The difference at width w: the borrow beyond the width is dropped.
#[tactic(auto, using(crate::proofs::CutLaws::difference_wrapped))]
pub fn sub(x: u64, y: u64, w: u64) -> u64
    requires { w ≤ 64 }
    ensures { result ≡ difference_at w x y }
{
    cut_to(x.wrapping_sub(y), w)
}

// The product modulo 2^64, from sums that wrap: for each two bits of the smaller factor the larger one is added 0, 1, 2 or 3 times,
// moved up to their place.
pub fn mul(x: u64, y: u64) -> u64
    ensures { result ≡ product_at 64 x y }
{
    let larger = x.max(y);
    let twice = larger.wrapping_add(larger);
    let times = [0, larger, twice, twice.wrapping_add(larger)];
    let mut sum: u64 = 0;
    let mut smaller = x.min(y);
    let mut k: u64 = 0;
    // A `for` over the places would go on to the 64th; this loop ends with the smaller factor's last bits.
    while 0 < smaller {
        sum = sum.wrapping_add(times[(smaller % 4) as usize] << k);
        smaller /= 4;
        k += 2;
    }
    sum
}
