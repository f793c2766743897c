// Masks: the low bits of a word, a word cut to a width, its ones and its length.
// A caller of low_mask keeps n at 64 or below; the others ask nothing. A width has no type of its own: it is a byte of the file, and every clause
// would have to reach through the type for the number that it is about.
ghost use Rattle.std.specs.Prelude.{◌≡◌, ◌≤◌};
ghost use Rattle.bits.specs.Masks.{exceeds};
ghost use Rattle.bits.specs.Words.{low_mask, cut, count_ones, bit_length};

// The mask of the n lowest bits.
pub fn low_mask(n: u64) -> u64
    requires { n ≤ 64 }
    ensures { result ≡ low_mask n }
{
    if n < 64 { (1 << n) - 1 } else { u64::MAX }
}

// The w lowest bits of x; all of x from width 64 on.
#[tactic(auto, using(crate::proofs::CutLaws::cut_masked, crate::proofs::CutLaws::cut_whole))]
pub fn cut_to(x: u64, w: u64) -> u64
    ensures { result ≡ cut w x }
{
    if w < 64 { x & low_mask(w) } else { x }
}

// Whether a has a bit that b has not.
pub fn exceeds(a: u64, b: u64) -> bool
    ensures { result ≡ exceeds a b }
{
    a & b != a
}

// How many bits of x are one.
#[tactic(auto, using(crate::proofs::Counts::ones_in_ones))]
pub fn count_ones(x: u64) -> u64
    ensures { result ≡ count_ones x }
{
    u64::from(x.count_ones())
}

// How many bits x has up to its highest one; none where x is 0.
#[tactic(auto, using(crate::proofs::Counts::length_leading))]
pub fn bit_length(x: u64) -> u64
    ensures { result ≡ bit_length x }
{
    64 - u64::from(x.leading_zeros())
}
