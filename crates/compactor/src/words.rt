// A list of words for one step, in a local array that is no longer than it has to be.
// A caller asks for one word more than a file has records at the most, and for a step that takes any list of so many zeros.
ghost use Rattle.std.specs.Prelude.{◌≡◌, ◌+◌, ◌≤◌, replicate};
ghost use Rattle.netlist.specs.Limits.{max_count};

use netlist::record::Record;

// Lists of so few words stand in an array of this length, which takes less time to clear than one for the longest list.
pub const SHORT_LIST: usize = 256;

// One word more than any file has records: a list of this length fits no file.
const LONG_LIST: usize = Record::MAX_COUNT + 1;

// Runs a step on a list of n zeros. The step is lent, since of one that is given away nothing is known afterwards, and a caller has to know what it
// left in the buffers that it writes.
pub fn with_words<R, F: FnMut(&mut [u64]) -> R>(n: usize, run: &mut F) -> R
    requires room { n ≤ max_count + 1 }
    requires runs { (words : _) → words.now ≡ replicate n 0 → F.pre run.old words }
    ensures { (words : _) × (left : _) × (words.now ≡ replicate n 0) × F.step run.old words result left run.new }
{
    if n <= SHORT_LIST {
        let mut short: [u64; SHORT_LIST] = [0; SHORT_LIST];
        return run(&mut short[..n]);
    }
    let mut long: [u64; LONG_LIST] = [0; LONG_LIST];
    run(&mut long[..n])
}
