// A set of marks, one bit for each record, 64 to a word. Clauses see the list of its words.
// A caller names a record that the longest file can have, or the number behind its last one. Between u64 and usize std has no `From`.
ghost use Rattle.std.specs.Prelude.{◌≡◌, ◌+◌, ◌%◌, ◌^◌, ◌≤◌};
ghost use Rattle.netlist.specs.Limits.{max_count};
ghost use Rattle.sweep.specs.Marks.{NoneMarked, Put, Highest};

use bits::mask::{bit_length, cut_to};
use netlist::record::Record;
use std::marker::Model;

// Words for the marks of the longest file, and for the number behind its last record, which is looked below.
const MARK_WORDS: usize = Record::MAX_COUNT / 64 + 1;

#[derive(Drop)]
pub struct Marks {
    words: [u64; MARK_WORDS],
}

impl Model for Marks {
    ghost use Rattle.std.specs.Prelude.{List, ℕ};

    ghost Value = { List ℕ };

    ghost view = { λ m. m.words };
}

// The bit of its word that is the mark of record i.
fn bit_of(i: usize) -> u64
    ensures { result ≡ 2 ^ (i % 64) }
{
    1 << (i % 64)
}

impl Marks {
    // No record is marked.
    pub fn new() -> Self
        ensures { NoneMarked result 0 (max_count + 1) }
    {
        Marks {
            words: [0; MARK_WORDS],
        }
    }

    pub fn mark(&mut self, i: usize)
        requires { i ≤ max_count }
        ensures { Put self.old i 1 self.new }
    {
        self.words[i / 64] |= bit_of(i);
    }

    pub fn unmark(&mut self, i: usize)
        requires { i ≤ max_count }
        ensures { Put self.old i 0 self.new }
    {
        self.words[i / 64] &= !bit_of(i);
    }

    // The highest marked record below i, if there is one. Of the word that has the mark of i, only the marks of lower records count. A word
    // without marks is 64 records without them.
    #[tactic(auto, using(crate::proofs::MarkLaws::first_none, crate::proofs::MarkLaws::first_in_range, crate::proofs::MarkLaws::next_none, crate::proofs::MarkLaws::next_in_range))]
    pub fn highest_below(&self, i: usize) -> Option<usize>
        requires { i ≤ max_count }
        ensures { Highest self.now i result }
    {
        let last = i / 64;
        let word = cut_to(self.words[last], (i % 64) as u64);
        if word != 0 {
            return Some(64 * last + bit_length(word) as usize - 1);
        }
        for at in (0..last).rev() {
            let word = self.words[at];
            if word != 0 {
                return Some(64 * at + bit_length(word) as usize - 1);
            }
        }
        None
    }
}
