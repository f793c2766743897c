// Lists of words in place of buffers of bytes.
// A caller of `write_accepted` has 8 bytes for each word where the call was accepted.
ghost use Rattle.std.specs.Prelude.{◌≡◌, ◌+◌, ◌≤◌, length, is_ok};
ghost use Rattle.endian.specs.Bytes.{word_bytes};
ghost use Rattle.netlist.specs.Limits.{max_count};
ghost use Rattle.netlist.specs.Refusals.{leaves};
ghost use Rattle.desktop.specs.Words.{Matches, Room};

use care::Tally;
pub use compactor::words::SHORT_LIST;
use endian::write_words;
use netlist::record::Record;
use netlist::refusal::Refused;

// One word more than any file has records: a list of this length fits no file.
pub const LONG_LIST: usize = Record::MAX_COUNT + 1;

// How many words match a buffer of so many bytes: one for each 8 bytes, or more than any file has records. It is no `Option`: the call is made all
// the same, since the file's refusals come before 11.
pub fn word_count(bytes: usize) -> usize
    ensures room { result ≤ max_count + 1 }
    ensures matches { Matches result bytes }
{
    if bytes % 8 != 0 {
        return LONG_LIST;
    }
    let n = bytes / 8;
    if Record::MAX_COUNT < n {
        return LONG_LIST;
    }
    n
}

// Writes the words of an accepted call as bytes.
pub fn write_accepted(answer: Result<Tally, Refused>, words: &[u64], buffer: &mut [u8])
    requires { Room answer (length words.now) (length buffer.old) }
    ensures { buffer.new ≡ leaves (is_ok answer) (word_bytes words.now) buffer.old }
{
    if answer.is_ok() {
        write_words(buffer, words);
    }
}
