// The trimmed file and its masks as bytes, for C.
// `pcn_trim` asks nothing of a caller in Rattle; `trim_in_words` asks for a list of words that matches the mask list.
ghost use Rattle.std.specs.Prelude.{◌≡◌, length};
ghost use Rattle.answer.specs.Answer.{tallied_answer};
ghost use Rattle.desktop.specs.Buffers.{trim_buffers};
ghost use Rattle.desktop.specs.Words.{Matches};

use crate::words::{word_count, write_accepted};
use answer::number;
use compactor::words::with_words;
use trimmer::trim;

// The same as `pcn_trim`, by way of a list of words.
fn trim_in_words(words: &mut [u64], file: &[u8], masks: &mut [u8], destination: &mut [u8]) -> u64
    requires { Matches (length words.old) (length masks.old) }
    ensures answer { result ≡ tallied_answer (trim_buffers file.now masks.old destination.old).answer }
    ensures masks { masks.new ≡ (trim_buffers file.now masks.old destination.old).list }
    ensures destination { destination.new ≡ (trim_buffers file.now masks.old destination.old).destination }
{
    let answer = trim(file, words, destination);
    write_accepted(answer, words, masks);
    number(answer)
}

// Writes the masks of a file's design, 8 bytes each, and the trimmed file: the tally, or the refusal and its record.
#[unsafe(no_mangle)]
pub extern "C" fn pcn_trim(file: &[u8], masks: &mut [u8], destination: &mut [u8]) -> u64
    ensures answer { result ≡ tallied_answer (trim_buffers file.now masks.old destination.old).answer }
    ensures masks { masks.new ≡ (trim_buffers file.now masks.old destination.old).list }
    ensures destination { destination.new ≡ (trim_buffers file.now masks.old destination.old).destination }
{
    let n = word_count(masks.len());
    with_words(
        n,
        &mut |words| trim_in_words(words, file, masks, destination),
    )
}
