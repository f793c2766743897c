// The masks of a file as bytes, for C.
// `pcn_masks` asks nothing of a caller in Rattle; `masks_in_words` asks for a list of words that matches the buffer.
ghost use Rattle.std.specs.Prelude.{◌≡◌, length};
ghost use Rattle.answer.specs.Answer.{tallied_answer};
ghost use Rattle.desktop.specs.Buffers.{masks_buffer};
ghost use Rattle.desktop.specs.Words.{Matches};

use crate::words::{word_count, write_accepted};
use answer::number;
use compactor::words::with_words;
use masker::masks;

// The same as `pcn_masks`, by way of a list of words.
fn masks_in_words(words: &mut [u64], file: &[u8], buffer: &mut [u8]) -> u64
    requires { Matches (length words.old) (length buffer.old) }
    ensures answer { result ≡ tallied_answer (masks_buffer file.now buffer.old).answer }
    ensures masks { buffer.new ≡ (masks_buffer file.now buffer.old).list }
{
    let answer = masks(file, words);
    write_accepted(answer, words, buffer);
    number(answer)
}

// Fills a buffer with the masks of a file's design, 8 bytes each: their tally, or the refusal and its record.
#[unsafe(no_mangle)]
pub extern "C" fn pcn_masks(file: &[u8], masks: &mut [u8]) -> u64
    ensures answer { result ≡ tallied_answer (masks_buffer file.now masks.old).answer }
    ensures masks { masks.new ≡ (masks_buffer file.now masks.old).list }
{
    let n = word_count(masks.len());
    with_words(n, &mut |words| masks_in_words(words, file, masks))
}
