// The compacted file and its masks, for C: the mask list is a list of words, so nothing stands in for it.
// Nothing is asked of a caller in Rattle.
ghost use Rattle.std.specs.Prelude.{◌≡◌};
ghost use Rattle.compact.specs.Call.{compact_call};
ghost use Rattle.answer.specs.Answer.{written_answer};

use answer::number;
use compactor::compact;

// Writes the masks of a file's design and its compacted file: the new length, or the refusal and its record.
#[unsafe(no_mangle)]
pub extern "C" fn pcn_compact(file: &[u8], masks: &mut [u64], destination: &mut [u8]) -> u64
    ensures answer { result ≡ written_answer (compact_call file.now masks.old destination.old).answer }
    ensures masks { masks.new ≡ (compact_call file.now masks.old destination.old).list }
    ensures destination { destination.new ≡ (compact_call file.now masks.old destination.old).destination }
{
    number(compact(file, masks, destination))
}
