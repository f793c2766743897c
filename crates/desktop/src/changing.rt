// The board list that the compacted file goes on with, for C: all lists are lists of words, so nothing stands in for them.
// Nothing is asked of a caller in Rattle.
ghost use Rattle.std.specs.Prelude.{◌≡◌};
ghost use Rattle.changeover.specs.Call.{change_over_call};
ghost use Rattle.answer.specs.Answer.{clocked_answer};

use answer::number;
use changer::change_over;

// Writes the masks of a file's design, and the words of a board list that go over to the compacted file: 0, or the refusal and its record.
#[unsafe(no_mangle)]
pub extern "C" fn pcn_change_over(
    file: &[u8],
    masks: &mut [u64],
    board: &[u64],
    new: &mut [u64],
) -> u64
    ensures answer { result ≡ clocked_answer (change_over_call file.now masks.old board.now new.old).answer }
    ensures masks { masks.new ≡ (change_over_call file.now masks.old board.now new.old).list }
    ensures new { new.new ≡ (change_over_call file.now masks.old board.now new.old).new }
{
    number(change_over(file, masks, board, new))
}
