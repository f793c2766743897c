// The check of a file, for C.
// Nothing is asked of a caller in Rattle.
ghost use Rattle.std.specs.Prelude.{◌≡◌};
ghost use Rattle.rules.specs.Check.{check_of};
ghost use Rattle.answer.specs.Answer.{check_answer};

use answer::number;
use checker::check;

// Checks a file: the count of its records, or the refusal and its record.
#[unsafe(no_mangle)]
pub extern "C" fn pcn_check(file: &[u8]) -> u64
    ensures { result ≡ check_answer (check_of file.now) }
{
    number(check(file))
}
