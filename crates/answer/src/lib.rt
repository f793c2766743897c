// The 64-bit number that a call gives.
// A caller has an answer that fits into it.
#![tactic(auto)]

ghost use Rattle.std.specs.Prelude.{◌≡◌, ℕ, ⊤, MatchResult};
ghost use Rattle.answer.specs.Answer.{refused_answer, answer_number, tally_answer, count_answer, done_answer};
ghost use Rattle.answer.specs.Fits.{RecordFits, TallyFits};
ghost use Rattle.netlist.specs.Refusals.{number_of};

use care::Tally;
use netlist::refusal::Refused;

// What an accepted call answers with.
pub trait Accepted {
    ghost Fits: { Self → Type 0 };

    ghost number: { Self → ℕ };

    fn number(self) -> u64
        requires { Fits self }
        ensures { result ≡ number self };
}

// The count of records, or how many bytes were written. std has no `From` from usize to u64.
impl Accepted for usize {
    ghost Fits = { λ _. ⊤ };

    ghost number = { count_answer };

    fn number(self) -> u64 {
        self as u64
    }
}

// The sum of widths from bit 32 on, and the count of ones.
impl Accepted for Tally {
    ghost Fits = { TallyFits };

    ghost number = { tally_answer };

    fn number(self) -> u64 {
        4294967296 * self.widths + self.ones
    }
}

// What says only that the call was accepted.
const DONE: u64 = 0;

impl Accepted for () {
    ghost Fits = { λ _. ⊤ };

    ghost number = { done_answer };

    fn number(self) -> u64 {
        DONE
    }
}

// The answer of a refused call: bit 63, the refusal's number from bit 32 on, and the record.
fn refused(refused: Refused) -> u64
    requires { RecordFits refused }
    ensures { result ≡ refused_answer (number_of refused.refusal) refused.at }
{
    let number = refused.refusal.number();
    let at = refused.at as u64;
    9223372036854775808 + 4294967296 * number + at
}

// The number of any call's answer.
pub fn number<T: Accepted>(answer: Result<T, Refused>) -> u64
    requires { MatchResult answer T.Fits RecordFits }
    ensures { result ≡ answer_number T.number answer }
{
    match answer {
        Ok(accepted) => accepted.number(),
        Err(r) => refused(r),
    }
}
