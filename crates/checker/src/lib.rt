// The check of a file: the header's rules, each record's rules in rising order, and the operation `check`.
// `check` asks nothing of its caller; the functions below it ask that the records lie within the file.
#![tactic(auto)]

ghost use Rattle.std.specs.Prelude.{◌≡◌, ◌≤◌, ◌<◌, cond, length, Ok, Err};
ghost use Rattle.netlist.specs.Layout.{header_size, record_start, count_of};
ghost use Rattle.netlist.specs.Rules.{test_all};
ghost use Rattle.rules.specs.Check.{mark_rules, header_rules, record_rules, first_broken, check_from, check_of};

use fit::operands::*;
use fit::widths::*;
use fit::words::*;
use netlist::layout::*;
use netlist::record::{Record, Uses};
use netlist::refusal::{Refusal, Refused};

// The mark `PCN`, and the zero byte after the version.
fn marked(file: &[u8]) -> bool
    requires { header_size ≤ length file.now }
    ensures { result ≡ test_all (mark_rules file.now) }
{
    file.starts_with(b"PCN") && file[5] == 0
}

// A rule that does not hold is the refusal.
fn rule(holds: bool, refusal: Refusal) -> Result<(), Refusal>
    ensures { result ≡ cond holds (Ok tt) (Err refusal) }
{
    if holds { Ok(()) } else { Err(refusal) }
}

// Rules 6 to 9, 15 and 10, for record i of n.
#[tactic(auto, using(crate::proofs::VerdictLaws::record_verdict))]
fn check_record(file: &[u8], n: usize, i: usize) -> Result<(), Refusal>
    requires { (n ≡ count_of file.now) × (record_start n ≤ length file.now) × (i < n) }
    ensures { result ≡ first_broken (record_rules file.now i) }
{
    let code = code_at(file, i);
    rule(code < Record::KINDS, Refusal::BadKind)?;
    let w = width_at(file, i);
    rule(width_in_range(w), Refusal::BadWidth)?;
    let f = fields_at(file, i);
    let uses = Uses::new(code, f);
    let limit = operand_limit(uses.role, n, i);
    rule(operands_fit(file, limit, uses), Refusal::BadOperand)?;
    let wa = width_at(file, uses.a);
    let wb = width_at(file, uses.b);
    let wc = width_at(file, uses.c);
    rule(widths_fit(code, f, w, wa, wb, wc), Refusal::BadWidthRule)?;
    rule(multiplier_fits(code, w), Refusal::WideMultiplier)?;
    rule(fields_fit(f, uses), Refusal::UnusedBit)?;
    let keep = keep_at(file, i);
    rule(words_fit(keep, uses.word, w), Refusal::UnusedBit)
}

// Rules 1 to 5.
#[tactic(auto, using(crate::proofs::VerdictLaws::header_verdict))]
fn check_header(file: &[u8]) -> Result<(), Refusal>
    ensures { result ≡ first_broken (header_rules file.now) }
{
    rule(HEADER <= file.len(), Refusal::TooShort)?;
    rule(marked(file), Refusal::BadMark)?;
    rule(version(file) == 1, Refusal::BadVersion)?;
    let n = record_count(file);
    rule(n <= Record::MAX_COUNT, Refusal::TooManyRecords)?;
    rule(file.len() == record_start(n), Refusal::BadLength)
}

// The records in rising order.
fn check_records(file: &[u8], n: usize) -> Result<usize, Refused>
    requires { (n ≡ count_of file.now) × (record_start n ≤ length file.now) }
    ensures { result ≡ check_from file.now n 0 }
{
    for i in 0..n {
        if let Err(refusal) = check_record(file, n, i) {
            return Err(refusal.at(i));
        }
    }
    Ok(n)
}

// Whether a file is accepted, or the first refusal that applies.
pub fn check(file: &[u8]) -> Result<usize, Refused>
    ensures { result ≡ check_of file.now }
{
    check_header(file)?;
    check_records(file, record_count(file))
}
