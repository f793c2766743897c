// The program `masks`: reads a file from standard input and prints its masks, or why it is refused.
// What it prints comes from proved functions; that it reads and prints just that, no contract says.
#![tactic(auto)]

ghost use Rattle.std.specs.Prelude.{◌≤◌, length};
ghost use Rattle.rules.specs.Lent.{Lent};
ghost use Rattle.rules.specs.Sound.{Acceptance};

use care::Tally;
use checker::check;
use masker::fill;
use netlist::layout::{HEADER, RECORD, width_at};
use netlist::record::Record;
use netlist::refusal::Refused;
use std::io;
use std::io::Read;

// One byte more than the longest file: enough to refuse what is longer.
const INPUT: usize = HEADER + RECORD * Record::MAX_COUNT + 1;

// The text of each line is the program's own, and no `Display` of a type. Each function that prints ends at the first write that fails, since a line
// behind a gap could show the mask of another record.
fn print_refusal(rt: &impl Print, refused: Refused) -> io::Result<()> {
    println!(rt;
        "refused {} record {}",
        refused.refusal.number(),
        refused.at
    )
}

fn print_tally(rt: &impl Print, n: usize, tally: Tally) -> io::Result<()> {
    println!(rt; "{n} {} {}", tally.widths, tally.ones)
}

fn print_mask(rt: &impl Print, i: usize, width: u64, mask: u64) -> io::Result<()> {
    println!(rt; "{i} {width} {mask:016x}")
}

// A line for each record.
fn print_masks(rt: &impl Print, file: &[u8], list: &[u64]) -> io::Result<()>
    requires { Lent file.now list.now }
{
    for (i, mask) in list.iter().enumerate() {
        print_mask(rt, i, width_at(file, i), *mask)?;
    }
    Ok(())
}

// The tally and the masks of an accepted file of n records. The product has no heap, so the list stands in an array for the longest file.
fn print_accepted(rt: &impl Print, file: &[u8], n: usize) -> io::Result<()>
    requires { Acceptance file.now n }
{
    let mut words: [u64; Record::MAX_COUNT] = [0; Record::MAX_COUNT];
    let tally = fill(file, &mut words[..n]);
    print_tally(rt, n, tally)?;
    print_masks(rt, file, &words[..n])
}

fn report(rt: &impl Print, file: &[u8]) -> io::Result<()> {
    match check(file) {
        Ok(n) => print_accepted(rt, file, n),
        Err(refused) => print_refusal(rt, refused),
    }
}

// Fills the buffer from its front: how many bytes were read. A read that fails counts as the end of the input. The loop counts bytes by hand, since
// a read may give fewer than there is room for.
fn read_full(input: &mut impl Read, buffer: &mut [u8]) -> usize
    ensures { result ≤ length buffer.new }
{
    let mut done: usize = 0;
    while done < buffer.len() {
        match input.read(&mut buffer[done..]) {
            Ok(0) | Err(_) => return done,
            Ok(n) => done += n,
        }
    }
    done
}

// Reads no more than the buffer holds.
fn run(rt: &HostRuntime, buffer: &mut [u8]) {
    let n = read_full(&mut rt.stdin(), buffer);
    if report(rt, &buffer[..n]).is_err() {
        let _ = eprintln!(rt; "masks: standard output cannot be written");
    }
}

fn main(rt: HostRuntime) {
    let mut buffer = [0; INPUT];
    run(&rt, &mut buffer);
}
