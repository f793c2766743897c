// The lowest record of a list of masks whose mask lacks a bit that is called for, or has one outside its width.
// A caller has an accepted file and a list with a word for each record. No kind is looked at here.
#![tactic(auto)]

ghost use Rattle.std.specs.Prelude.{◌≡◌, ◌<◌, length};
ghost use Rattle.netlist.specs.Layout.{design_of};
ghost use Rattle.rules.specs.Lent.{Lent, LentAt};
ghost use Rattle.signal.specs.AskLists.{Named};
ghost use Rattle.demand.specs.Held.{listed};
ghost use Rattle.fault.specs.Fault.{lowest_fault, lower_if, ask_fault, asks_fault, own_fault, record_fault};

use bits::mask::{exceeds, low_mask};
use demand::{Asks, asked, demand_at};
use masker::seed_at;
use netlist::layout::width_at;
use signal::Ask;

// The lowest record at fault: `low` so far, or `at` where that is at fault and lower.
fn lower_if(fault: bool, at: usize, low: usize) -> usize
    ensures { result ≡ lower_if fault at low }
{
    if fault { at.min(low) } else { low }
}

// The same with an ask: its operand is at fault where its mask lacks a bit that is asked for.
fn of_ask(list: &[u64], ask: Ask, low: usize) -> usize
    requires { ask.operand < length list.now }
    ensures { result ≡ ask_fault list.now low ask }
{
    let at = ask.operand;
    lower_if(exceeds(ask.mask, list[at]), at, low)
}

// The same with all that a record asks.
#[tactic(auto, unfolding(crate::specs::Fault::asks_fault))]
fn of_asks(list: &[u64], asks: Asks, low: usize) -> usize
    requires { Named (length list.now) (listed asks) }
    ensures { result ≡ asks_fault list.now low (listed asks) }
{
    match asks {
        Asks::None => low,
        Asks::One(x) => of_ask(list, x, low),
        Asks::Two(x, y) => of_ask(list, y, of_ask(list, x, low)),
        Asks::Three(x, y, z) => of_ask(list, z, of_ask(list, y, of_ask(list, x, low))),
    }
}

// The same with record i itself: its mask leaves its width, or lacks a bit of its seed.
#[tactic(auto, unfolding(netlist::specs::Layout::design_of, netlist::specs::Layout::record_at))]
fn of_own(file: &[u8], list: &[u64], i: usize, low: usize) -> usize
    requires { LentAt file.now list.now i }
    ensures { result ≡ own_fault (design_of file.now) list.now i low }
{
    let mask = list[i];
    let narrow = lower_if(exceeds(mask, low_mask(width_at(file, i))), i, low);
    lower_if(exceeds(seed_at(file, i), mask), i, narrow)
}

// The same with record i itself and all that it asks. With D 0 it asks for no bit.
#[tactic(auto, using(signal::proofs::AskedNothing::asked_none, crate::proofs::FaultLaws::asks_none), unfolding(crate::specs::Fault::record_fault, signal::specs::Asks::asked, netlist::specs::Layout::design_of))]
fn of_record(file: &[u8], list: &[u64], i: usize, low: usize) -> usize
    requires { LentAt file.now list.now i }
    ensures { result ≡ record_fault (design_of file.now) list.now i low }
{
    let own = of_own(file, list, i, low);
    let d = demand_at(file, i, list[i]);
    if d == 0 {
        return own;
    }
    of_asks(list, asked(file, i, d), own)
}

// The lowest record at fault, or the count of records where none is.
// It is no `Option`: the clause says `lowest_fault` of the definitions, a number, and the one caller would take the `Option` apart at once.
#[tactic(auto, using(crate::proofs::FaultLaws::searched_none, crate::proofs::FaultLaws::searched_next), unfolding(netlist::specs::Layout::design_of))]
pub fn lowest_fault(file: &[u8], list: &[u64]) -> usize
    requires { Lent file.now list.now }
    ensures { result ≡ lowest_fault (design_of file.now) list.now }
{
    let mut low = list.len();
    for i in 0..list.len() {
        low = of_record(file, list, i, low);
    }
    low
}
