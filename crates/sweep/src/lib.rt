// Backward sweeps over the records, from marked record to marked record, until none is marked.
// A caller has an accepted file and a list with a mask within the width of each record.
#![tactic(auto)]

ghost use Rattle.std.specs.Prelude.{◌≡◌, ◌||◌, [], ◌∷◌, ◌≤◌, ◌<◌, leb, ltb, length};
ghost use Rattle.netlist.specs.Layout.{design_of, count_of};
ghost use Rattle.netlist.specs.Limits.{max_count};
ghost use Rattle.rules.specs.Sound.{Acceptance};
ghost use Rattle.signal.specs.AskLists.{Named};
ghost use Rattle.demand.specs.Held.{listed};
ghost use Rattle.care.specs.Least.{least_above, Fits};
ghost use Rattle.sweep.specs.Sweep.{Joins, Ready, AllCovered, Visited, Swept};

use crate::marks::Marks;
use demand::{Asks, asked, demand_at};
use signal::Ask;

mod marks;

// Whether a visit that goes down to record `low` and stands at record i comes to a record no more.
fn passed(low: usize, i: usize, at: usize) -> bool
    ensures { result ≡ ltb at low || leb i at }
{
    at < low || i <= at
}

// Joins a mask that is asked of an operand to the operand's own. An operand that gains a bit is marked, unless the visit still comes to it.
#[tactic(auto, using(crate::proofs::NotedLaws::not_passed, crate::proofs::NotedLaws::noted_same, crate::proofs::NotedLaws::noted_marked, crate::proofs::NotedLaws::noted_coming), unfolding(care::specs::Least::grant))]
fn join(list: &mut [u64], marks: &mut Marks, ask: Ask, low: usize, i: usize)
    requires { (ask.operand < length list.old) × (length list.old ≤ max_count) }
    ensures { Joins low i (ask ∷ []) list.old list.new marks.old marks.new }
{
    let at = ask.operand;
    let old = list[at];
    let new = old | ask.mask;
    if old == new {
        return;
    }
    list[at] = new;
    if passed(low, i, at) {
        marks.mark(at);
    }
}

// Joins all that record i asks.
fn join_all(list: &mut [u64], marks: &mut Marks, asks: Asks, low: usize, i: usize)
    requires { Named (length list.old) (listed asks) × (length list.old ≤ max_count) }
    ensures { Joins low i (listed asks) list.old list.new marks.old marks.new }
{
    match asks {
        Asks::None => {}
        Asks::One(x) => join(list, marks, x, low, i),
        Asks::Two(x, y) => {
            join(list, marks, x, low, i);
            join(list, marks, y, low, i);
        }
        Asks::Three(x, y, z) => {
            join(list, marks, x, low, i);
            join(list, marks, y, low, i);
            join(list, marks, z, low, i);
        }
    }
}

// Visits the records from `high` - 1 down to `low`. A record with D 0 asks for no bit.
#[tactic(auto, unfolding(netlist::specs::Layout::design_of))]
fn visit(file: &[u8], list: &mut [u64], marks: &mut Marks, low: usize, high: usize)
    requires { Ready file.now list.old × (low ≤ high) × (high ≤ count_of file.now) }
    ensures { Visited (design_of file.now) low low high list.old list.new marks.old marks.new }
{
    for i in (low..high).rev() {
        let d = demand_at(file, i, list[i]);
        if d != 0 {
            let asks = asked(file, i, d);
            join_all(list, marks, asks, low, i);
        }
    }
}

// One sweep: backward from marked record to marked record. A mark is cleared before the visit, which may set it again.
#[tactic(auto, using(crate::proofs::SweepLaws::sweep_begins), unfolding(netlist::specs::Layout::design_of))]
fn sweep(file: &[u8], list: &mut [u64], marks: &mut Marks)
    requires { Ready file.now list.old × AllCovered (design_of file.now) list.old marks.old }
    ensures { Swept (design_of file.now) 0 list.old list.new marks.new }
{
    let mut below = list.len();
    while let Some(i) = marks.highest_below(below) {
        marks.unmark(i);
        visit(file, list, marks, i, i + 1);
        below = i;
    }
}

// Raises the masks in a list to the smallest closed family above them. Each record is visited once, and then as often as marks are left.
// 01 names the form of the loop of sweeps: it is left by `break`.
#[tactic(auto, unfolding(netlist::specs::Layout::design_of))]
pub fn raise(file: &[u8], list: &mut [u64])
    requires { Acceptance file.now (count_of file.now) × Fits (design_of file.now) list.old }
    ensures { list.new ≡ least_above (design_of file.now) list.old }
{
    let n = list.len();
    let mut marks = Marks::new();
    visit(file, list, &mut marks, 0, n);
    loop {
        sweep(file, list, &mut marks);
        if marks.highest_below(n).is_none() {
            break;
        }
    }
}
