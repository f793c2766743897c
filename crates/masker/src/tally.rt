// The tally of a design's masks.
// A caller has an accepted file and a list with a mask for each record.
ghost use Rattle.std.specs.Prelude.{◌≡◌};
ghost use Rattle.netlist.specs.Layout.{design_of, count_of};
ghost use Rattle.rules.specs.Sound.{Acceptance};
ghost use Rattle.care.specs.Call.{tally_of};
ghost use Rattle.care.specs.Least.{Fits};

use bits::mask::count_ones;
use care::Tally;
use netlist::layout::width_at;

pub fn tally_of(file: &[u8], list: &[u64]) -> Tally
    requires { Acceptance file.now (count_of file.now) × Fits (design_of file.now) list.now }
    ensures { result ≡ tally_of (design_of file.now) list.now }
{
    let mut widths: u64 = 0;
    let mut ones: u64 = 0;
    for (i, mask) in list.iter().enumerate() {
        widths += width_at(file, i);
        ones += count_ones(*mask);
    }
    Tally { widths, ones }
}
