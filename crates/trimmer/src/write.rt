// Writes a file whose keep words are cut by masks.
// A caller has an accepted file, a mask for each record, and as many bytes as the file has.
ghost use Rattle.std.specs.Prelude.{◌≡◌, length};
ghost use Rattle.rules.specs.Lent.{Lent};
ghost use Rattle.trim.specs.Trimmed.{trimmed_by};

use endian::write_64;
use netlist::layout::{keep_at, keep_start};

#[tactic(auto, using(trim::proofs::TrimLaws::trimming_next, trim::proofs::TrimLaws::trimming_all, rules::proofs::Acceptance::holds_record), unfolding(trim::specs::Trimmed::trim_to, netlist::specs::Layout::record_at))]
pub fn write_trimmed(file: &[u8], list: &[u64], destination: &mut [u8])
    requires { Lent file.now list.now × (length destination.old ≡ length file.now) }
    ensures { destination.new ≡ trimmed_by file.now list.now }
{
    destination.copy_from_slice(file);
    for i in 0..list.len() {
        let at = keep_start(i);
        write_64(&mut destination[at..], list[i] & keep_at(file, i));
    }
}
