// The words of a next list after a cycle.
// A caller has an accepted file and lists of n words.
ghost use Rattle.std.specs.Prelude.{◌≡◌};
ghost use Rattle.netlist.specs.Layout.{design_of, role_at};
ghost use Rattle.rules.specs.Lent.{Lent, LentAt};
ghost use Rattle.clock.specs.Values.{next_word, next_of};

use netlist::layout::{fields_at, register_at};

// The word of record i after a cycle: the value of a register's a, and 0 for another. It is worked out without a branch, since registers
// come in no order that a processor could foresee. A field that its kind has no use for is 0, so a names a record of any kind.
fn next_word(file: &[u8], values: &[u64], i: usize) -> u64
    requires { LentAt file.now values.now i }
    ensures { result ≡ next_word values.now (role_at (design_of file.now) i) }
{
    let fields = fields_at(file, i);
    let a = fields.a;
    values[a] * register_at(file, i)
}

// Fills a list with the words after a cycle that gave these values.
pub fn load(file: &[u8], values: &[u64], list: &mut [u64])
    requires { Lent file.now values.now × Lent file.now list.old }
    ensures { list.new ≡ next_of (design_of file.now) values.now }
{
    for (i, word) in list.iter_mut().enumerate() {
        *word = next_word(file, values, i);
    }
}
