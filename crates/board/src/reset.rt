// The words of a board list after a start.
// A caller has an accepted file and a list of n words.
ghost use Rattle.std.specs.Prelude.{◌≡◌, ◌+◌, ◌≤◌, length};
ghost use Rattle.netlist.specs.Layout.{design_of, record_start, record_size, role_at};
ghost use Rattle.rules.specs.Lent.{Lent};
ghost use Rattle.clock.specs.Values.{start_word, start_of};

use netlist::layout::role_at;
use netlist::record::Role;

// The word of record i after a start: a register's reset state, and 0 for another.
fn start_word(file: &[u8], i: usize) -> u64
    requires { record_start i + record_size ≤ length file.now }
    ensures { result ≡ start_word (role_at (design_of file.now) i) }
{
    match role_at(file, i) {
        Role::Register { k, .. } => k,
        Role::Input | Role::Output | Role::Gate => 0,
    }
}

// Fills a list with the words after a start.
pub fn reset(file: &[u8], list: &mut [u64])
    requires { Lent file.now list.old }
    ensures { list.new ≡ start_of (design_of file.now) }
{
    for (i, word) in list.iter_mut().enumerate() {
        *word = start_word(file, i);
    }
}
