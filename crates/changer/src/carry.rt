// The words of a board list that go over to the compacted file. A new number becomes an index by `as`: std has no `From` from u64 to usize.
// A caller of `fill_new` has an accepted file and lists of n words.
ghost use Rattle.std.specs.Prelude.{◌≡◌};
ghost use Rattle.netlist.specs.Layout.{design_of};
ghost use Rattle.rules.specs.Lent.{Lent, LentAt};
ghost use Rattle.changeover.specs.Carried.{carried_word, carried_at, new_list};
ghost use Rattle.changer.specs.Numbered.{Numbered};

use compactor::survivors::{new_number, number_survivors};
use netlist::layout::role_at;
use netlist::record::Role;

// What goes over for a record of this role, by its mask and its word. A register with mask 0 is none any more, and nothing of its state is left.
fn carried_word(role: Role, mask: u64, word: u64) -> u64
    ensures { result ≡ carried_word role mask word }
{
    match role {
        Role::Input => word,
        Role::Register { .. } => word & mask,
        Role::Output | Role::Gate => 0,
    }
}

// What goes over for record i.
#[tactic(auto, using(changeover::proofs::CarriedLaws::carried_was))]
fn carried_at(file: &[u8], list: &[u64], board: &[u64], i: usize) -> u64
    requires { LentAt file.now list.now i × LentAt file.now board.now i }
    ensures { result ≡ carried_at (design_of file.now) list.now board.now i }
{
    carried_word(role_at(file, i), list[i], board[i])
}

// Puts what goes over for each record at its new number, which is never above the old one, and 0 elsewhere. Nothing goes over for a record that does
// not survive, so its 0 stands where the word of the next survivor goes.
fn carry(file: &[u8], list: &[u64], board: &[u64], new: &mut [u64])
    requires { Numbered file.now list.now board.now new.old }
    ensures { new.new ≡ new_list (design_of file.now) list.now board.now }
{
    for i in 0..new.len() {
        let at = new_number(new, i) as usize;
        new[i] = 0;
        new[at] = carried_at(file, list, board, i);
    }
}

// Fills a list with the words that go over, and 0 behind them. It holds the numbers of the survivors until the words take their places.
pub fn fill_new(file: &[u8], list: &[u64], board: &[u64], new: &mut [u64])
    requires { Lent file.now list.now × (Lent file.now board.now × Lent file.now new.old) }
    ensures { new.new ≡ new_list (design_of file.now) list.now board.now }
{
    new.fill(0);
    number_survivors(file, list, new);
    carry(file, list, board, new);
}
