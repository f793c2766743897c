// Which records survive compacting, and their new numbers.
// A caller has an accepted file, a mask for each record, and a list of as many words for the numbers, which are 0 to begin with.
ghost use Rattle.std.specs.Prelude.{cond, ◌≡◌, ◌/◌, ◌<◌, ltb, length};
ghost use Rattle.endian.specs.Lists.{word_at};
ghost use Rattle.netlist.specs.Layout.{design_of, count_of};
ghost use Rattle.netlist.specs.Picked.{rank_of};
ghost use Rattle.rules.specs.Lent.{LentAt};
ghost use Rattle.compact.specs.Survivors.{is_port, is_blank, survives};
ghost use Rattle.compactor.specs.Numbers.{Marks, kept_by, flags_of, numbers_of};
ghost use Rattle.compactor.specs.Ready.{Cleared};

use netlist::layout::{code_at, fields_at, role_at};
use netlist::record::{Role, Uses};

// Whether a role is an input's or an output's.
fn is_port(role: Role) -> bool
    ensures { result ≡ is_port role }
{
    matches!(role, Role::Input | Role::Output)
}

// Whether record i has mask 0 and is neither input nor output. The mask is looked at first, so that a role is read only where it is 0.
pub fn is_blank(file: &[u8], list: &[u64], i: usize) -> bool
    requires { LentAt file.now list.now i }
    ensures { result ≡ is_blank (design_of file.now) list.now i }
{
    if list[i] != 0 {
        return false;
    }
    !is_port(role_at(file, i))
}

// An operand where a kind with so many operands uses it, and the record's own number where it does not. `place` counts operands from 0; it is compared
// with the count and chooses no step.
fn operand_or(place: usize, count: usize, operand: usize, own: usize) -> usize
    ensures { result ≡ cond (ltb place count) operand own }
{
    if place < count { operand } else { own }
}

// Puts 1 at record i and at each record that it names, unless it is blank.
fn mark(file: &[u8], list: &[u64], numbers: &mut [u64], i: usize)
    requires { LentAt file.now list.now i × LentAt file.now numbers.old i }
    ensures { Marks numbers.old numbers.new (kept_by (design_of file.now) list.now i) }
{
    if is_blank(file, list, i) {
        return;
    }
    let uses = Uses::new(code_at(file, i), fields_at(file, i));
    let a = operand_or(0, uses.count, uses.a, i);
    let b = operand_or(1, uses.count, uses.b, i);
    let c = operand_or(2, uses.count, uses.c, i);
    numbers[c] = 1;
    numbers[b] = 1;
    numbers[a] = 1;
    numbers[i] = 1;
}

// Puts 1 at each record that survives.
fn mark_survivors(file: &[u8], list: &[u64], numbers: &mut [u64])
    requires { Cleared file.now list.now numbers.old }
    ensures { numbers.new ≡ flags_of (design_of file.now) list.now }
{
    for i in 0..list.len() {
        mark(file, list, numbers, i);
    }
}

// Puts at each record twice the number of survivors below it, and one more where it survives too, so that half of a word is a survivor's new
// number. Answers how many survive.
pub fn number_survivors(file: &[u8], list: &[u64], numbers: &mut [u64]) -> usize
    requires { Cleared file.now list.now numbers.old }
    ensures count { result ≡ rank_of (survives (design_of file.now) list.now) (count_of file.now) }
    ensures numbers { numbers.new ≡ numbers_of (design_of file.now) list.now }
{
    mark_survivors(file, list, numbers);
    let mut count: u64 = 0;
    for word in numbers.iter_mut() {
        let flag = *word;
        *word = 2 * count + flag;
        count += flag;
    }
    count as usize
}

// The new number of record j, if it survives. That of record 0 is 0 in any case.
pub fn new_number(numbers: &[u64], j: usize) -> u64
    requires { j < length numbers.now }
    ensures { result ≡ word_at numbers.now j / 2 }
{
    numbers[j] / 2
}
