// Where the header and the records stand in a file, and the reading of a record.
// Each reader asks that what it reads lies within the file. A record within a file has no type of its own, since check reads records before
// anything is known of the file.
ghost use Rattle.std.specs.Prelude.{cond, ◌≡◌, ◌+◌, ◌*◌, ◌≤◌, ◌<◌, ◌^◌, length};
ghost use Rattle.netlist.specs.Kinds.{is_register};
ghost use Rattle.netlist.specs.Layout.{header_size, record_size, record_start, keep_start, count_of, version_of, code_at, width_at, fields_at, keep_at, record_at, design_of, role_at};

use crate::record::{Fields, Record, Role};
use endian::{read_16, read_64};

// The sizes of the header and of a record, in bytes.
pub const HEADER: usize = 8;

pub const RECORD: usize = 24;

// The length of a file of n records, which is also where record n would start.
pub fn record_start(n: usize) -> usize
    requires { record_start n < 2 ^ 64 }
    ensures { result ≡ record_start n }
{
    HEADER + RECORD * n
}

pub fn version(file: &[u8]) -> u64
    requires { header_size ≤ length file.now }
    ensures { result ≡ version_of file.now }
{
    u64::from(read_16(file, 3))
}

pub fn record_count(file: &[u8]) -> usize
    requires { header_size ≤ length file.now }
    ensures count { result ≡ count_of file.now }
    ensures bound { result < 2 ^ 16 }
{
    usize::from(read_16(file, 6))
}

// The kind's number of record i.
#[tactic(auto, unfolding(crate::specs::Layout::code_at))]
pub fn code_at(file: &[u8], i: usize) -> u64
    requires { record_start i + record_size ≤ length file.now }
    ensures { result ≡ code_at file.now i }
{
    let at = record_start(i);
    u64::from(file[at])
}

#[tactic(auto, unfolding(crate::specs::Layout::width_at))]
pub fn width_at(file: &[u8], i: usize) -> u64
    requires { record_start i + record_size ≤ length file.now }
    ensures { result ≡ width_at file.now i }
{
    let at = record_start(i) + 1;
    u64::from(file[at])
}

#[tactic(auto, unfolding(crate::specs::Layout::fields_at))]
pub fn fields_at(file: &[u8], i: usize) -> Fields
    requires { record_start i + record_size ≤ length file.now }
    ensures { result ≡ fields_at file.now i }
{
    let at = record_start(i);
    let a = usize::from(read_16(file, at + 2));
    let b = usize::from(read_16(file, at + 4));
    let c = usize::from(read_16(file, at + 6));
    let k = read_64(file, at + 8);
    Fields { a, b, c, k }
}

// Where the keep word of record i starts.
pub fn keep_start(i: usize) -> usize
    requires { keep_start i < 2 ^ 64 }
    ensures { result ≡ keep_start i }
{
    record_start(i) + 16
}

#[tactic(auto, unfolding(crate::specs::Layout::keep_at))]
pub fn keep_at(file: &[u8], i: usize) -> u64
    requires { record_start i + record_size ≤ length file.now }
    ensures { result ≡ keep_at file.now i }
{
    read_64(file, keep_start(i))
}

// Record i, as its kind, width and keep word.
#[tactic(auto, unfolding(crate::specs::Layout::record_at))]
pub fn record_at(file: &[u8], i: usize) -> Record
    requires { record_start i + record_size ≤ length file.now }
    ensures { result ≡ record_at file.now i }
{
    let fields = fields_at(file, i);
    Record::new(
        code_at(file, i),
        width_at(file, i),
        fields,
        keep_at(file, i),
    )
}

// The role of record i.
#[tactic(auto, unfolding(crate::specs::Layout::design_of, crate::specs::Layout::record_at))]
pub fn role_at(file: &[u8], i: usize) -> Role
    requires { record_start i + record_size ≤ length file.now }
    ensures { result ≡ role_at (design_of file.now) i }
{
    Role::new(code_at(file, i), fields_at(file, i))
}

// 1 where record i is a register, and 0 where it is not. The compiler makes a branch of a comparison, and of this none: 256 less the bits in
// which two bytes differ is 256 only where they differ in none.
pub fn register_at(file: &[u8], i: usize) -> u64
    requires { record_start i + record_size ≤ length file.now }
    ensures { result ≡ cond (is_register (role_at (design_of file.now) i)) 1 0 }
{
    let at = record_start(i);
    (256 - (u64::from(file[at]) ^ Record::REGISTER)) / 256
}
