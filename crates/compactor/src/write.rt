// Writes the file that a list of masks leaves into the front of a buffer. Numbers go between u64 and usize by `as`, for which std has no `From`.
// A caller has an accepted file, a mask for each record, a list of as many words, which are 0, and a buffer of the file's length.
ghost use Rattle.std.specs.Prelude.{◌≡◌, ◌+◌, ◌≤◌, ◌<◌, length};
ghost use Rattle.std.proofs.lemmas.List.Edits.{sets};
ghost use Rattle.netlist.specs.Layout.{design_of, header_size};
ghost use Rattle.rules.specs.Encode.{header_bytes};
ghost use Rattle.compact.specs.Part.{compacted_by};
ghost use Rattle.compactor.specs.Numbers.{numbers_of};
ghost use Rattle.compactor.specs.Ready.{Cleared, Ready, NumberedAt};
ghost use Rattle.compactor.specs.Bytes.{front_of, three_words, survivor_bytes, with_survivor, survivors_bytes};

use crate::survivors::{is_blank, new_number, number_survivors};
use endian::write_64;
use netlist::layout::{code_at, fields_at, keep_at, record_start, width_at};
use netlist::record::Record;

// The mark, version 1 and the zero byte of a header, and what its count is multiplied with.
const MARK: u64 = 0x14e4350;

const COUNT_PLACE: u64 = 0x1000000000000;

// A record as three words: its kind, width and operands, then k, then the keep word.
#[derive(Clone, Copy)]
struct Words {
    front: u64,
    k: u64,
    keep: u64,
}

// The first word of a record.
fn front_word(code: u64, width: u64, a: u64, b: u64, c: u64) -> u64
    requires { (code < 256) × ((width < 256) × ((a < 65536) × ((b < 65536) × (c < 65536)))) }
    ensures { result ≡ front_of code width a b c }
{
    code + 256 * (width + 256 * (a + 65536 * (b + 65536 * c)))
}

// The words of record i where it survives. The new number of record 0 is 0 whether it survives or not, so a field that its kind has no use for,
// which is 0, stays 0. The mask of a blank record is 0, and so is its keep word.
fn words_at(file: &[u8], list: &[u64], numbers: &[u64], i: usize) -> Words
    requires { NumberedAt file.now list.now numbers.now i }
    ensures { three_words result.front result.k result.keep ≡ survivor_bytes (design_of file.now) list.now i }
{
    let width = width_at(file, i);
    let keep = list[i] & keep_at(file, i);
    if is_blank(file, list, i) {
        return Words {
            front: Record::CONSTANT + 256 * width,
            k: 0,
            keep,
        };
    }
    let fields = fields_at(file, i);
    let a = new_number(numbers, fields.a);
    let b = new_number(numbers, fields.b);
    let c = new_number(numbers, fields.c);
    let front = front_word(code_at(file, i), width, a, b, c);
    Words {
        front,
        k: fields.k,
        keep,
    }
}

// Writes three words from a place on.
fn write_words(words: Words, destination: &mut [u8], at: usize)
    requires { at + 24 ≤ length destination.old }
    ensures { destination.new ≡ sets destination.old at (three_words words.front words.k words.keep) }
{
    let second = at + 8;
    let third = at + 16;
    write_64(&mut destination[at..], words.front);
    write_64(&mut destination[second..], words.k);
    write_64(&mut destination[third..], words.keep);
}

// Writes record i, if it survives, to the place of its new number.
fn write_survivor(file: &[u8], list: &[u64], numbers: &[u64], destination: &mut [u8], i: usize)
    requires { NumberedAt file.now list.now numbers.now i × (length destination.old ≡ length file.now) }
    ensures { destination.new ≡ with_survivor (design_of file.now) list.now i destination.old }
{
    let number = numbers[i];
    if number % 2 == 0 {
        return;
    }
    let at = record_start((number / 2) as usize);
    write_words(words_at(file, list, numbers, i), destination, at);
}

// Writes all records that survive behind the place of the header.
fn write_survivors(file: &[u8], list: &[u64], numbers: &[u64], destination: &mut [u8])
    requires { Ready file.now list.now destination.old × (numbers.now ≡ numbers_of (design_of file.now) list.now) }
    ensures { destination.new ≡ sets destination.old header_size (survivors_bytes (design_of file.now) list.now) }
{
    for i in 0..list.len() {
        write_survivor(file, list, numbers, destination, i);
    }
}

// Writes the header of a file of so many records.
fn write_header(count: u64, destination: &mut [u8])
    requires { (count < 65536) × (header_size ≤ length destination.old) }
    ensures { destination.new ≡ sets destination.old 0 (header_bytes count) }
{
    write_64(destination, MARK + COUNT_PLACE * count);
}

// Writes the file that a list of masks leaves, and answers its length.
pub fn write_compacted(
    file: &[u8],
    list: &[u64],
    numbers: &mut [u64],
    destination: &mut [u8],
) -> usize
    requires { Ready file.now list.now destination.old × Cleared file.now list.now numbers.old }
    ensures length { result ≡ length (compacted_by file.now list.now) }
    ensures destination { destination.new ≡ sets destination.old 0 (compacted_by file.now list.now) }
{
    let count = number_survivors(file, list, numbers);
    write_header(count as u64, destination);
    write_survivors(file, list, numbers, destination);
    record_start(count)
}
