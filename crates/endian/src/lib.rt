// Little-endian numbers in a slice of bytes, one by one and as lists of words.
// A caller has the bytes that are read or written in the slice.
#![tactic(auto)]

ghost use Rattle.std.specs.Prelude.{◌≡◌, ◌++◌, ◌+◌, ◌*◌, ◌≤◌, ◌<◌, ◌^◌, length, drop};
ghost use Rattle.endian.specs.Bytes.{number_at, bytes, word_bytes};

// The number in the 2 bytes from `at` on.
pub fn read_16(s: &[u8], at: usize) -> u16
    requires { at + 2 ≤ length s.now }
    ensures number { result ≡ number_at s.now at 2 }
    ensures bound { result < 2 ^ 16 }
{
    // The range has as many bytes as the array, so there is always something to unwrap.
    u16::from_le_bytes(s[at..at + 2].try_into().unwrap())
}

// The number in the 8 bytes from `at` on.
pub fn read_64(s: &[u8], at: usize) -> u64
    requires { at + 8 ≤ length s.now }
    ensures { result ≡ number_at s.now at 8 }
{
    u64::from_le_bytes(s[at..at + 8].try_into().unwrap())
}

// Writes v into the first 8 bytes of d.
pub fn write_64(d: &mut [u8], v: u64)
    requires { 8 ≤ length d.old }
    ensures { d.new ≡ bytes 8 v ++ drop 8 d.old }
{
    d[..8].copy_from_slice(&v.to_le_bytes());
}

// Writes a list of words, 8 bytes each.
pub fn write_words(d: &mut [u8], words: &[u64])
    requires { length d.old ≡ 8 * length words.now }
    ensures { d.new ≡ word_bytes words.now }
{
    // Of the parts that `chunks_exact_mut` lends, only the length is known once they are back.
    for (i, word) in words.iter().enumerate() {
        write_64(&mut d[8 * i..], *word);
    }
}
