// Bytes and numbers of four and of eight bytes in a slice.
#![tactic(auto)]

ghost use Rattle.std.specs.Prelude.{◌≡◌, ◌<◌, ◌+◌, ℕ, get_or};
ghost use Rattle.words.specs.Word.{all_zero, put_at, quad_at, quad_bytes, word_at, word_bytes};

// A byte as an index.
pub fn wide(b: u8) -> usize
    ensures { result ≡ b }
{
    usize::from(b)
}

// The byte at an index, or 0 past the end.
pub fn byte_at(s: &[u8], i: usize) -> u8
    ensures { result ≡ get_or s.now i 0 }
{
    s.get(i).copied().unwrap_or(0)
}

// Whether every byte is 0: all are read, which the compiler does many at a time.
pub fn are_zeros(s: &[u8]) -> bool
    ensures { result ≡ all_zero s.now }
{
    s.iter().fold(0, |all: u8, b| all | *b) == 0
}

// The N bytes at an index; those past the end are 0. Where all are there, the compiler reads them as one word.
fn bytes_at<const N: usize>(s: &[u8], o: usize) -> [u8; N]
    ensures { (i : ℕ) → i < N → get_or result i 0 ≡ get_or s.now (o + i) 0 }
{
    let Some(rest) = s.get(o..) else {
        return [0; N];
    };
    if let Some(bytes) = rest.first_chunk::<N>() {
        return *bytes;
    }
    let mut bytes = [0; N];
    bytes[..rest.len()].copy_from_slice(rest);
    bytes
}

// The number that the four bytes at an index are; bytes past the end count as 0.
pub fn quad_at(s: &[u8], o: usize) -> u32
    ensures { result ≡ quad_at s.now o }
{
    u32::from_be_bytes(bytes_at(s, o))
}

// The number that eight bytes are.
pub fn word_of(bytes: [u8; 8]) -> u64
    ensures { result ≡ word_at bytes 0 }
{
    u64::from_be_bytes(bytes)
}

// The number that the eight bytes at an index are; bytes past the end count as 0.
pub fn word_at(s: &[u8], o: usize) -> u64
    ensures { result ≡ word_at s.now o }
{
    u64::from_be_bytes(bytes_at(s, o))
}

// Puts bytes at an index, if there is room for all; else the slice stays.
pub fn put_bytes(s: &mut [u8], o: usize, bytes: &[u8])
    ensures { s.new ≡ put_at bytes.now o s.old }
{
    let n = bytes.len();
    if n <= s.len() && o <= s.len() - n {
        // Byte by byte: `copy_from_slice` would have the archive for C take memmove from outside.
        for (i, b) in bytes.iter().enumerate() {
            s[o + i] = *b;
        }
    }
}

// Puts the four bytes of a number likewise.
pub fn put_quad(s: &mut [u8], o: usize, x: u32)
    ensures { s.new ≡ put_at (quad_bytes x) o s.old }
{
    put_bytes(s, o, &x.to_be_bytes());
}

// Puts the eight bytes of a number.
pub fn put_word(s: &mut [u8], o: usize, x: u64)
    ensures { s.new ≡ put_at (word_bytes x) o s.old }
{
    put_bytes(s, o, &x.to_be_bytes());
}
