// Numbers of two bytes, flags and f64 in the bytes of a state: specs/Fields.antt.
#![tactic(auto)]

ghost use Rattle.std.specs.Prelude.{◌≡◌, ◌<◌};
ghost use Rattle.std.specs.Float.{binary64};
ghost use Rattle.std.specs.Float.Ieee.{to_bits, of_bits, nan_bits};
ghost use Rattle.messages.specs.Message.{put_at};
ghost use Rattle.fields.specs.Fields.{half_bytes, half_at, flag_byte, float_bytes, float_at, is_float};

// ---- read

// Whether bits are those of a NaN.
pub fn is_nan(bits: u64) -> bool
    ensures { result ≡ nan_bits binary64 bits }
{
    0x7ff0_0000_0000_0000 < bits % 0x8000_0000_0000_0000
}

// The f64 of bits, a NaN's too.
pub fn float_of(bits: u64) -> f64
    ensures { result ≡ of_bits binary64 bits }
{
    if is_nan(bits) {
        0.0 / 0.0
    } else {
        f64::from_bits(bits)
    }
}

// The bits of an f64, for a NaN those of the quiet one.
pub fn bits_of(x: f64) -> u64
    ensures { result ≡ to_bits binary64 x }
{
    if x == x {
        f64::to_bits(x)
    } else {
        0x7ff8_0000_0000_0000
    }
}

// The f64 of the eight bytes at an index.
pub fn float_at(s: &[u8], o: usize) -> f64
    ensures { result ≡ float_at s.now o }
{
    float_of(words::word_at(s, o))
}

// Whether they are the bits of a number.
pub fn is_float(s: &[u8], o: usize) -> bool
    ensures { result ≡ is_float s.now o }
{
    !is_nan(words::word_at(s, o))
}

fn half(b: u8) -> u16
    ensures { (result ≡ b) × (result < 256) }
{
    b as u16
}

// The number that the two bytes at an index are.
pub fn half_at(s: &[u8], o: usize) -> u16
    ensures { result ≡ half_at s.now o }
{
    if o < s.len() {
        half(words::byte_at(s, o)) * 256 + half(words::byte_at(s, o + 1))
    } else {
        0
    }
}

// A flag's byte.
pub fn flag_of(b: bool) -> u8
    ensures { result ≡ flag_byte b }
{
    if b { 1 } else { 0 }
}

// ---- written, if there is room for all; else the slice stays

// Puts the two bytes of a number at an index.
pub fn put_half(s: &mut [u8], o: usize, x: u16)
    ensures { s.new ≡ put_at (half_bytes x) o s.old }
{
    words::put_bytes(s, o, &[(x / 0x100 % 256) as u8, (x % 256) as u8]);
}

// Puts the eight bytes of an f64.
pub fn put_float(s: &mut [u8], o: usize, x: f64)
    ensures { s.new ≡ put_at (float_bytes x) o s.old }
{
    words::put_word(s, o, bits_of(x));
}
