// Litres in whole eighths, as f64: what a flow reading and a plan's target may be.
#![tactic(auto)]

ghost use Rattle.std.specs.Prelude.{◌≡◌};
ghost use Rattle.std.specs.Float.{binary64};
ghost use Rattle.std.specs.Float.Ieee.{of_bits};
ghost use Rattle.litres.specs.Eighths.{finite_eighths, is_eighths, litres_ok, target_ok};

// The bits of an f64 in front of its sign.
const SIZE: u64 = 0x8000_0000_0000_0000;

// The lowest bits of an f64, its digits behind the first.
const DIGITS: u64 = 0x10_0000_0000_0000;

// Whether bits are those of a number of whole eighths, of either sign. By the bits and not by a remainder of floats, which is a call of the C library
// that a machine may not have in the version of the compiler's. The exponent e says that the digits are eighths from 2 ^ (e - 1072) on; below 1020 they
// are all less than an eighth, and 2047 is that of infinities and of NaNs.
fn are_eighths(b: u64) -> bool
    ensures { result ≡ finite_eighths (of_bits binary64 b) }
{
    let e = b % SIZE / DIGITS;
    let digits = b % DIGITS;
    if e == 0 {
        return digits == 0;
    }
    if e < 1020 {
        return false;
    }
    if e < 1072 {
        return (DIGITS + digits) % (1 << (1072 - e)) == 0;
    }
    e < 2047
}

// Whether x is a number of whole eighths, of either sign.
fn in_eighths(x: f64) -> bool
    ensures { result ≡ finite_eighths x }
{
    if x.is_nan() {
        false
    } else {
        are_eighths(f64::to_bits(x))
    }
}

// Whether x is a whole number of eighths, 0 or more, and not minus zero.
pub fn is_eighths(x: f64) -> bool
    ensures { result ≡ is_eighths x }
{
    if in_eighths(x) {
        f64::to_bits(x) < 0x8000_0000_0000_0000
    } else {
        false
    }
}

// Whether x is a reading: in eighths, from 0 to 64.
pub fn litres_ok(x: f64) -> bool
    ensures { result ≡ litres_ok x }
{
    if is_eighths(x) { x <= 64.0 } else { false }
}

// Whether the bits are those of a target: in eighths, from 0.125 to 131,072. Above the infinity's pattern, 0x7ff0.., stand NaNs and
// the negative numbers.
pub fn target_ok(bits: u64) -> bool
    ensures { result ≡ target_ok bits }
{
    if bits <= 0x7ff0_0000_0000_0000 {
        let x = f64::from_bits(bits);
        if is_eighths(x) {
            if 0.125 <= x { x <= 131072.0 } else { false }
        } else {
            false
        }
    } else {
        false
    }
}
