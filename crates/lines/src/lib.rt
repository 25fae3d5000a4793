// What the lines of both scripts are read by: a line that comes byte by byte, its numbers and its spaces; and a hexadecimal digit to print.
#![tactic(auto)]

ghost use Rattle.std.specs.Prelude.{◌≡◌, ◌%◌};
ghost use Rattle.lines.specs.Number.{number_from, up_to, number_up_to, number_of, space_in};
ghost use Rattle.lines.specs.Partial.{begun, with_byte, has_byte};
ghost use Rattle.lines.specs.Hex.{hex_digit};

// The first twelve bytes of a line that is still coming, and how many of them there are.
#[derive(Clone, Copy)]
pub struct Partial {
    pub bytes: [u8; 12],
    pub length: usize,
}

// A line before its first byte.
pub fn begun() -> Partial
    ensures { result ≡ begun }
{
    Partial {
        bytes: [0; 12],
        length: 0,
    }
}

// The line with one byte more.
pub fn with_byte(p: Partial, b: u8) -> Partial
    ensures { result ≡ with_byte p b }
{
    let at = p.length;
    if at < 12 {
        let mut longer = p;
        longer.bytes[at] = b;
        longer.length = at + 1;
        longer
    } else {
        p
    }
}

// Whether the line has a byte.
pub fn has_byte(p: Partial) -> bool
    ensures { result ≡ has_byte p }
{
    0 < p.length
}

// The number up to a limit that digits make.
fn digits_of(s: &[u8], limit: u16) -> Option<u16>
    ensures { result ≡ up_to limit (number_from 0 s.now) }
{
    let most = usize::from(limit);
    let mut n: usize = 0;
    for b in s {
        if !b.is_ascii_digit() {
            return None;
        }
        n = n * 10 + usize::from(*b - b'0');
        if most < n {
            return None;
        }
    }
    Some(n as u16)
}

// The number up to a limit that bytes are, without leading zeros, if they are one.
pub fn number_up_to(s: &[u8], limit: u16) -> Option<u16>
    ensures { result ≡ number_up_to limit s.now }
{
    if s.len() == 0 {
        return None;
    }
    if s.len() == 1 {
        return digits_of(s, limit);
    }
    if s[0] == b'0' {
        None
    } else {
        digits_of(s, limit)
    }
}

// The number up to 255 that bytes are, without leading zeros, if they are one.
pub fn number_of(s: &[u8]) -> Option<u8>
    ensures { result ≡ number_of s.now }
{
    let n = number_up_to(s, 255)?;
    Some(n as u8)
}

// The place of the first space, or the length.
pub fn space_in(s: &[u8]) -> usize
    ensures { result ≡ space_in s.now }
{
    s.iter().position(|b| *b == b' ').unwrap_or(s.len())
}

// The last hexadecimal digit of a number.
pub fn hex_digit(n: u8) -> u8
    ensures { result ≡ hex_digit (n % 16) }
{
    let d = n % 16;
    if d < 10 { b'0' + d } else { b'A' + (d - 10) }
}
