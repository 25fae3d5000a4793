// A line of output as a value: specs/Text.antt says what a text is, and the other files of specs/ what is put behind one. A program prints a text
// by one call, `rt.write_all(texts::first(&bytes, n))`.
#![tactic(auto)]

ghost use Rattle.std.specs.Prelude.{◌≡◌, [], take};
ghost use Rattle.texts.specs.Ascii.{decimal};
ghost use Rattle.texts.specs.Digits.{hex_digits, hexes, buffer_text};
ghost use Rattle.texts.specs.Numbers.{spaced, spaced_all};
ghost use Rattle.texts.specs.Text.{text_of, pushed, appended, cut};

// A line of output: its bytes, zeros after them, and how many they are. A buffer of 160 bytes has room in hexadecimal digits, behind a space.
#[derive(Clone, Copy)]
pub struct Text {
    pub bytes: [u8; 328],
    pub length: usize,
}

// The text of no bytes.
pub fn empty() -> Text
    ensures { result ≡ text_of [] }
{
    Text {
        bytes: [0; 328],
        length: 0,
    }
}

// What is to be written of a text: the first n of its bytes, or all.
pub fn first(bytes: &[u8], n: usize) -> &[u8]
    ensures { result.now ≡ take n bytes.now }
{
    if n < bytes.len() { &bytes[..n] } else { bytes }
}

// The text with one byte more, if there is room.
pub fn push(t: Text, b: u8) -> Text
    ensures { result ≡ pushed t b }
{
    let at = t.length;
    if at < 328 {
        let mut next = t;
        next.bytes[at] = b;
        next.length = at + 1;
        next
    } else {
        t
    }
}

// The text with bytes behind it.
pub fn push_all(t: Text, s: &[u8]) -> Text
    ensures { result ≡ appended t s.now }
{
    let mut next = t;
    for b in s {
        next = push(next, *b);
    }
    next
}

// The text of a word.
pub fn word(s: &[u8]) -> Text
    ensures { result ≡ cut s.now }
{
    push_all(empty(), s)
}

// The text with a number in decimal behind it.
pub fn push_number(t: Text, n: usize) -> Text
    ensures { result ≡ appended t (decimal n) }
{
    if n < 10 {
        push(t, b'0' + n as u8)
    } else {
        let next = push_number(t, n / 10);
        push(next, b'0' + (n % 10) as u8)
    }
}

// The same, and a space before it.
pub fn push_spaced(t: Text, n: usize) -> Text
    ensures { result ≡ appended t (spaced n) }
{
    push_number(push(t, b' '), n)
}

// The same of a byte.
pub fn push_field(t: Text, n: u8) -> Text
    ensures { result ≡ appended t (spaced n) }
{
    push_spaced(t, usize::from(n))
}

// The text with the numbers of a slice behind it, each with its space.
pub fn push_numbers(t: Text, s: &[u8]) -> Text
    ensures { result ≡ appended t (spaced_all s.now) }
{
    let mut next = t;
    for n in s {
        next = push_field(next, *n);
    }
    next
}

// The text with the last k hexadecimal digits of a number behind it.
pub fn push_digits(t: Text, x: u64, k: u8) -> Text
    ensures { result ≡ appended t (hex_digits k x) }
{
    if k == 0 {
        t
    } else {
        let next = push_digits(t, x / 16, k - 1);
        push(next, lines::hex_digit((x % 16) as u8))
    }
}

// The text with bytes in hexadecimal behind it.
pub fn push_hexes(t: Text, s: &[u8]) -> Text
    ensures { result ≡ appended t (hexes s.now) }
{
    let mut next = t;
    for b in s {
        next = push(push(next, lines::hex_digit(*b / 16)), lines::hex_digit(*b));
    }
    next
}

// The same, and `-` for no bytes.
pub fn push_buffer(t: Text, s: &[u8]) -> Text
    ensures { result ≡ appended t (buffer_text s.now) }
{
    if s.len() == 0 {
        push(t, b'-')
    } else {
        push_hexes(t, s)
    }
}
