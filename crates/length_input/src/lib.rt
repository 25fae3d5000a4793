// The length that `word_counts` reads from standard input, in pieces, so that the input may be of any length: specs/Length.antt says what length the whole
// input is, specs/Input.antt what is kept of it on the way.
#![tactic(auto)]

ghost use Rattle.std.specs.Prelude.{◌≡◌, ◌+◌, ◌*◌};
ghost use Rattle.length_input.specs.Length.{capped};
ghost use Rattle.length_input.specs.Input.{begun, first_byte, next_byte, with_byte, with_bytes, LengthAs};

// What has come so far: nothing; digits, by the number that they are; digits and the line feed; or what is no length whatever follows. A number of
// more than 64 bits is held as the largest, and 0 is the digit 0 alone.
#[derive(Clone, Copy)]
pub enum Input {
    Empty,
    Digits(u64),
    Ended(u64),
    Misshapen,
}

// The input before its first byte.
pub fn begun() -> Input
    ensures { result ≡ begun }
{
    Input::Empty
}

// A number with one digit more.
fn with_digit(n: u64, d: u64) -> u64
    ensures { result ≡ capped (n * 10 + d) }
{
    n.saturating_mul(10).saturating_add(d)
}

fn first_byte(b: u8) -> Input
    ensures { result ≡ first_byte b }
{
    if b.is_ascii_digit() {
        Input::Digits(u64::from(b - b'0'))
    } else {
        Input::Misshapen
    }
}

// A byte behind the digits of n.
fn next_byte(n: u64, b: u8) -> Input
    ensures { result ≡ next_byte n b }
{
    if b == b'\n' {
        return Input::Ended(n);
    }
    if n == 0 {
        return Input::Misshapen;
    }
    if b.is_ascii_digit() {
        Input::Digits(with_digit(n, u64::from(b - b'0')))
    } else {
        Input::Misshapen
    }
}

// The input with one byte more.
fn with_byte(i: Input, b: u8) -> Input
    ensures { result ≡ with_byte i b }
{
    match i {
        Input::Empty => first_byte(b),
        Input::Digits(n) => next_byte(n, b),
        Input::Ended(_) => Input::Misshapen,
        Input::Misshapen => Input::Misshapen,
    }
}

// The input with a piece of bytes more.
pub fn with_bytes(i: Input, s: &[u8]) -> Input
    ensures { result ≡ with_bytes i s.now }
{
    let mut longer = i;
    for b in s {
        longer = with_byte(longer, *b);
    }
    longer
}

// The length that the input is, if it is one and ends here.
pub fn length_of(i: Input) -> Option<u64>
    ensures { LengthAs i result }
{
    match i {
        Input::Empty => None,
        Input::Digits(n) => Some(n),
        Input::Ended(n) => Some(n),
        Input::Misshapen => None,
    }
}
