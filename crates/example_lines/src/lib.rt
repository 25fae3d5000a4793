// The lines of the stored examples: specs/Words.antt says what a line is, specs/Image.antt what an image in it is.
#![tactic(auto)]

ghost use Rattle.std.specs.Prelude.{◌≡◌, ◌+◌, ◌-◌, ◌*◌, ◌%◌, ◌<◌, ◌≤◌, [], ◌∷◌, ◌++◌, length, take, drop};
ghost use Rattle.std.proofs.Math.Seq.{paste};
ghost use Rattle.example_lines.specs.Words as Words;
ghost use Rattle.example_lines.specs.Words.{line_end, line_at, space_of, spaces_in, word_from, letter_in, digit_of, number_from, number_in, bits_in};
ghost use Rattle.example_lines.specs.Image.{grown, copy_of, closed, with_digit, with_byte, image_from, image_in, piece, part_of, Put, Stands, Kept};

// ---- words and numbers

// Where the line ends that begins at an offset of the text.
pub fn line_end(text: &[u8], from: usize) -> usize
    ensures { result ≡ line_end text.now from }
{
    if from < text.len() {
        match text[from..].iter().position(|b| *b == b'\n') {
            Some(n) => from + n,
            None => text.len(),
        }
    } else {
        from
    }
}

// The line that begins there, without its line feed.
pub fn line_at(text: &[u8], from: usize) -> &[u8]
    ensures { result.now ≡ line_at text.now from }
{
    if from < text.len() {
        let end = line_end(text, from);
        &text[from..end]
    } else {
        &text[..0]
    }
}

fn space_of(b: u8) -> usize
    ensures { (result ≡ space_of b) × (result ≤ 1) }
{
    if b == b' ' { 1 } else { 0 }
}

// How many spaces a line has.
pub fn spaces_in(s: &[u8]) -> usize
    ensures { result ≡ spaces_in s.now }
{
    let mut n: usize = 0;
    for b in s {
        n += space_of(*b);
    }
    n
}

// Where the word begins that stands behind k spaces, or the line's length.
fn word_at(s: &[u8], k: usize) -> usize
    ensures { (result ≤ length s.now) × (drop result s.now ≡ word_from k s.now) }
{
    let mut left = k;
    for (i, b) in s.iter().enumerate() {
        if left == 0 {
            return i;
        }
        left -= space_of(*b);
    }
    s.len()
}

// Byte j of the word that stands behind k spaces, or 0 past the line's end.
pub fn letter_in(s: &[u8], k: usize, j: usize) -> u8
    ensures { result ≡ letter_in k j s.now }
{
    let at = word_at(s, k);
    words::byte_at(&s[at..], j)
}

// The value of a hexadecimal digit, or 16. By hand, since `char::to_digit` takes small letters too, which the lines do not have.
fn digit_of(b: u8) -> u8
    ensures { result ≡ digit_of b }
{
    if b < b'0' {
        16
    } else if b <= b'9' {
        b - b'0'
    } else if b < b'A' {
        16
    } else if b <= b'F' {
        b - b'A' + 10
    } else {
        16
    }
}

// The number with one digit more, if it has room.
fn longer(base: u64, n: u64, d: u8) -> u64
    requires { 0 < base }
    ensures { result ≡ Words.longer base n d }
{
    let more = d as u64;
    let most = (u64::MAX - more) / base;
    if n <= most { n * base + more } else { n }
}

// The number that the line's first digits make.
fn number_of(s: &[u8], base: u64) -> u64
    requires { 0 < base }
    ensures { result ≡ number_from base 0 s.now }
{
    let mut n: u64 = 0;
    for b in s {
        let d = digit_of(*b);
        if base <= d as u64 {
            return n;
        }
        n = longer(base, n, d);
    }
    n
}

// The decimal number that stands behind k spaces.
pub fn number_in(s: &[u8], k: usize) -> u64
    ensures { result ≡ number_in k s.now }
{
    let at = word_at(s, k);
    number_of(&s[at..], 10)
}

// Its lowest byte.
pub fn byte_in(s: &[u8], k: usize) -> u8
    ensures { result ≡ number_in k s.now % 256 }
{
    (number_in(s, k) % 256) as u8
}

// The hexadecimal number that stands behind k spaces.
pub fn bits_in(s: &[u8], k: usize) -> u64
    ensures { result ≡ bits_in k s.now }
{
    let at = word_at(s, k);
    number_of(&s[at..], 16)
}

// ---- images

// An image as far as it is read: its length and the fields of `Part`.
#[derive(Clone, Copy)]
struct Piece {
    n: usize,
    start: usize,
    sign: u8,
    copies: u64,
    high: u8,
}

// The bytes from `from` to `to` once more, behind them. A loop, since `copy_within` costs a call for each copy, and most are short: nearly all are of
// one byte, which needs no loop.
fn copy_behind(img: &mut [u8], from: usize, to: usize)
    requires { (from ≤ to) × (to + (to - from) ≤ length img.old) }
    ensures { img.new ≡ paste img.old to (drop from img.old) (to - from) }
{
    if to - from == 1 {
        img[to] = img[from];
        return;
    }
    for j in 0..to - from {
        img[to + j] = img[from + j];
    }
}

// The copy from `at` to `end`, as its sign has it.
fn raise(img: &mut [u8], at: usize, end: usize, sign: u8)
    requires { (at ≤ end) × (end ≤ length img.old) }
    ensures { img.new ≡ take at img.old ++ copy_of sign (take (end - at) (drop at img.old)) ++ drop end img.old }
{
    if sign == b'^' {
        if 2 < end - at {
            img[at + 2] = std::num::wrapping_add_u8(img[at + 2], 1);
        }
    }
}

// The next copy of the bytes from `from` to `to`, behind them, if there is room. The answer is where it ends.
fn again(img: &mut [u8], from: usize, to: usize, sign: u8) -> usize
    requires { (from ≤ to) × (to ≤ length img.old) }
    ensures { Put img.old (grown (length img.old) (take to img.old) (copy_of sign (drop from (take to img.old)))) result img.new }
{
    if img.len() - to < to - from {
        return to;
    }
    let end = to + (to - from);
    copy_behind(&mut *img, from, to);
    raise(&mut *img, to, end, sign);
    end
}

// The copies of the last piece behind its first.
fn repeat(img: &mut [u8], p: Piece) -> usize
    requires { Stands p img.old }
    ensures { Put img.old (closed (length img.old) (part_of p img.old)) result img.new }
{
    let mut from = p.start;
    let mut to = p.n;
    for _ in 1..p.copies {
        // The last copy found no room or is of no bytes, so none follows.
        if from == to {
            return to;
        }
        let next = again(&mut *img, from, to, p.sign);
        from = to;
        to = next;
    }
    to
}

// One byte more, if there is room.
fn push(img: &mut [u8], n: usize, b: u8) -> usize
    requires { n ≤ length img.old }
    ensures { Put img.old (grown (length img.old) (take n img.old) (b ∷ [])) result img.new }
{
    if n < img.len() {
        img[n] = b;
        n + 1
    } else {
        n
    }
}

// The image with one digit more.
fn with_digit(img: &mut [u8], p: Piece, d: u8) -> Piece
    requires { Stands p img.old }
    ensures { Kept p img.old (with_digit (length img.old) (part_of p img.old) d) result img.new }
{
    let mut q = p;
    if p.sign == 0 {
        if 15 < p.high {
            q.high = d;
            return q;
        }
        q.n = push(&mut *img, p.n, p.high * 16 + d % 16);
        q.high = 16;
        return q;
    }
    q.copies = longer(10, p.copies, d);
    q
}

// The image with one byte more of its word.
fn with_byte(img: &mut [u8], p: Piece, b: u8) -> Piece
    requires { Stands p img.old }
    ensures { Kept p img.old (with_byte (length img.old) (part_of p img.old) b) result img.new }
{
    if b == b'+' {
        let n = repeat(&mut *img, p);
        return Piece {
            n,
            start: n,
            sign: 0,
            copies: 0,
            high: 16,
        };
    }
    if (b == b'*') | (b == b'^') {
        let mut q = p;
        q.sign = b;
        return q;
    }
    if b == b'-' {
        return p;
    }
    with_digit(&mut *img, p, digit_of(b))
}

// The image that a word is.
fn image_of(img: &mut [u8], word: &[u8]) -> usize
    ensures { Put img.old (image_from (length img.old) (piece []) word.now) result img.new }
{
    let mut p = Piece {
        n: 0,
        start: 0,
        sign: 0,
        copies: 0,
        high: 16,
    };
    for b in word {
        p = with_byte(&mut *img, p, *b);
    }
    repeat(&mut *img, p)
}

// Puts the image that stands behind k spaces of the line, and answers its length.
pub fn image_in(img: &mut [u8], s: &[u8], k: usize) -> usize
    ensures { Put img.old (image_in (length img.old) k s.now) result img.new }
{
    let at = word_at(s, k);
    let rest = &s[at..];
    let end = lines::space_in(rest);
    image_of(&mut *img, &rest[..end])
}
