// A plan on paper: a line for each record, 60 lines to a page, written into a lent buffer. specs/Paper.antt says what stands in a line.
#![tactic(auto)]

ghost use Rattle.std.specs.Prelude.{◌≡◌, [], ◌∷◌, ◌+◌, ◌*◌, ◌≤◌, length, drop, leb};
ghost use Rattle.std.proofs.lemmas.List.Edits.{sets};
ghost use Rattle.reader.specs.Read.{record_of, shape_at};
ghost use Rattle.reader.specs.Walk.{records_of};
ghost use Rattle.paper.specs.Paper.{left, name_of, byte_column, byte_columns, word_column, line_of, lines_of, blank_line, blank_lines, lacking};
ghost use Rattle.paper.specs.Put.{given, listed, byte_count, words_in, Taken, Known};
ghost use Rattle.paper.specs.Print.{PagesAs};

use reader::NoRecord;
use refusal::Refusal;

// The fields of a record by their columns: the first `count` of the four bytes, and the word if it is `wide`.
#[derive(Clone, Copy)]
struct Fields {
    count: usize,
    first: u8,
    second: u8,
    third: u8,
    fourth: u8,
    wide: bool,
    word: u64,
}

// How many fields of one byte a body of so many bytes begins with: one of 8 or more ends in a word.
fn byte_count(size: usize) -> usize
    ensures { result ≡ byte_count size }
{
    if 8 <= size { size - 8 } else { size }
}

// The word of such a body, and 0 where it has none.
fn word_in(size: usize, image: &[u8], b: usize) -> u64
    requires { b + size ≤ length image.now }
    ensures { given (leb 8 size) result ≡ words_in size (drop b image.now) }
{
    if 8 <= size {
        words::word_at(image, b + (size - 8))
    } else {
        0
    }
}

// The fields of such a body, read where they stand.
fn fields_at(size: usize, image: &[u8], b: usize) -> Fields
    requires { b + size ≤ length image.now }
    ensures { Taken size (drop b image.now) result }
{
    let count = byte_count(size);
    let word = word_in(size, image, b);
    let first = words::byte_at(image, b);
    let second = words::byte_at(image, b + 1);
    let third = words::byte_at(image, b + 2);
    let fourth = words::byte_at(image, b + 3);
    Fields {
        count,
        first,
        second,
        third,
        fourth,
        wide: 8 <= size,
        word,
    }
}

// Puts the column of a kind's name.
fn put_name(kind: u8, buf: &mut [u8], o: usize)
    requires { o + 16 ≤ length buf.old }
    ensures { buf.new ≡ sets buf.old o (left 16 (name_of kind)) }
{
    match kind {
        0x10 => words::put_bytes(buf, o, b"head            "),
        0x11 => words::put_bytes(buf, o, b"event           "),
        0x12 => words::put_bytes(buf, o, b"module          "),
        0x13 => words::put_bytes(buf, o, b"module move     "),
        0x14 => words::put_bytes(buf, o, b"supervisor      "),
        0x15 => words::put_bytes(buf, o, b"supervisor move "),
        0x16 => words::put_bytes(buf, o, b"disabling       "),
        0x17 => words::put_bytes(buf, o, b"procedure step  "),
        0x18 => words::put_bytes(buf, o, b"marking         "),
        0x1f => words::put_bytes(buf, o, b"end             "),
        _ => words::put_bytes(buf, o, b"                "),
    }
}

// A byte at the right of its column.
fn byte_column_of(n: u8) -> [u8; 6]
    ensures { result ≡ byte_column (n ∷ []) }
{
    let b = b' ';
    if n < 10 {
        return [b, b, b, b, b, b'0' + n];
    }
    let unit = b'0' + n % 10;
    let tens = n / 10;
    if n < 100 {
        return [b, b, b, b, b'0' + tens, unit];
    }
    [b, b, b, b'0' + tens / 10, b'0' + tens % 10, unit]
}

// Puts the column of a field, a blank one where there is none.
fn put_byte_column(has: bool, n: u8, buf: &mut [u8], o: usize)
    requires { o + 6 ≤ length buf.old }
    ensures { buf.new ≡ sets buf.old o (byte_column (given has n)) }
{
    if has {
        words::put_bytes(buf, o, &byte_column_of(n));
    } else {
        words::put_bytes(buf, o, b"      ");
    }
}

// Puts the four columns of one byte.
fn put_byte_columns(f: Fields, buf: &mut [u8], o: usize)
    requires { o + 24 ≤ length buf.old }
    ensures { (buf.new ≡ sets buf.old o (byte_columns 4 (listed f))) × (length (byte_columns 4 (listed f)) ≡ 24) }
{
    put_byte_column(0 < f.count, f.first, &mut *buf, o);
    put_byte_column(1 < f.count, f.second, &mut *buf, o + 6);
    put_byte_column(2 < f.count, f.third, &mut *buf, o + 12);
    put_byte_column(3 < f.count, f.fourth, &mut *buf, o + 18);
}

// A word's 16 digits at the right of its column, filled from the last one on.
fn word_column_of(x: u64) -> [u8; 32]
    ensures { result ≡ word_column (x ∷ []) }
{
    let mut column = [b' '; 32];
    let mut rest = x;
    for i in (16..32).rev() {
        column[i] = lines::hex_digit((rest % 16) as u8);
        rest = rest / 16;
    }
    column
}

// Puts the column of a word, a blank one where there is none.
fn put_word_column(has: bool, x: u64, buf: &mut [u8], o: usize)
    requires { o + 32 ≤ length buf.old }
    ensures { buf.new ≡ sets buf.old o (word_column (given has x)) }
{
    if has {
        words::put_bytes(buf, o, &word_column_of(x));
    } else {
        words::put_bytes(buf, o, b"                                ");
    }
}

// Puts the line of a record of a kind whose body, of so many bytes, stands at an offset of the image.
fn put_line(kind: u8, size: usize, image: &[u8], b: usize, line: &mut [u8])
    requires { (Known kind size) × (b + size ≤ length image.now) × (73 ≤ length line.old) }
    ensures { line.new ≡ sets line.old 0 (line_of (record_of kind (drop b image.now))) }
{
    let f = fields_at(size, image, b);
    put_name(kind, &mut *line, 0);
    put_byte_columns(f, &mut *line, 16);
    put_word_column(f.wide, f.word, &mut *line, 40);
    line[72] = b'\n';
}

// What stands at an offset, first tried as one more record of a kind, so that a run of them is passed without a look-up of each body's length.
fn shape_after(
    kind: u8,
    size: usize,
    image: &[u8],
    at: usize,
) -> Result<(u8, usize, usize), NoRecord>
    requires { Known kind size }
    ensures { result ≡ shape_at image.now at }
{
    if at < image.len() {
        if image[at] == kind {
            let b = at + 1;
            if size <= image.len() - b {
                return Ok((kind, b, b + size));
            }
        }
    }
    reader::shape_at(image, at)
}

// Puts the lines of all records that can be read, from the buffer's start. The kind is that of the record before, at first the end record's.
fn put_lines(image: &[u8], buf: &mut [u8])
    requires { 73 * length (records_of image.now) ≤ length buf.old }
    ensures { buf.new ≡ sets buf.old 0 (lines_of (records_of image.now)) }
{
    let mut i: usize = 0;
    let mut o: usize = 0;
    let mut kind: u8 = 0x1f;
    let mut size: usize = 0;
    while let Ok((k, b, next)) = shape_after(kind, size, image, i) {
        kind = k;
        size = next - b;
        put_line(k, size, image, b, &mut buf[o..o + 73]);
        i = next;
        o += 73;
    }
}

fn blank_line() -> [u8; 73]
    ensures { result ≡ blank_line }
{
    let mut line = [b' '; 73];
    line[72] = b'\n';
    line
}

// Puts so many blank lines from an offset on.
fn put_blank_lines(n: usize, buf: &mut [u8], from: usize)
    requires { from + 73 * n ≤ length buf.old }
    ensures { buf.new ≡ sets buf.old from (blank_lines n) }
{
    for i in 0..n {
        words::put_bytes(&mut *buf, from + 73 * i, &blank_line());
    }
}

// How many records can be read, by the same walk.
fn count_of(image: &[u8]) -> usize
    ensures { (result ≡ length (records_of image.now)) × (result ≤ length image.now) }
{
    let mut n: usize = 0;
    let mut i: usize = 0;
    let mut kind: u8 = 0x1f;
    let mut size: usize = 0;
    while let Ok((k, b, next)) = shape_after(kind, size, image, i) {
        kind = k;
        size = next - b;
        n += 1;
        i = next;
    }
    n
}

// How many lines the last page lacks behind n lines.
fn lacking_of(n: usize) -> usize
    ensures { (result ≡ lacking n) × (result ≤ 60) }
{
    (60 - n % 60) % 60
}

// Prints an accepted plan: the length written, or the number and the offset. A refused image, and a buffer shorter than the page set, number 15, leave
// the buffer as it was.
pub fn print(image: &[u8], buf: &mut [u8]) -> Result<usize, Refusal>
    ensures { PagesAs image.now buf.old result buf.new }
{
    checker::check(image)?;
    let lines = count_of(image);
    let blank = lacking_of(lines);
    let size = (lines + blank) * 73;
    if buf.len() < size {
        return Err(Refusal {
            number: 15,
            offset: 0,
        });
    }
    put_lines(image, &mut *buf);
    put_blank_lines(blank, &mut *buf, lines * 73);
    Ok(size)
}
