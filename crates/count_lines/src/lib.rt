// The lines in which counts are printed: specs/Lines.antt says what stands in them. Their length is found before anything is written, and they are
// written from the last byte to the first.
#![tactic(auto)]

ghost use Rattle.std.specs.Prelude.{◌≡◌, ◌≤◌, ◌<◌, length, get_or};
ghost use Rattle.words.specs.Word.{written};
ghost use Rattle.count_lines.specs.Lines.{number_line, lines_with_sum, by_numbers, Prints};
ghost use Rattle.count_lines.specs.Post.{Measures, Puts};

// The count that the number at an index says; one that is missing is 0.
fn count_at(counts: &[u64], numbers: &[u16], j: usize) -> u64
    requires { j < length numbers.now }
    ensures { result ≡ get_or counts.now (get_or numbers.now j 0) 0 }
{
    counts.get(usize::from(numbers[j])).copied().unwrap_or(0)
}

// How many bytes a number's line has: its last digit and the line feed, and the digits before. The digits themselves end this loop and that of
// `put_line`, so a range would only say their number a second time.
fn line_length(x: u64) -> usize
    ensures { result ≡ length (number_line x) }
{
    let mut rest = x;
    let mut n: usize = 2;
    while 10 <= rest {
        rest /= 10;
        n += 1;
    }
    n
}

// How many bytes the text has, if there is room for them: each line is taken off the room, so that nothing overflows.
fn measure(counts: &[u64], numbers: &[u16], sum: u64, room: usize) -> Option<usize>
    ensures { Measures (lines_with_sum (by_numbers counts.now numbers.now) sum) room result }
{
    let last = line_length(sum);
    if room < last {
        return None;
    }
    let mut left = room - last;
    for j in 0..numbers.len() {
        let n = line_length(count_at(counts, numbers, j));
        if left < n {
            return None;
        }
        left -= n;
    }
    Some(room - left)
}

// Writes a number's line so that it ends at an index. Where it begins.
fn put_line(buffer: &mut [u8], end: usize, x: u64) -> usize
    requires { (length (number_line x) ≤ end) × (end ≤ length buffer.old) }
    ensures { Puts x end buffer.old result buffer.new }
{
    let mut at = end - 1;
    buffer[at] = b'\n';
    let mut rest = x;
    while 10 <= rest {
        at -= 1;
        buffer[at] = b'0' + (rest % 10) as u8;
        rest /= 10;
    }
    at -= 1;
    buffer[at] = b'0' + rest as u8;
    at
}

// Writes the text, whose length is n.
fn put_text(counts: &[u64], numbers: &[u16], sum: u64, n: usize, buffer: &mut [u8])
    requires { (n ≡ length (lines_with_sum (by_numbers counts.now numbers.now) sum)) × (n ≤ length buffer.old) }
    ensures { buffer.new ≡ written (lines_with_sum (by_numbers counts.now numbers.now) sum) buffer.old }
{
    let mut at = put_line(&mut *buffer, n, sum);
    for j in (0..numbers.len()).rev() {
        at = put_line(&mut *buffer, at, count_at(counts, numbers, j));
    }
}

// The counts in the order that the numbers say, then the sum, one number a line: the bytes written, or None if the buffer is shorter than the lines.
pub fn print(counts: &[u64], numbers: &[u16], sum: u64, buffer: &mut [u8]) -> Option<usize>
    ensures { Prints (lines_with_sum (by_numbers counts.now numbers.now) sum) buffer.old result buffer.new }
{
    match measure(counts, numbers, sum, buffer.len()) {
        Some(n) => {
            put_text(counts, numbers, sum, n, buffer);
            Some(n)
        }
        None => None,
    }
}
