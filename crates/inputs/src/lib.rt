// What the programs read by: a buffer filled from a file or from standard input.
#![tactic(auto)]

ghost use Rattle.std.specs.Prelude.{◌≤◌, length, take};
ghost use Rattle.std.specs.Io.KnownBytes.{Consumes};

use std::io::Read;

// Reads until the buffer is full, the input ends or a read fails. The answer is how many bytes were put at the buffer's start: those that the input
// had next.
pub fn read_full<R: Read>(input: &mut R, buf: &mut [u8]) -> usize
    ensures bound { result ≤ length buf.new }
    ensures bytes { Consumes (R.remaining input.old) (R.remaining input.new) (take result buf.new) }
{
    let mut done: usize = 0;
    // Each turn goes on by as many bytes as a read brought, so no `for` or chain counts this index, and std's read_exact and read_to_end say
    // little after an error.
    while done < buf.len() {
        match input.read(&mut buf[done..]) {
            Ok(0) => return done,
            Ok(n) => done += n,
            Err(_) => return done,
        }
    }
    done
}
