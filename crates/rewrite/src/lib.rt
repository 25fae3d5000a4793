// An accepted plan taken apart into records and written, one after another, into a lent buffer.
#![tactic(auto)]

ghost use Rattle.std.specs.Prelude.{◌≡◌, ◌++◌, true, ◌+◌, ◌≤◌, length, take, drop};
ghost use Rattle.records.specs.Kinds.{size_of};
ghost use Rattle.records.specs.Bytes.{bytes_of};
ghost use Rattle.records.specs.Range.{in_range};
ghost use Rattle.rules.specs.Check.{IsPlan};
ghost use Rattle.rewrite.specs.Rewrite.{plan_bytes, Rewrote};

use records::Record;
use refusal::Refusal;

// The record's bytes from an offset of the buffer.
fn put_at(r: Record, buf: &mut [u8], i: usize)
    requires { (in_range r ≡ true) × (i + size_of r ≤ length buf.old) }
    ensures { buf.new ≡ take i buf.old ++ bytes_of r ++ drop (i + size_of r) buf.old }
{
    let _ = writer::write(r, &mut buf[i..]);
}

// The records of an accepted plan from the buffer's start.
fn put_records(image: &[u8], buf: &mut [u8])
    requires { (IsPlan image.now) × (length image.now ≤ length buf.old) }
    ensures { buf.new ≡ plan_bytes image.now ++ drop (length image.now) buf.old }
{
    let mut i: usize = 0;
    // No `while let` over both fields: where such a pattern fails, the proof is not told that no record was read.
    loop {
        let on = walk::read_on(image, i);
        let Ok((r, _)) = on.read else {
            return;
        };
        put_at(r, &mut *buf, i);
        i = on.place;
    }
}

// Writes each record of an accepted plan: the length written, or the number and the offset. Refused images and a short buffer, number 15, leave the
// buffer as it was.
pub fn rewrite(image: &[u8], buf: &mut [u8]) -> Result<usize, Refusal>
    ensures { Rewrote image.now buf.old result buf.new }
{
    checker::check(image)?;
    if buf.len() < image.len() {
        return Err(Refusal {
            number: 15,
            offset: 0,
        });
    }
    put_records(image, &mut *buf);
    Ok(image.len())
}
