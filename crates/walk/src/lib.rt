// A reader over a plan image that keeps its place between records. `read_on`, which takes and gives plain data, serves the callers.
#![tactic(auto)]

ghost use Rattle.std.specs.Prelude.{◌≡◌};
ghost use Rattle.walk.specs.Place.{place_after, started, Moved, ReadsOn};

use reader::NoRecord;
use records::Record;

#[derive(Clone, Copy)]
pub struct Reader<'a> {
    pub image: &'a [u8],
    pub offset: usize,
}

// A reader at the image's start.
pub fn new<'a>(image: &'a [u8]) -> Reader<'a>
    ensures { result ≡ started image.entry }
{
    Reader { image, offset: 0 }
}

fn place_after(read: Result<(Record, usize), NoRecord>, offset: usize) -> usize
    ensures { result ≡ place_after offset read }
{
    match read {
        Ok((_, next)) => next,
        Err(_) => offset,
    }
}

// What stands at the reader's place. A whole record leaves it at the next one.
pub fn next<'s, 'a>(r: &'s mut Reader<'a>) -> Result<(Record, usize), NoRecord>
    ensures { Moved r.old result r.new }
{
    let at = r.offset;
    let read = reader::read_at(r.image, at);
    r.offset = place_after(read, at);
    read
}

// The reader's place.
pub fn place<'a>(r: Reader<'a>) -> usize
    ensures { result ≡ r.entry.offset }
{
    r.offset
}

// What stands at an offset of an image, and the place of a reader that has read it.
#[derive(Clone, Copy)]
pub struct PlacedRead {
    pub read: Result<(Record, usize), NoRecord>,
    pub place: usize,
}

pub fn read_on(image: &[u8], offset: usize) -> PlacedRead
    ensures { ReadsOn image.now offset result }
{
    let mut r = new(image);
    r.offset = offset;
    let read = next(&mut r);
    let place = place(r);
    PlacedRead { read, place }
}
