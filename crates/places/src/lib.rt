// Where the records of each kind begin in an image, and the look-up by these places: specs/Places.antt.
#![tactic(auto)]

ghost use Rattle.std.specs.Prelude.{◌≡◌, true, false, cond, suc, ◌+◌, ◌-◌, ◌*◌, ◌≤◌, ◌<◌, length, drop};
ghost use Rattle.records.specs.Kinds.{size_by};
ghost use Rattle.records.specs.Key.{key_by, key_of};
ghost use Rattle.reader.specs.Find.{find_in};
ghost use Rattle.reader.specs.Read.{record_of};
ghost use Rattle.places.specs.Places.{nowhere, place_by, noted_at, count_of, halved, onward, numbered, position_of, spot_of, records_by, moves_of};
ghost use Rattle.places.specs.Runs.{run_by, run_of, Inside, is_move, keyed, before};

use records::{Record, RecordKey};

// The offsets at which the records of each kind begin; those of a kind end where the next kind's begin. An image that is accepted is shorter
// than 65,536 bytes.
#[derive(Clone, Copy)]
pub struct Places {
    pub k11: u16,
    pub k12: u16,
    pub k13: u16,
    pub k14: u16,
    pub k15: u16,
    pub k16: u16,
    pub k17: u16,
    pub k18: u16,
    pub k1f: u16,
}

// No place noted.
pub fn nowhere() -> Places
    ensures { result ≡ nowhere }
{
    Places {
        k11: 0,
        k12: 0,
        k13: 0,
        k14: 0,
        k15: 0,
        k16: 0,
        k17: 0,
        k18: 0,
        k1f: 0,
    }
}

// The place of one kind, after a record of another kind that begins at an offset.
fn place_by(last: u8, kind: u8, at: usize, j: u8, x: u16) -> u16
    ensures { result ≡ place_by last kind at j x }
{
    if (last < j) & (j <= kind) {
        (at % 65536) as u16
    } else {
        x
    }
}

// With what is noted of a record of a kind that begins at an offset.
pub fn noted(p: Places, last: u8, kind: u8, at: usize) -> Places
    ensures { result ≡ noted_at p last kind at }
{
    Places {
        k11: place_by(last, kind, at, 0x11, p.k11),
        k12: place_by(last, kind, at, 0x12, p.k12),
        k13: place_by(last, kind, at, 0x13, p.k13),
        k14: place_by(last, kind, at, 0x14, p.k14),
        k15: place_by(last, kind, at, 0x15, p.k15),
        k16: place_by(last, kind, at, 0x16, p.k16),
        k17: place_by(last, kind, at, 0x17, p.k17),
        k18: place_by(last, kind, at, 0x18, p.k18),
        k1f: place_by(last, kind, at, 0x19, p.k1f),
    }
}

// The records of a kind: where they begin, the bytes of each, and how many there are.
#[derive(Clone, Copy)]
struct Run {
    begin: usize,
    size: usize,
    count: usize,
}

// Those of a kind between two offsets, and none where they would end past the image.
fn run_by(image: &[u8], begin: usize, end: usize, kind: u8) -> Run
    ensures { result ≡ run_by image.now begin end (size_by kind) }
{
    let size = records::size_by(kind);
    let mut count: usize = 0;
    if end <= image.len() {
        if begin <= end {
            count = (end - begin) / size;
        }
    }
    Run { begin, size, count }
}

// Those of a kind whose number is their place, and those of a kind whose keys have several numbers: small, so that with a known kind they are
// inlined.
fn numbered_run(image: &[u8], p: Places, kind: u8) -> Run
    requires { numbered kind ≡ true }
    ensures { result ≡ run_of image.now p kind }
{
    if kind == 0x11 {
        return run_by(image, p.k11 as usize, p.k12 as usize, 0x11);
    }
    if kind == 0x12 {
        return run_by(image, p.k12 as usize, p.k13 as usize, 0x12);
    }
    run_by(image, p.k14 as usize, p.k15 as usize, 0x14)
}

fn keyed_run(image: &[u8], p: Places, kind: u8) -> Run
    requires { keyed kind ≡ true }
    ensures { result ≡ run_of image.now p kind }
{
    if kind == 0x13 {
        return run_by(image, p.k13 as usize, p.k14 as usize, 0x13);
    }
    if kind == 0x15 {
        return run_by(image, p.k15 as usize, p.k16 as usize, 0x15);
    }
    if kind == 0x16 {
        return run_by(image, p.k16 as usize, p.k17 as usize, 0x16);
    }
    if kind == 0x17 {
        return run_by(image, p.k17 as usize, p.k18 as usize, 0x17);
    }
    run_by(image, p.k18 as usize, p.k1f as usize, 0x18)
}

// Those of a kind.
fn run_of(image: &[u8], p: Places, kind: u8) -> Run
    ensures { result ≡ run_of image.now p kind }
{
    if (kind == 0x11) | (kind == 0x12) | (kind == 0x14) {
        return numbered_run(image, p, kind);
    }
    if (kind == 0x13) | (kind == 0x15) | ((kind == 0x16) | ((kind == 0x17) | (kind == 0x18))) {
        return keyed_run(image, p, kind);
    }
    if kind == 0x10 {
        return run_by(image, 0, p.k11 as usize, 0x10);
    }
    if kind == 0x1f {
        return run_by(
            image,
            p.k1f as usize,
            p.k1f as usize + records::size_by(0x1f),
            0x1f,
        );
    }
    run_by(image, 0, 0, kind)
}

// How many records of a kind stand there.
pub fn count(image: &[u8], p: Places, kind: u8) -> usize
    ensures { result ≡ count_of image.now p kind }
{
    run_of(image, p, kind).count
}

// Where the body of the i-th record of a run of a kind begins.
fn body_at(image: &[u8], run: Run, kind: u8, i: usize) -> usize
    requires { Inside image.now run kind × (i < run.count) }
    ensures { result ≡ suc (run.begin + i * run.size) }
{
    run.begin + i * run.size + 1
}

// ---- the look-up

// The key of the record, of a kind whose keys have several numbers, whose body begins at an offset.
fn key_in(image: &[u8], kind: u8, at: usize) -> RecordKey
    requires { (keyed kind ≡ true) × (at + 2 ≤ length image.now) × (is_move kind ≡ true → at + 3 ≤ length image.now) }
    ensures { result ≡ key_of (record_of kind (drop at image.now)) }
{
    let first = image[at];
    let second = image[at + 1];
    if (kind == 0x13) | (kind == 0x15) {
        let third = image[at + 2];
        return RecordKey {
            kind,
            first,
            second,
            third,
        };
    }
    RecordKey {
        kind,
        first,
        second,
        third: 0,
    }
}

// Whether the i-th record of a run precedes a key.
fn precedes_at(image: &[u8], run: Run, key: RecordKey, i: usize) -> bool
    requires { Inside image.now run key.kind × (keyed key.kind ≡ true) × (i < run.count) }
    ensures { result ≡ before image.now run key i }
{
    let at = body_at(image, run, key.kind, i);
    records::precedes(key_in(image, key.kind, at), key)
}

// Of the records of a run, in the order of keys, the number of the first that does not precede a key.
fn halve(image: &[u8], run: Run, key: RecordKey) -> usize
    requires { Inside image.now run key.kind × (keyed key.kind ≡ true) }
    ensures { (result ≡ halved (before image.now run key) run.count 0 run.count) × (result ≤ run.count) }
{
    // The records stand as bytes of a size that only their kind tells, so that there is no slice of keys for partition_point to halve.
    let mut lo: usize = 0;
    let mut hi = run.count;
    while lo < hi {
        let mid = lo + (hi - lo) / 2;
        if precedes_at(image, run, key, mid) {
            lo = mid + 1;
        } else {
            hi = mid;
        }
    }
    lo
}

// The same from a record on, one after the other.
fn go_on(image: &[u8], run: Run, key: RecordKey, from: usize) -> usize
    requires { Inside image.now run key.kind × (keyed key.kind ≡ true) × (from ≤ run.count) }
    ensures { result ≡ onward (before image.now run key) (run.count - from) from }
{
    for i in from..run.count {
        if !precedes_at(image, run, key, i) {
            return i;
        }
    }
    run.count
}

// The place of the record with a key of several numbers among those of its kind.
fn keyed_place(image: &[u8], p: Places, run: Run, key: RecordKey) -> usize
    requires { (keyed key.kind ≡ true) × (run ≡ run_of image.now p key.kind) }
    ensures { result ≡ position_of image.now p key }
{
    let least = RecordKey {
        kind: key.kind,
        first: key.first,
        second: key.second,
        third: 0,
    };
    let first = halve(image, run, least);
    go_on(image, run, key, first)
}

// Where the body of that record begins, or 0.
fn seek_keyed(image: &[u8], p: Places, key: RecordKey) -> usize
    requires { keyed key.kind ≡ true }
    ensures { result ≡ spot_of image.now p key }
{
    let run = keyed_run(image, p, key.kind);
    let i = keyed_place(image, p, run, key);
    if run.count <= i {
        return 0;
    }
    let at = body_at(image, run, key.kind, i);
    if records::same_key(key_in(image, key.kind, at), key) {
        at
    } else {
        0
    }
}

// Of the other kinds a record stands at its number or, where no key has a number, at the first place.
fn place_of(key: RecordKey) -> usize
    ensures { result ≡ cond (numbered key.kind) key.first 0 }
{
    let kind = key.kind;
    if (kind == 0x11) | (kind == 0x12) | (kind == 0x14) {
        words::wide(key.first)
    } else {
        0
    }
}

fn seek_other(image: &[u8], p: Places, key: RecordKey) -> usize
    requires { keyed key.kind ≡ false }
    ensures { result ≡ spot_of image.now p key }
{
    let run = run_of(image, p, key.kind);
    let i = place_of(key);
    if run.count <= i {
        return 0;
    }
    let at = body_at(image, run, key.kind, i);
    if records::same_key(reader::key_at(key.kind, image, at), key) {
        at
    } else {
        0
    }
}

// Where the body of the record with a kind and key begins, or 0 if it is not there.
pub fn seek(image: &[u8], p: Places, key: RecordKey) -> usize
    ensures { result ≡ spot_of image.now p key }
{
    let kind = key.kind;
    if (kind == 0x13) | (kind == 0x15) | ((kind == 0x16) | ((kind == 0x17) | (kind == 0x18))) {
        return seek_keyed(image, p, key);
    }
    seek_other(image, p, key)
}

// The record with a kind and key, found by its place.
pub fn look(image: &[u8], p: Places, key: RecordKey) -> Option<Record>
    ensures { result ≡ find_in key (records_by image.now p) }
{
    let at = seek(image, p, key);
    if at == 0 {
        None
    } else {
        Some(reader::record_of(key.kind, image, at))
    }
}

// The record, of a kind whose number is its place, whose body begins at an offset: small, so that with a known kind it is inlined.
fn numbered_record(image: &[u8], kind: u8, at: usize) -> Record
    requires { (numbered kind ≡ true) × (at + 3 ≤ length image.now) }
    ensures { result ≡ record_of kind (drop at image.now) }
{
    let number = image[at];
    let second = image[at + 1];
    let third = image[at + 2];
    if kind == 0x11 {
        return Record::Event {
            number,
            owner: second,
            class: third,
        };
    }
    if kind == 0x12 {
        return Record::Module {
            number,
            states: second,
            initial: third,
        };
    }
    let alphabet = words::word_at(image, at + 3);
    Record::Supervisor {
        number,
        states: second,
        initial: third,
        alphabet,
    }
}

// The record with a kind and a number, where the number is the place.
fn look_at_number(image: &[u8], p: Places, kind: u8, first: u8) -> Option<Record>
    requires { numbered kind ≡ true }
    ensures { result ≡ find_in (key_by kind first 0 0) (records_by image.now p) }
{
    let run = numbered_run(image, p, kind);
    let n = words::wide(first);
    if run.count <= n {
        return None;
    }
    let at = body_at(image, run, kind, n);
    if image[at] == first {
        Some(numbered_record(image, kind, at))
    } else {
        None
    }
}

// The head, which has no key, is the first of its kind.
fn look_head(image: &[u8], p: Places, first: u8) -> Option<Record>
    ensures { result ≡ find_in (key_by 0x10 first 0 0) (records_by image.now p) }
{
    if 0 < first {
        return None;
    }
    if run_of(image, p, 0x10).count == 0 {
        return None;
    }
    Some(reader::record_of(0x10, image, 1))
}

// The same where the key is one number: of an event, a module or a supervisor it is the place itself.
pub fn look_number(image: &[u8], p: Places, kind: u8, first: u8) -> Option<Record>
    ensures { result ≡ find_in (key_by kind first 0 0) (records_by image.now p) }
{
    if (kind == 0x11) | (kind == 0x12) | (kind == 0x14) {
        return look_at_number(image, p, kind, first);
    }
    if kind == 0x10 {
        return look_head(image, p, first);
    }
    let key = RecordKey {
        kind,
        first,
        second: 0,
        third: 0,
    };
    look(image, p, key)
}

// The events by which a module has a move from a state. Its moves stand one after the other; `floor` is the rank of the least key that
// may still be found.
pub fn moves_of(image: &[u8], p: Places, owner: u8, from: u8) -> u64
    ensures { result ≡ moves_of (records_by image.now p) owner from }
{
    let run = keyed_run(image, p, 0x13);
    let least = RecordKey {
        kind: 0x13,
        first: owner,
        second: from,
        third: 0,
    };
    let mut floor = records::rank(least);
    let most = floor + 255;
    let mut mask: u64 = 0;
    for i in halve(image, run, least)..run.count {
        let at = body_at(image, run, 0x13, i);
        let key = key_in(image, 0x13, at);
        let rank = records::rank(key);
        if most < rank {
            return mask;
        }
        if floor <= rank {
            mask = bits::put(mask, key.third, true);
            floor = rank + 1;
        }
    }
    mask
}
