// The reader of records by slice and offset.
#![tactic(auto)]

ghost use Rattle.std.specs.Prelude.{◌≡◌, ◌≤◌, length, drop};
ghost use Rattle.records.specs.Key.{key_by, key_of};
ghost use Rattle.reader.specs.Read.{record_of, shape_at, stop_number, ReadsAs};

use records::{Record, RecordKey};

// The offset, or the length where the offset is past the end.
fn within(s: &[u8], b: usize) -> usize
    ensures { (result ≤ length s.now) × (drop result s.now ≡ drop b s.now) }
{
    if b <= s.len() { b } else { s.len() }
}

// The record of a kind of the table whose body begins at an offset of the slice; bytes past the end count as 0.
pub fn record_of(kind: u8, s: &[u8], b: usize) -> Record
    ensures { result ≡ record_of kind (drop b s.now) }
{
    let b = within(s, b);
    let f0 = words::byte_at(s, b);
    let f1 = words::byte_at(s, b + 1);
    let f2 = words::byte_at(s, b + 2);
    match kind {
        0x10 => Record::Head {
            modules: f0,
            supervisors: f1,
            events: f2,
        },
        0x11 => Record::Event {
            number: f0,
            owner: f1,
            class: f2,
        },
        0x12 => Record::Module {
            number: f0,
            states: f1,
            initial: f2,
        },
        0x13 => {
            let f3 = words::byte_at(s, b + 3);
            Record::ModuleMove {
                owner: f0,
                from: f1,
                event: f2,
                to: f3,
            }
        }
        0x14 => {
            let x = words::word_at(s, b + 3);
            Record::Supervisor {
                number: f0,
                states: f1,
                initial: f2,
                alphabet: x,
            }
        }
        0x15 => {
            let f3 = words::byte_at(s, b + 3);
            Record::SupervisorMove {
                supervisor: f0,
                from: f1,
                event: f2,
                to: f3,
            }
        }
        0x16 => {
            let x = words::word_at(s, b + 2);
            Record::Disabling {
                supervisor: f0,
                state: f1,
                mask: x,
            }
        }
        0x17 => {
            let x = words::word_at(s, b + 3);
            Record::Step {
                event: f0,
                index: f1,
                operation: f2,
                operand: x,
            }
        }
        0x18 => Record::Marking {
            owner: f0,
            state: f1,
        },
        _ => Record::End,
    }
}

// Why no whole record stands at an offset: an unknown kind, a cut body, or no byte.
#[derive(Clone, Copy, Debug, PartialEq, Eq)]
pub enum NoRecord {
    Unknown,
    Cut,
    Nothing,
}

// Document 01's number of what is no record.
pub fn number_of(why: NoRecord) -> u8
    ensures { result ≡ stop_number why }
{
    match why {
        NoRecord::Unknown => 2,
        NoRecord::Cut => 3,
        NoRecord::Nothing => 3,
    }
}

// Where a record stands at an offset, its kind and the offsets of its body and of what follows it, for a caller that reads fields where they stand.
pub fn shape_at(s: &[u8], at: usize) -> Result<(u8, usize, usize), NoRecord>
    ensures { result ≡ shape_at s.now at }
{
    if s.len() <= at {
        return Err(NoRecord::Nothing);
    }
    let k = s[at];
    let n = records::body_len(k);
    if n == records::NO_LEN {
        return Err(NoRecord::Unknown);
    }
    let m = words::wide(n);
    let b = at + 1;
    if m <= s.len() - b {
        Ok((k, b, b + m))
    } else {
        Err(NoRecord::Cut)
    }
}

// The record that stands at an offset, and the next offset.
pub fn read_at(s: &[u8], at: usize) -> Result<(Record, usize), NoRecord>
    ensures { ReadsAs s.now at result }
{
    let (kind, body, next) = shape_at(s, at)?;
    Ok((record_of(kind, s, body), next))
}

fn key_by(kind: u8, first: u8, second: u8, third: u8) -> RecordKey
    ensures { result ≡ key_by kind first second third }
{
    RecordKey {
        kind,
        first,
        second,
        third,
    }
}

// The key of the record that `record_of` gives.
pub fn key_at(kind: u8, s: &[u8], b: usize) -> RecordKey
    ensures { result ≡ key_of (record_of kind (drop b s.now)) }
{
    let b = within(s, b);
    let first = words::byte_at(s, b);
    let second = words::byte_at(s, b + 1);
    let third = words::byte_at(s, b + 2);
    match kind {
        0x10 => key_by(0x10, 0, 0, 0),
        0x11 => key_by(0x11, first, 0, 0),
        0x12 => key_by(0x12, first, 0, 0),
        0x13 => key_by(0x13, first, second, third),
        0x14 => key_by(0x14, first, 0, 0),
        0x15 => key_by(0x15, first, second, third),
        0x16 => key_by(0x16, first, second, 0),
        0x17 => key_by(0x17, first, second, 0),
        0x18 => key_by(0x18, first, second, 0),
        _ => key_by(0x1f, 0, 0, 0),
    }
}
