// The check of a plan, its pages, one record and one message over lent bytes: specs/Records.antt, specs/Pages.antt and specs/Messages.antt.
#![tactic(auto)]

ghost use Rattle.std.specs.Prelude.{◌≡◌, []};
ghost use Rattle.packing.specs.Answer.{Answered, length_answer};
ghost use Rattle.plan_interface.specs.Records.{check_answer, read_answer, word_record_by, record_by, write_bytes};
ghost use Rattle.plan_interface.specs.Pages.{print_bytes};
ghost use Rattle.plan_interface.specs.Messages.{message_kind, read_message_answer, message_by, write_message_bytes};

use messages::Message;
use reader::NoRecord;
use records::Record;

// The check of a plan image.
pub fn check(image: &[u8]) -> u64
    ensures { result ≡ check_answer image.now }
{
    packing::called(checker::check(image))
}

// The kind and the length of the record at an offset.
pub fn read_record(image: &[u8], offset: usize) -> u64
    ensures { result ≡ read_answer image.now offset }
{
    match reader::read_at(image, offset) {
        Ok((r, _)) => {
            let kind = records::kind_of(r);
            packing::pack(0, 0, kind, records::size_by(kind))
        }
        Err(NoRecord::Unknown) => packing::pack(2, 0, 0, offset),
        Err(NoRecord::Cut) => packing::pack(3, 0, 0, offset),
        Err(NoRecord::Nothing) => packing::pack(3, 0, 0, image.len()),
    }
}

// The record of a kind that has a field of eight bytes, and the end record.
fn word_record_by(k: u8, a: u8, b: u8, c: u8, w: u64) -> Option<Record>
    ensures { result ≡ word_record_by k a b c w }
{
    match k {
        0x14 => Some(Record::Supervisor {
            number: a,
            states: b,
            initial: c,
            alphabet: w,
        }),
        0x16 => Some(Record::Disabling {
            supervisor: a,
            state: b,
            mask: w,
        }),
        0x17 => Some(Record::Step {
            event: a,
            index: b,
            operation: c,
            operand: w,
        }),
        0x1f => Some(Record::End),
        _ => None,
    }
}

// The record of a kind and its fields.
fn record_by(k: u8, a: u8, b: u8, c: u8, d: u8, w: u64) -> Option<Record>
    ensures { result ≡ record_by k a b c d w }
{
    match k {
        0x10 => Some(Record::Head {
            modules: a,
            supervisors: b,
            events: c,
        }),
        0x11 => Some(Record::Event {
            number: a,
            owner: b,
            class: c,
        }),
        0x12 => Some(Record::Module {
            number: a,
            states: b,
            initial: c,
        }),
        0x13 => Some(Record::ModuleMove {
            owner: a,
            from: b,
            event: c,
            to: d,
        }),
        0x15 => Some(Record::SupervisorMove {
            supervisor: a,
            from: b,
            event: c,
            to: d,
        }),
        0x18 => Some(Record::Marking { owner: a, state: b }),
        _ => word_record_by(k, a, b, c, w),
    }
}

// Writes one record from the buffer's start.
pub fn write_record(k: u8, a: u8, b: u8, c: u8, d: u8, w: u64, buffer: &mut [u8]) -> u64
    ensures { Answered (write_bytes k a b c d w buffer.old) result [] buffer.new }
{
    match record_by(k, a, b, c, d, w) {
        Some(record) => packing::written(writer::write(record, &mut *buffer)),
        None => packing::pack(5, 0, 0, 0),
    }
}

// Prints a plan from the buffer's start.
pub fn print_plan(image: &[u8], buffer: &mut [u8]) -> u64
    ensures { Answered (print_bytes image.now buffer.old) result [] buffer.new }
{
    packing::written(paper::print(image, buffer))
}

fn kind_of(g: Message) -> u8
    ensures { result ≡ message_kind g }
{
    match g {
        Message::Bid { .. } => 0x01,
        Message::Permit { .. } => 0x02,
        Message::Release { .. } => 0x03,
    }
}

// The kind and the length of a message.
pub fn read_message(bytes: &[u8]) -> u64
    ensures { result ≡ read_message_answer bytes.now }
{
    match messages::read(bytes) {
        Some(g) => packing::pack(0, 0, kind_of(g), messages::length_of(g)),
        None => packing::pack(10, 0, 0, 0),
    }
}

// The message of a kind and its fields.
fn message_by(kind: u8, first: u8, second: u8, event: u8, mask: u64) -> Option<Message>
    ensures { result ≡ message_by kind first second event mask }
{
    match kind {
        0x01 => Some(Message::Bid {
            owner: first,
            supervisor: second,
        }),
        0x02 => Some(Message::Permit {
            supervisor: first,
            owner: second,
            mask,
        }),
        0x03 => Some(Message::Release {
            owner: first,
            supervisor: second,
            event,
        }),
        _ => None,
    }
}

// Writes one message from the buffer's start.
pub fn write_message(
    kind: u8,
    first: u8,
    second: u8,
    event: u8,
    mask: u64,
    buffer: &mut [u8],
) -> u64
    ensures { Answered (write_message_bytes kind first second event mask buffer.old) result [] buffer.new }
{
    match message_by(kind, first, second, event, mask) {
        Some(g) => {
            if messages::write(g, &mut *buffer, 0) {
                return packing::pack(0, 0, 0, messages::length_of(g));
            }
            packing::pack(15, 0, 0, 0)
        }
        None => packing::pack(10, 0, 0, 0),
    }
}
