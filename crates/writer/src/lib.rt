// The writer of one record into a lent buffer.
#![tactic(auto)]

ghost use Rattle.std.specs.Prelude.{◌≡◌, ◌≤◌, length};
ghost use Rattle.std.proofs.lemmas.List.Edits.{sets};
ghost use Rattle.records.specs.Kinds.{size_of};
ghost use Rattle.records.specs.Bytes.{bytes_of};
ghost use Rattle.writer.specs.Write.{Wrote};

use records::Record;
use refusal::Refusal;

// The record's bytes from the slice's start.
fn put_record(r: Record, s: &mut [u8])
    requires { size_of r ≤ length s.old }
    ensures { s.new ≡ sets s.old 0 (bytes_of r) }
{
    match r {
        Record::Head {
            modules,
            supervisors,
            events,
        } => words::put_bytes(s, 0, &[0x10, modules, supervisors, events]),
        Record::Event {
            number,
            owner,
            class,
        } => words::put_bytes(s, 0, &[0x11, number, owner, class]),
        Record::Module {
            number,
            states,
            initial,
        } => words::put_bytes(s, 0, &[0x12, number, states, initial]),
        Record::ModuleMove {
            owner,
            from,
            event,
            to,
        } => words::put_bytes(s, 0, &[0x13, owner, from, event, to]),
        Record::Supervisor {
            number,
            states,
            initial,
            alphabet,
        } => {
            words::put_bytes(&mut *s, 0, &[0x14, number, states, initial]);
            words::put_word(&mut *s, 4, alphabet);
        }
        Record::SupervisorMove {
            supervisor,
            from,
            event,
            to,
        } => words::put_bytes(s, 0, &[0x15, supervisor, from, event, to]),
        Record::Disabling {
            supervisor,
            state,
            mask,
        } => {
            words::put_bytes(&mut *s, 0, &[0x16, supervisor, state]);
            words::put_word(&mut *s, 3, mask);
        }
        Record::Step {
            event,
            index,
            operation,
            operand,
        } => {
            words::put_bytes(&mut *s, 0, &[0x17, event, index, operation]);
            words::put_word(&mut *s, 4, operand);
        }
        Record::Marking { owner, state } => words::put_bytes(s, 0, &[0x18, owner, state]),
        Record::End => words::put_bytes(s, 0, &[0x1f]),
    }
}

// Writes one record from the buffer's start: the length written, or the number, 5 or 15, and the offset, 0.
pub fn write(r: Record, buf: &mut [u8]) -> Result<usize, Refusal>
    ensures { Wrote r buf.old result buf.new }
{
    if records::in_range(r) {
        let n = records::size_by(records::kind_of(r));
        if buf.len() < n {
            return Err(Refusal {
                number: 15,
                offset: 0,
            });
        }
        put_record(r, &mut *buf);
        Ok(n)
    } else {
        Err(Refusal {
            number: 5,
            offset: 0,
        })
    }
}
