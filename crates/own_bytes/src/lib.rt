// A module's own part in the bytes of a state: specs/Own.antt.
#![tactic(auto)]

ghost use Rattle.std.specs.Prelude.{◌≡◌, ◌+◌, ◌≤◌, length};
ghost use Rattle.std.proofs.lemmas.List.Edits.{sets};
ghost use Rattle.messages.specs.Message.{put_at};
ghost use Rattle.fields.specs.Fields.{bytes_from, float_at};
ghost use Rattle.own_bytes.specs.Own.{own_size, procedure_bytes, own_bytes, procedure_of, own_of, is_own, unfit_own, own_read, own_stands};

use modules::{Own, Procedure};
use water::Water;

// The bytes of an own part: `own_size` of the specs.
pub const OWN_SIZE: usize = 35;

// ---- an own part read

fn queue_of(s: &[u8]) -> [u8; 8]
    ensures { result ≡ bytes_from s.now 2 8 }
{
    let a = words::byte_at(s, 2);
    let b = words::byte_at(s, 3);
    let c = words::byte_at(s, 4);
    let d = words::byte_at(s, 5);
    let e = words::byte_at(s, 6);
    let f = words::byte_at(s, 7);
    let g = words::byte_at(s, 8);
    let h = words::byte_at(s, 9);
    [a, b, c, d, e, f, g, h]
}

fn water_of(s: &[u8]) -> Water
    ensures { result ≡ record { target = float_at s.now 15; total = float_at s.now 23 } }
{
    let target = fields::float_at(s, 15);
    let total = fields::float_at(s, 23);
    Water { target, total }
}

fn procedure_of(s: &[u8]) -> Procedure
    ensures { result ≡ procedure_of s.now }
{
    let flag = words::byte_at(s, 10);
    let event = words::byte_at(s, 11);
    let index = words::byte_at(s, 12);
    let count = fields::half_at(s, 13);
    let water = water_of(s);
    Procedure {
        running: flag == 1,
        event,
        index,
        count,
        water,
    }
}

fn own_in(s: &[u8]) -> Own
    ensures { result ≡ own_of s.now }
{
    let state = words::byte_at(s, 0);
    let length = words::byte_at(s, 1);
    let queue = queue_of(s);
    let procedure = procedure_of(s);
    let outputs = words::quad_at(s, 31);
    Own {
        state,
        queue,
        length,
        procedure,
        outputs,
    }
}

// The own part that the bytes are, by their offsets; one that fits no plan, if they are too few. It is read from a slice of just its bytes, so that
// the compiler need not ask for each whether it is there.
pub fn own_of(s: &[u8]) -> Own
    ensures { result ≡ own_read s.now }
{
    if s.len() < OWN_SIZE {
        return unfit();
    }
    own_in(&s[0..OWN_SIZE])
}

fn is_own_in(s: &[u8]) -> bool
    ensures { result ≡ is_own s.now }
{
    (words::byte_at(s, 10) < 2) & fields::is_float(s, 15) & fields::is_float(s, 23)
}

// Whether they stand for one.
pub fn is_own(s: &[u8]) -> bool
    ensures { result ≡ own_stands s.now }
{
    if s.len() < OWN_SIZE {
        return false;
    }
    is_own_in(&s[0..OWN_SIZE])
}

// ---- an own part written

fn put_procedure(s: &mut [u8], o: usize, p: Procedure)
    requires { o + 21 ≤ length s.old }
    ensures { s.new ≡ sets s.old o (procedure_bytes p) }
{
    let head = [fields::flag_of(p.running), p.event, p.index];
    words::put_bytes(&mut *s, o, &head);
    fields::put_half(&mut *s, o + 3, p.count);
    fields::put_float(&mut *s, o + 5, p.water.target);
    fields::put_float(&mut *s, o + 13, p.water.total);
}

fn put_own_in(s: &mut [u8], o: usize, own: Own)
    requires { o + own_size ≤ length s.old }
    ensures { s.new ≡ sets s.old o (own_bytes own) }
{
    let queue = own.queue;
    let procedure = own.procedure;
    words::put_bytes(&mut *s, o, &[own.state, own.length]);
    words::put_bytes(&mut *s, o + 2, &queue);
    put_procedure(&mut *s, o + 10, procedure);
    words::put_quad(&mut *s, o + 31, own.outputs);
}

// Puts the bytes of an own part at an index, if there is room for all; else the slice stays.
pub fn put_own(s: &mut [u8], o: usize, own: Own)
    ensures { s.new ≡ put_at (own_bytes own) o s.old }
{
    if OWN_SIZE <= s.len() {
        if o <= s.len() - OWN_SIZE {
            put_own_in(&mut *s, o, own);
        }
    }
}

// An own part that fits no plan.
pub fn unfit() -> Own
    ensures { result ≡ unfit_own }
{
    let mut own = modules::empty();
    own.length = 255;
    own
}
