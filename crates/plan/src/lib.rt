// Look-ups on a plan: specs/Plan.antt. They take any bytes and any places, and go by the record that is found there.
#![tactic(auto)]

ghost use Rattle.std.specs.Prelude.{◌≡◌, true};
ghost use Rattle.places.specs.Places.{records_by};
ghost use Rattle.places.specs.Runs.{is_move};
ghost use Rattle.records.specs.Key.{key_by};
ghost use Rattle.reader.specs.Find.{find_in};
ghost use Rattle.rules.specs.LookUp.{modules_of, supervisors_of, events_of, module_state, supervisor_state, owner_of, controllable, alphabet_of};
ghost use Rattle.plan.specs.Plan.{target, module_initial, supervisor_initial, own_event, own_uncontrollable, in_alphabet, shown, module_move, supervisor_moved, supervisor_after, procedure_step};
ghost use Rattle.plan.specs.Fields.{fields_of, FieldsFound};

use places::Places;
use records::{Record, RecordKey};

// The first fields of a record in their order, the one of eight bytes last, and 0 for those that it lacks.
#[derive(Clone, Copy)]
struct Fields {
    first: u8,
    second: u8,
    third: u8,
    word: u64,
}

fn fields_by(first: u8, second: u8, third: u8, word: u64) -> Fields
    ensures { result ≡ record { first = first; second = second; third = third; word = word } }
{
    Fields {
        first,
        second,
        third,
        word,
    }
}

fn fields_of(r: Record) -> Fields
    ensures { result ≡ fields_of r }
{
    match r {
        Record::Head {
            modules,
            supervisors,
            events,
        } => fields_by(modules, supervisors, events, 0),
        Record::Event {
            number,
            owner,
            class,
        } => fields_by(number, owner, class, 0),
        Record::Module {
            number,
            states,
            initial,
        } => fields_by(number, states, initial, 0),
        Record::ModuleMove {
            owner,
            from,
            event,
            to: _,
        } => fields_by(owner, from, event, 0),
        Record::Supervisor {
            number,
            states,
            initial,
            alphabet,
        } => fields_by(number, states, initial, alphabet),
        Record::SupervisorMove {
            supervisor,
            from,
            event,
            to: _,
        } => fields_by(supervisor, from, event, 0),
        Record::Disabling {
            supervisor,
            state,
            mask,
        } => fields_by(supervisor, state, 0, mask),
        Record::Step {
            event,
            index,
            operation,
            operand,
        } => fields_by(event, index, operation, operand),
        Record::Marking { owner, state } => fields_by(owner, state, 0, 0),
        Record::End => fields_by(0, 0, 0, 0),
    }
}

// The fields of the head, an event, a module or a supervisor.
fn numbered_fields(image: &[u8], places: Places, kind: u8, first: u8) -> Fields
    ensures { FieldsFound (find_in (key_by kind first 0 0) (records_by image.now places)) result }
{
    let Some(r) = places::look_number(image, places, kind, first) else {
        return fields_by(0, 0, 0, 0);
    };
    fields_of(r)
}

// The head's counts.
pub fn modules_of(image: &[u8], places: Places) -> u8
    ensures { result ≡ modules_of (records_by image.now places) }
{
    numbered_fields(image, places, 0x10, 0).first
}

pub fn supervisors_of(image: &[u8], places: Places) -> u8
    ensures { result ≡ supervisors_of (records_by image.now places) }
{
    numbered_fields(image, places, 0x10, 0).second
}

pub fn events_of(image: &[u8], places: Places) -> u8
    ensures { result ≡ events_of (records_by image.now places) }
{
    numbered_fields(image, places, 0x10, 0).third
}

// Whether a module or a supervisor has a state.
pub fn module_state(image: &[u8], places: Places, m: u8, st: u8) -> bool
    ensures { result ≡ module_state (records_by image.now places) m st }
{
    st < numbered_fields(image, places, 0x12, m).second
}

pub fn supervisor_state(image: &[u8], places: Places, v: u8, st: u8) -> bool
    ensures { result ≡ supervisor_state (records_by image.now places) v st }
{
    st < numbered_fields(image, places, 0x14, v).second
}

pub fn module_initial(image: &[u8], places: Places, m: u8) -> u8
    ensures { result ≡ module_initial (records_by image.now places) m }
{
    numbered_fields(image, places, 0x12, m).third
}

pub fn supervisor_initial(image: &[u8], places: Places, v: u8) -> u8
    ensures { result ≡ supervisor_initial (records_by image.now places) v }
{
    numbered_fields(image, places, 0x14, v).third
}

// The module of an event.
pub fn owner_of(image: &[u8], places: Places, e: u8) -> u8
    ensures { result ≡ owner_of (records_by image.now places) e }
{
    numbered_fields(image, places, 0x11, e).second
}

// Whether an event is the module's, whether it is controllable, and whether it is an uncontrollable one of the module.
pub fn own_event(image: &[u8], places: Places, m: u8, e: u8) -> bool
    ensures { result ≡ own_event (records_by image.now places) m e }
{
    (e < events_of(image, places)) & (owner_of(image, places, e) == m)
}

pub fn controllable(image: &[u8], places: Places, e: u8) -> bool
    ensures { result ≡ controllable (records_by image.now places) e }
{
    numbered_fields(image, places, 0x11, e).third == 1
}

pub fn own_uncontrollable(image: &[u8], places: Places, m: u8, e: u8) -> bool
    ensures { result ≡ own_uncontrollable (records_by image.now places) m e }
{
    own_event(image, places, m, e) & !controllable(image, places, e)
}

// A supervisor's alphabet, and whether it has an event.
pub fn alphabet_of(image: &[u8], places: Places, v: u8) -> u64
    ensures { result ≡ alphabet_of (records_by image.now places) v }
{
    numbered_fields(image, places, 0x14, v).word
}

pub fn in_alphabet(image: &[u8], places: Places, v: u8, e: u8) -> bool
    ensures { result ≡ in_alphabet (records_by image.now places) v e }
{
    bits::has(alphabet_of(image, places, v), e)
}

// The mask that a supervisor shows in a state, which stands behind the two numbers of its record.
pub fn shown(image: &[u8], places: Places, v: u8, st: u8) -> u64
    ensures { result ≡ shown (records_by image.now places) v st }
{
    let key = RecordKey {
        kind: 0x16,
        first: v,
        second: st,
        third: 0,
    };
    let at = places::seek(image, places, key);
    if at == 0 {
        0
    } else {
        words::word_at(image, at + 2)
    }
}

// Where a listed move of a kind leads: the state behind the three numbers of its record.
fn target_of(image: &[u8], places: Places, kind: u8, owner: u8, from: u8, event: u8) -> Option<u8>
    requires { is_move kind ≡ true }
    ensures { result ≡ target (find_in (key_by kind owner from event) (records_by image.now places)) }
{
    let key = RecordKey {
        kind,
        first: owner,
        second: from,
        third: event,
    };
    let at = places::seek(image, places, key);
    if at == 0 {
        None
    } else {
        Some(words::byte_at(image, at + 3))
    }
}

pub fn module_move(image: &[u8], places: Places, m: u8, st: u8, e: u8) -> Option<u8>
    ensures { result ≡ module_move (records_by image.now places) m st e }
{
    target_of(image, places, 0x13, m, st, e)
}

// Where a supervisor's listed move leads; without one it stays.
pub fn supervisor_moved(image: &[u8], places: Places, v: u8, st: u8, e: u8) -> u8
    ensures { result ≡ supervisor_moved (records_by image.now places) v st e }
{
    let Some(t) = target_of(image, places, 0x15, v, st, e) else {
        return st;
    };
    t
}

// A supervisor's state after an event.
pub fn supervisor_after(image: &[u8], places: Places, v: u8, st: u8, e: u8) -> u8
    ensures { result ≡ supervisor_after (records_by image.now places) v st e }
{
    if in_alphabet(image, places, v, e) {
        supervisor_moved(image, places, v, st, e)
    } else {
        st
    }
}

// A step of an event's procedure, which counts with its fields in range and, where it is a respond, with the number of an event.
pub fn step(image: &[u8], places: Places, e: u8, i: u8) -> Option<Record>
    ensures { result ≡ procedure_step (records_by image.now places) e i }
{
    let key = RecordKey {
        kind: 0x17,
        first: e,
        second: i,
        third: 0,
    };
    let Some(r) = places::look(image, places, key) else {
        return None;
    };
    let f = fields_of(r);
    if records::in_range(r) & (!(f.third == 5) | (f.word < 64)) {
        Some(r)
    } else {
        None
    }
}
