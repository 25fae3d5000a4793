// What the check of a plan remembers of the records before: one struct by value, some 500 bytes.
#![tactic(auto)]

ghost use Rattle.std.specs.Prelude.{◌≡◌};
ghost use Rattle.context.specs.Context.{with_event, with_step, with_module, with_supervisor, with_record, start, owner_at, steps_at, module_states_at, supervisor_states_at, alphabet_at};

use records::{Record, RecordKey};

// The head's counts.
#[derive(Clone, Copy)]
pub struct Counts {
    pub modules: u8,
    pub supervisors: u8,
    pub events: u8,
}

// The events that have a record, those of them that are controllable, the module of each, and how many steps each has so far.
#[derive(Clone, Copy)]
pub struct Events {
    pub known: u64,
    pub controllable: u64,
    pub owner: [u8; 64],
    pub steps: [u8; 64],
}

// The modules that have a record, and how many states each has.
#[derive(Clone, Copy)]
pub struct Modules {
    pub known: u64,
    pub states: [u8; 16],
}

// The supervisors that have a record, how many states each has, and its alphabet.
#[derive(Clone, Copy)]
pub struct Supervisors {
    pub known: u64,
    pub states: [u8; 32],
    pub alphabet: [u64; 32],
}

// Whether a record has come, the last one's kind and key, and what the records declared.
#[derive(Clone, Copy)]
pub struct Context {
    pub begun: bool,
    pub last: RecordKey,
    pub counts: Counts,
    pub events: Events,
    pub modules: Modules,
    pub supervisors: Supervisors,
}

// Before the first record.
pub fn started() -> Context
    ensures { result ≡ start }
{
    Context {
        begun: false,
        last: RecordKey {
            kind: 0,
            first: 0,
            second: 0,
            third: 0,
        },
        counts: Counts {
            modules: 0,
            supervisors: 0,
            events: 0,
        },
        events: Events {
            known: 0,
            controllable: 0,
            owner: [0; 64],
            steps: [0; 64],
        },
        modules: Modules {
            known: 0,
            states: [0; 16],
        },
        supervisors: Supervisors {
            known: 0,
            states: [0; 32],
            alphabet: [0; 32],
        },
    }
}

fn with_event(ev: Events, number: u8, owner: u8, class: u8) -> Events
    ensures { result ≡ with_event ev number owner class }
{
    if number < 64 {
        let i = words::wide(number);
        let mut next = ev;
        next.known = bits::put(ev.known, number, true);
        next.controllable = bits::put(ev.controllable, number, class == 1);
        next.owner[i] = owner;
        next
    } else {
        ev
    }
}

// An accepted step has the next index of its event, so that its index and one more is how many there are.
fn with_step(ev: Events, event: u8, index: u8) -> Events
    ensures { result ≡ with_step ev event index }
{
    if event < 64 {
        let i = words::wide(event);
        let mut next = ev;
        next.steps[i] = std::num::wrapping_add_u8(index, 1);
        next
    } else {
        ev
    }
}

fn with_module(ms: Modules, number: u8, states: u8) -> Modules
    ensures { result ≡ with_module ms number states }
{
    if number < 16 {
        let i = words::wide(number);
        let mut next = ms;
        next.known = bits::put(ms.known, number, true);
        next.states[i] = states;
        next
    } else {
        ms
    }
}

fn with_supervisor(vs: Supervisors, number: u8, states: u8, alphabet: u64) -> Supervisors
    ensures { result ≡ with_supervisor vs number states alphabet }
{
    if number < 32 {
        let i = words::wide(number);
        let mut next = vs;
        next.known = bits::put(vs.known, number, true);
        next.states[i] = states;
        next.alphabet[i] = alphabet;
        next
    } else {
        vs
    }
}

// The context after one record more.
pub fn with_record(c: Context, r: Record) -> Context
    ensures { result ≡ with_record c r }
{
    let mut next = c;
    next.begun = true;
    let p = records::key_of(r);
    next.last = p;
    match r {
        Record::Head {
            modules,
            supervisors,
            events,
        } => {
            let n = Counts {
                modules,
                supervisors,
                events,
            };
            next.counts = n;
            next
        }
        Record::Event {
            number,
            owner,
            class,
        } => {
            let ev = c.events;
            let after = with_event(ev, number, owner, class);
            next.events = after;
            next
        }
        Record::Module {
            number,
            states,
            initial: _,
        } => {
            let ms = c.modules;
            let after = with_module(ms, number, states);
            next.modules = after;
            next
        }
        Record::ModuleMove { .. } => next,
        Record::Supervisor {
            number,
            states,
            initial: _,
            alphabet,
        } => {
            let vs = c.supervisors;
            let after = with_supervisor(vs, number, states, alphabet);
            next.supervisors = after;
            next
        }
        Record::SupervisorMove { .. } => next,
        Record::Disabling { .. } => next,
        Record::Step {
            event,
            index,
            operation: _,
            operand: _,
        } => {
            let ev = c.events;
            let after = with_step(ev, event, index);
            next.events = after;
            next
        }
        Record::Marking { .. } => next,
        Record::End => next,
    }
}

// The module of an event, and 0 for a number that no event can have.
pub fn owner_of(ev: Events, event: u8) -> u8
    ensures { result ≡ owner_at ev event }
{
    let owners = ev.owner;
    words::byte_at(&owners, words::wide(event))
}

// How many steps an event has so far, and 0 for a number that no event can have.
pub fn steps_of(ev: Events, event: u8) -> u8
    ensures { result ≡ steps_at ev event }
{
    let steps = ev.steps;
    words::byte_at(&steps, words::wide(event))
}

// How many states a module has, and 0 for a number that no module can have.
pub fn module_states(ms: Modules, m: u8) -> u8
    ensures { result ≡ module_states_at ms m }
{
    let states = ms.states;
    words::byte_at(&states, words::wide(m))
}

// How many states a supervisor has, and 0 for a number that no supervisor can have.
pub fn supervisor_states(vs: Supervisors, v: u8) -> u8
    ensures { result ≡ supervisor_states_at vs v }
{
    let states = vs.states;
    words::byte_at(&states, words::wide(v))
}

// The alphabet of a supervisor, and 0 for a number that no supervisor can have.
pub fn alphabet_of(vs: Supervisors, supervisor: u8) -> u64
    ensures { result ≡ alphabet_at vs supervisor }
{
    if supervisor < 32 {
        let i = words::wide(supervisor);
        vs.alphabet[i]
    } else {
        0
    }
}
