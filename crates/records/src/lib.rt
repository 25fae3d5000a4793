// Plan records: their kinds, body lengths, ranges and keys.
#![tactic(auto)]

ghost use Rattle.std.specs.Prelude.{◌≡◌};
ghost use Rattle.records.specs.Kinds.{body_len, size_by, kind_of};
ghost use Rattle.records.specs.Range.{in_range, operand_in_range};
ghost use Rattle.records.specs.Key.{key_by, key_of, same_key, precedes, rank_of};

// A plan's record, document 01's term: one of each kind, with its fields in their order; document 02 adds `Marking`.
#[derive(Clone, Copy)]
pub enum Record {
    Head {
        modules: u8,
        supervisors: u8,
        events: u8,
    },
    Event {
        number: u8,
        owner: u8,
        class: u8,
    },
    Module {
        number: u8,
        states: u8,
        initial: u8,
    },
    ModuleMove {
        owner: u8,
        from: u8,
        event: u8,
        to: u8,
    },
    Supervisor {
        number: u8,
        states: u8,
        initial: u8,
        alphabet: u64,
    },
    SupervisorMove {
        supervisor: u8,
        from: u8,
        event: u8,
        to: u8,
    },
    Disabling {
        supervisor: u8,
        state: u8,
        mask: u64,
    },
    Step {
        event: u8,
        index: u8,
        operation: u8,
        operand: u64,
    },
    Marking {
        owner: u8,
        state: u8,
    },
    End,
}

// No kind has a body of this length: the answer for a kind that the table lacks.
pub const NO_LEN: u8 = 255;

// The body lengths of the kinds 10 to 1F.
const LENS: [u8; 16] = [
    3, 3, 3, 4, 11, 4, 10, 11, 2, 255, 255, 255, 255, 255, 255, 0,
];

// The body length that a kind fixes, or `NO_LEN` for an unknown kind.
pub fn body_len(kind: u8) -> u8
    ensures { result ≡ body_len kind }
{
    if 0x10 <= kind {
        if kind < 0x20 {
            let i = (kind - 0x10) as usize;
            return LENS[i];
        }
    }
    NO_LEN
}

// The bytes of a whole record of a kind, its kind and its body, by the same table; 256 for a number that is no kind.
pub fn size_by(kind: u8) -> usize
    ensures { result ≡ size_by kind }
{
    words::wide(body_len(kind)) + 1
}

pub fn kind_of(r: Record) -> u8
    ensures { result ≡ kind_of r }
{
    match r {
        Record::Head { .. } => 0x10,
        Record::Event { .. } => 0x11,
        Record::Module { .. } => 0x12,
        Record::ModuleMove { .. } => 0x13,
        Record::Supervisor { .. } => 0x14,
        Record::SupervisorMove { .. } => 0x15,
        Record::Disabling { .. } => 0x16,
        Record::Step { .. } => 0x17,
        Record::Marking { .. } => 0x18,
        Record::End => 0x1f,
    }
}

fn operand_in_range(o: u8, x: u64) -> bool
    ensures { result ≡ operand_in_range o x }
{
    match o {
        1 => x <= 31,
        2 => x <= 31,
        3 => (1 <= x) & (x <= 65535),
        4 => litres::target_ok(x),
        _ => o == 5,
    }
}

// Whether the record's fields are in the ranges that the record alone can tell.
pub fn in_range(r: Record) -> bool
    ensures { result ≡ in_range r }
{
    match r {
        Record::Head {
            modules,
            supervisors,
            events,
        } => {
            (1 <= modules)
                & (modules <= 16)
                & (supervisors <= 32)
                & ((1 <= events) & (events <= 64))
        }
        Record::Event {
            number: _,
            owner: _,
            class,
        } => class <= 1,
        Record::Module {
            number: _,
            states,
            initial: _,
        } => (1 <= states) & (states <= 32),
        Record::ModuleMove { .. } => true,
        Record::Supervisor {
            number: _,
            states,
            initial: _,
            alphabet: _,
        } => (1 <= states) & (states <= 64),
        Record::SupervisorMove { .. } => true,
        Record::Disabling {
            supervisor: _,
            state: _,
            mask,
        } => mask != 0,
        Record::Step {
            event: _,
            index,
            operation,
            operand,
        } => (index <= 63) & operand_in_range(operation, operand),
        Record::Marking { .. } => true,
        Record::End => true,
    }
}

// A record's kind and key; what a key lacks is 0.
#[derive(Clone, Copy)]
pub struct RecordKey {
    pub kind: u8,
    pub first: u8,
    pub second: u8,
    pub third: u8,
}

fn key_by(kind: u8, first: u8, second: u8, third: u8) -> RecordKey
    ensures { result ≡ key_by kind first second third }
{
    RecordKey {
        kind,
        first,
        second,
        third,
    }
}

pub fn key_of(r: Record) -> RecordKey
    ensures { result ≡ key_of r }
{
    match r {
        Record::Head { .. } => key_by(0x10, 0, 0, 0),
        Record::Event {
            number,
            owner: _,
            class: _,
        } => key_by(0x11, number, 0, 0),
        Record::Module {
            number,
            states: _,
            initial: _,
        } => key_by(0x12, number, 0, 0),
        Record::ModuleMove {
            owner,
            from,
            event,
            to: _,
        } => key_by(0x13, owner, from, event),
        Record::Supervisor {
            number,
            states: _,
            initial: _,
            alphabet: _,
        } => key_by(0x14, number, 0, 0),
        Record::SupervisorMove {
            supervisor,
            from,
            event,
            to: _,
        } => key_by(0x15, supervisor, from, event),
        Record::Disabling {
            supervisor,
            state,
            mask: _,
        } => key_by(0x16, supervisor, state, 0),
        Record::Step {
            event,
            index,
            operation: _,
            operand: _,
        } => key_by(0x17, event, index, 0),
        Record::Marking { owner, state } => key_by(0x18, owner, state, 0),
        Record::End => key_by(0x1f, 0, 0, 0),
    }
}

pub fn same_key(p: RecordKey, q: RecordKey) -> bool
    ensures { result ≡ same_key p q }
{
    (p.kind == q.kind) & (p.first == q.first) & (p.second == q.second) & (p.third == q.third)
}

// The kind and the key as one number, which ascends as they do.
pub fn rank(p: RecordKey) -> u32
    ensures { result ≡ rank_of p }
{
    (((p.kind as u32) * 256 + (p.first as u32)) * 256 + (p.second as u32)) * 256 + (p.third as u32)
}

// Whether p stands before q in the order of records.
pub fn precedes(p: RecordKey, q: RecordKey) -> bool
    ensures { result ≡ precedes p q }
{
    rank(p) < rank(q)
}
