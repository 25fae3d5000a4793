// Judges one record from what the check remembers and the record's own fields alone, and passes faultless records up to the end record.
#![tactic(auto)]

ghost use Rattle.std.specs.Prelude.{◌≡◌};
ghost use Rattle.judge.specs.Past.{past_from};
ghost use Rattle.judge.specs.Judge.{event_known, operand_known, module_known, supervisor_known, index_by, order_by, names_by, respond_by, rules_by, all_by, judge_by};

use context::Context;
use records::Record;

fn event_known(c: Context, e: u8) -> bool
    ensures { result ≡ event_known c e }
{
    let n = c.counts;
    let ev = c.events;
    (e < n.events) & bits::has(ev.known, e)
}

fn module_known(c: Context, m: u8) -> bool
    ensures { result ≡ module_known c m }
{
    let n = c.counts;
    let ms = c.modules;
    (m < n.modules) & bits::has(ms.known, m)
}

fn supervisor_known(c: Context, v: u8) -> bool
    ensures { result ≡ supervisor_known c v }
{
    let n = c.counts;
    let vs = c.supervisors;
    (v < n.supervisors) & bits::has(vs.known, v)
}

// An event named by a number of eight bytes.
fn operand_known(c: Context, x: u64) -> bool
    ensures { result ≡ operand_known c x }
{
    if x < 64 {
        let e = (x % 256) as u8;
        event_known(c, e)
    } else {
        false
    }
}

// A step has the next index of its event.
fn index_runs(c: Context, r: Record) -> bool
    ensures { result ≡ index_by c r }
{
    match r {
        Record::Head { .. } => true,
        Record::Event { .. } => true,
        Record::Module { .. } => true,
        Record::ModuleMove { .. } => true,
        Record::Supervisor { .. } => true,
        Record::SupervisorMove { .. } => true,
        Record::Disabling { .. } => true,
        Record::Step {
            event,
            index,
            operation: _,
            operand: _,
        } => {
            let ev = c.events;
            index == context::steps_of(ev, event)
        }
        Record::Marking { .. } => true,
        Record::End => true,
    }
}

// 4: the head first, then ascending by kind and key, and step indices without a gap.
fn in_order(c: Context, r: Record) -> bool
    ensures { result ≡ order_by c r }
{
    let begun = c.begun;
    if begun {
        let p = c.last;
        let q = records::key_of(r);
        let after = records::precedes(p, q);
        let runs = index_runs(c, r);
        after & runs
    } else {
        records::kind_of(r) == 0x10
    }
}

fn module_move_named(c: Context, owner: u8, from: u8, event: u8, to: u8) -> bool
    ensures { result ≡ names_by c (Record.ModuleMove owner from event to) }
{
    let ms = c.modules;
    let n = context::module_states(ms, owner);
    module_known(c, owner) & (from < n) & event_known(c, event) & (to < n)
}

fn supervisor_move_named(c: Context, supervisor: u8, from: u8, event: u8, to: u8) -> bool
    ensures { result ≡ names_by c (Record.SupervisorMove supervisor from event to) }
{
    let vs = c.supervisors;
    let n = context::supervisor_states(vs, supervisor);
    supervisor_known(c, supervisor) & (from < n) & event_known(c, event) & (to < n)
}

fn disabling_named(c: Context, supervisor: u8, state: u8, mask: u64) -> bool
    ensures { result ≡ names_by c (Record.Disabling supervisor state mask) }
{
    let vs = c.supervisors;
    let ev = c.events;
    let n = context::supervisor_states(vs, supervisor);
    supervisor_known(c, supervisor) & (state < n) & bits::within(mask, ev.known)
}

fn marking_named(c: Context, owner: u8, state: u8) -> bool
    ensures { result ≡ names_by c (Record.Marking owner state) }
{
    let ms = c.modules;
    let n = context::module_states(ms, owner);
    module_known(c, owner) & (state < n)
}

// 6: what the record names is declared.
fn names_declared(c: Context, r: Record) -> bool
    ensures { result ≡ names_by c r }
{
    let n = c.counts;
    let ev = c.events;
    match r {
        Record::Head { .. } => true,
        Record::Event {
            number,
            owner,
            class: _,
        } => (number < n.events) & (owner < n.modules),
        Record::Module {
            number,
            states,
            initial,
        } => (number < n.modules) & (initial < states),
        Record::ModuleMove {
            owner,
            from,
            event,
            to,
        } => module_move_named(c, owner, from, event, to),
        Record::Supervisor {
            number,
            states,
            initial,
            alphabet,
        } => { (number < n.supervisors) & (initial < states) & bits::within(alphabet, ev.known) }
        Record::SupervisorMove {
            supervisor,
            from,
            event,
            to,
        } => supervisor_move_named(c, supervisor, from, event, to),
        Record::Disabling {
            supervisor,
            state,
            mask,
        } => disabling_named(c, supervisor, state, mask),
        Record::Step {
            event,
            index: _,
            operation,
            operand,
        } => { event_known(c, event) & ((operation != 5) | operand_known(c, operand)) }
        Record::Marking { owner, state } => marking_named(c, owner, state),
        Record::End => true,
    }
}

// A respond step names an uncontrollable event of its own event's module.
fn respond_kept(c: Context, event: u8, operand: u64) -> bool
    ensures { result ≡ respond_by c event operand }
{
    let ev = c.events;
    if operand < 64 {
        let x = (operand % 256) as u8;
        !bits::has(ev.controllable, x) & (context::owner_of(ev, x) == context::owner_of(ev, event))
    } else {
        false
    }
}

// 7: moves by the module's own events and within the alphabet, disablings of controllable events within it, steps by the event rules.
fn keeps_rules(c: Context, r: Record) -> bool
    ensures { result ≡ rules_by c r }
{
    let ev = c.events;
    let vs = c.supervisors;
    match r {
        Record::Head { .. } => true,
        Record::Event { .. } => true,
        Record::Module { .. } => true,
        Record::ModuleMove {
            owner,
            from: _,
            event,
            to: _,
        } => context::owner_of(ev, event) == owner,
        Record::Supervisor { .. } => true,
        Record::SupervisorMove {
            supervisor,
            from: _,
            event,
            to: _,
        } => { bits::has(context::alphabet_of(vs, supervisor), event) }
        Record::Disabling {
            supervisor,
            state: _,
            mask,
        } => { bits::within(mask, ev.controllable & context::alphabet_of(vs, supervisor)) }
        Record::Step {
            event,
            index: _,
            operation,
            operand,
        } => {
            bits::has(ev.controllable, event) & ((operation != 5) | respond_kept(c, event, operand))
        }
        Record::Marking { .. } => true,
        Record::End => true,
    }
}

// 8: at the end, every number that the head promised is declared.
fn all_declared(c: Context, r: Record) -> bool
    ensures { result ≡ all_by c r }
{
    let n = c.counts;
    let ev = c.events;
    let ms = c.modules;
    let vs = c.supervisors;
    match r {
        Record::Head { .. } => true,
        Record::Event { .. } => true,
        Record::Module { .. } => true,
        Record::ModuleMove { .. } => true,
        Record::Supervisor { .. } => true,
        Record::SupervisorMove { .. } => true,
        Record::Disabling { .. } => true,
        Record::Step { .. } => true,
        Record::Marking { .. } => true,
        Record::End => {
            bits::has_below(ms.known, n.modules)
                & bits::has_below(vs.known, n.supervisors)
                & bits::has_below(ev.known, n.events)
        }
    }
}

// The smallest number from 4 to 8 that applies to a record, and 0 where none does.
pub fn judge(c: Context, r: Record) -> u8
    ensures { result ≡ judge_by c r }
{
    if !in_order(c, r) {
        return 4;
    }
    if !records::in_range(r) {
        return 5;
    }
    if !names_declared(c, r) {
        return 6;
    }
    if !keeps_rules(c, r) {
        return 7;
    }
    if all_declared(c, r) { 0 } else { 8 }
}

// How far whole records go that are faultless and no end record: what is remembered after them, and the next offset.
#[derive(Clone, Copy)]
pub struct Past {
    pub context: Context,
    pub next: usize,
}

// Past all whole records from an offset on that are faultless and no end record, one by one.
pub fn pass(image: &[u8], from: usize, before: Context) -> Past
    ensures { result ≡ past_from image.now from before }
{
    let mut c = before;
    let mut i = from;
    while let Ok((r, next)) = reader::read_at(image, i) {
        if judge(c, r) != 0 || records::kind_of(r) == 0x1f {
            break;
        }
        c = context::with_record(c, r);
        i = next;
    }
    Past {
        context: c,
        next: i,
    }
}
