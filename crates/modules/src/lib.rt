// The module's own part: the same struct on one device and on many. What a response and a tick do to it, and its parts of a turn.
#![tactic(auto)]

ghost use Rattle.std.specs.Prelude.{◌≡◌, List, true, false, cond, ℕ, suc, ◌<◌, eqb, ltb, length, get_or, take};
ghost use Rattle.places.specs.Places.{records_by};
ghost use Rattle.plan.specs.Plan.{counts};
ghost use Rattle.water.specs.Water as Rules;
ghost use Rattle.water.specs.Water.{flow_ok, no_water, water_of};
ghost use Rattle.modules.specs.Queue.{queue_of, cells, full, with_queue, queued, without};
ghost use Rattle.modules.specs.Own.{with_outputs};
ghost use Rattle.modules.specs.Procedure.{idle, arrive_at, output_on, output_off, counted, called_by, respond_of, tick_of};
ghost use Rattle.modules.specs.Procedure as Steps;
ghost use Rattle.modules.specs.StepFields.{step_fields_of};
ghost use Rattle.modules.specs.Turn.{empty_own, start_own};

use places::Places;
use records::Record;
use refusal::Refusal;
use std::array;
use water::{Flow, Water};

// The procedure that runs: idle, with every field 0, or at a step of an event. A wait's ticks so far are counted; a litres step has its
// water. Fields not used at a step are 0.
#[derive(Clone, Copy)]
pub struct Procedure {
    pub running: bool,
    pub event: u8,
    pub index: u8,
    pub count: u16,
    pub water: Water,
}

// The automaton's state, the response queue with the cells past its length 0, the procedure, and the 32 outputs.
#[derive(Clone, Copy)]
pub struct Own {
    pub state: u8,
    pub queue: [u8; 8],
    pub length: u8,
    pub procedure: Procedure,
    pub outputs: u32,
}

// The module's own part after a turn, and what the turn did, an event fired or nothing: the larger first, so that taking it out copies it whole.
#[derive(Clone, Copy)]
pub struct Turned {
    pub own: Own,
    pub turn: Option<u8>,
}

// What a response or a tick got, taken or the number, and the module's own part after it.
#[derive(Clone, Copy)]
pub struct Replied {
    pub reply: Result<(), u8>,
    pub own: Own,
}

// ---- the queue

// What stands in a cell of a queue of n responses, and 0 past them.
pub fn cell(q: [u8; 8], n: u8, i: usize) -> u8
    ensures { result ≡ get_or (take n q) i 0 }
{
    if i < words::wide(n) {
        if i < 8 { q[i] } else { 0 }
    } else {
        0
    }
}

// The same without the response at index k: those after it move up.
fn cell_without(q: [u8; 8], n: u8, k: usize, i: usize) -> u8
    requires { i < 8 }
    ensures { result ≡ get_or (without k (take n q)) i 0 }
{
    if i < k {
        cell(q, n, i)
    } else {
        cell(q, n, i + 1)
    }
}

// The eight cells of a queue of n responses without the one at index k.
fn cells_without(q: [u8; 8], n: u8, k: u8) -> [u8; 8]
    ensures { result ≡ cells (without k (take n q)) }
{
    let gap = words::wide(k);
    array::from_fn(|i| cell_without(q, n, gap, i))
}

// The own part with one response more, at the end of its queue.
fn with_response(own: Own, e: u8) -> Own
    requires { own.length < 8 }
    ensures { result ≡ queued own e }
{
    let n = own.length;
    let i = words::wide(n);
    let q = own.queue;
    // No response stands at index 8.
    let mut after = cells_without(q, n, 8);
    after[i] = e;
    Own {
        queue: after,
        length: n + 1,
        ..own
    }
}

// How many responses a queue of eight cells and n responses holds without the one at index k.
fn count_without(n: u8, k: u8) -> u8
    ensures { (q : List ℕ) → length q ≡ 8 → result ≡ length (without k (take n q)) }
{
    if n < 8 {
        if k < n { n - 1 } else { n }
    } else {
        if k < 8 { 7 } else { 8 }
    }
}

// The own part without the response at index k of its queue; the others remain in their order.
pub fn without(own: Own, k: u8) -> Own
    ensures { result ≡ with_queue own (without k (queue_of own)) }
{
    let n = own.length;
    let q = own.queue;
    let after = cells_without(q, n, k);
    Own {
        queue: after,
        length: count_without(n, k),
        ..own
    }
}

// A response of module m by the event e.
pub fn respond(image: &[u8], places: Places, m: u8, e: u8, own: Own) -> Replied
    ensures { result ≡ respond_of (records_by image.now places) m e own }
{
    if plan::own_uncontrollable(image, places, m, e) {
        if own.length < 8 {
            let next = with_response(own, e);
            Replied {
                reply: Ok(()),
                own: next,
            }
        } else {
            Replied {
                reply: Err(13),
                own,
            }
        }
    } else {
        Replied {
            reply: Err(11),
            own,
        }
    }
}

// A reply as a call's answer: done, or the number and the offset.
pub fn answer(reply: Result<(), u8>) -> Result<(), Refusal>
    ensures { result ≡ called_by reply }
{
    match reply {
        Ok(()) => Ok(()),
        Err(number) => Err(Refusal { number, offset: 0 }),
    }
}

// ---- procedures

fn idle() -> Procedure
    ensures { result ≡ idle }
{
    Procedure {
        running: false,
        event: 0,
        index: 0,
        count: 0,
        water: water::none(),
    }
}

// Whether an event has a step of an index, and its operation and operand.
#[derive(Clone, Copy)]
pub struct StepFields {
    pub present: bool,
    pub operation: u8,
    pub operand: u64,
}

fn no_fields() -> StepFields
    ensures { result ≡ record { present = false; operation = 0; operand = 0 } }
{
    StepFields {
        present: false,
        operation: 0,
        operand: 0,
    }
}

pub fn step_fields(image: &[u8], places: Places, e: u8, i: u8) -> StepFields
    ensures { result ≡ step_fields_of (records_by image.now places) e i }
{
    let Some(r) = plan::step(image, places, e, i) else {
        return no_fields();
    };
    // No other record is found by the key of a step.
    let Record::Step {
        event: _,
        index: _,
        operation,
        operand,
    } = r
    else {
        return no_fields();
    };
    StepFields {
        present: true,
        operation,
        operand,
    }
}

// The water at the beginning of a step of operation o and operand x.
fn water_at(o: u8, x: u64) -> Water
    ensures { result ≡ cond (eqb o 4) (water_of x) no_water }
{
    if o == 4 {
        water::started(x)
    } else {
        water::none()
    }
}

// The procedure as it arrives at a step of an event.
pub fn arrive_at(image: &[u8], places: Places, e: u8, i: u8) -> Procedure
    ensures { result ≡ arrive_at (records_by image.now places) e i }
{
    let w = step_fields(image, places, e, i);
    if w.present {
        Procedure {
            running: true,
            event: e,
            index: i,
            count: 0,
            water: water_at(w.operation, w.operand),
        }
    } else {
        idle()
    }
}

// On to the next step of the event.
fn advanced(image: &[u8], places: Places, own: Own) -> Own
    requires { own.procedure.index < 64 }
    ensures { result ≡ Steps.advanced (records_by image.now places) own }
{
    let p = own.procedure;
    Own {
        procedure: arrive_at(image, places, p.event, p.index + 1),
        ..own
    }
}

// The own part with an output on or off.
fn switched(own: Own, x: u64, on: bool) -> Own
    requires { x < 32 }
    ensures { result ≡ with_outputs own (cond on (output_on own.outputs x) (output_off own.outputs x)) }
{
    let b = 1u32 << x;
    if on {
        Own {
            outputs: own.outputs | b,
            ..own
        }
    } else {
        Own {
            outputs: own.outputs & !b,
            ..own
        }
    }
}

// One tick of a wait of x ticks.
fn waited(image: &[u8], places: Places, x: u64, own: Own) -> Own
    requires index_bound { own.procedure.index < 64 }
    requires x_bound { x < 65536 }
    ensures { result ≡ cond (ltb (suc own.procedure.count) x) (counted own) (Steps.advanced (records_by image.now places) own) }
{
    let p = own.procedure;
    let n = p.count as u64 + 1;
    if n < x {
        let procedure = Procedure {
            running: true,
            count: p.count + 1,
            ..p
        };
        Own { procedure, ..own }
    } else {
        advanced(image, places, own)
    }
}

// One reading of a wait for litres, by the bits x of its target.
fn metered(image: &[u8], places: Places, x: u64, f: Flow, own: Own) -> Own
    requires index_bound { own.procedure.index < 64 }
    requires f_value { flow_ok f ≡ true }
    ensures { result ≡ cond (Rules.running x own.procedure.water) (Steps.metered (records_by image.now places) f own) own }
{
    let p = own.procedure;
    let w = p.water;
    if water::running(x, w) {
        let v = water::updated(w, f);
        if water::reached(v) {
            advanced(image, places, own)
        } else {
            let procedure = Procedure {
                running: true,
                water: v,
                ..p
            };
            Own { procedure, ..own }
        }
    } else {
        own
    }
}

// A respond step by the event x: while the queue is full it does not end.
fn responded(image: &[u8], places: Places, x: u64, own: Own) -> Own
    requires index_bound { own.procedure.index < 64 }
    requires x_bound { x < 64 }
    ensures { result ≡ cond (full own) own (Steps.advanced (records_by image.now places) (queued own x)) }
{
    if 8 <= own.length {
        own
    } else {
        let e = x as u8;
        let after = with_response(own, e);
        advanced(image, places, after)
    }
}

// The step of operation o and operand x performed, or one tick of it.
fn performed(image: &[u8], places: Places, o: u8, x: u64, f: Flow, own: Own) -> Own
    requires x_value { counts (Record.Step own.procedure.event own.procedure.index o x) ≡ true }
    requires f_value { flow_ok f ≡ true }
    ensures { result ≡ Steps.performed (records_by image.now places) o x f own }
{
    match o {
        1 => {
            let next = switched(own, x, true);
            advanced(image, places, next)
        }
        2 => {
            let next = switched(own, x, false);
            advanced(image, places, next)
        }
        3 => waited(image, places, x, own),
        4 => metered(image, places, x, f, own),
        _ => responded(image, places, x, own),
    }
}

fn ticked(image: &[u8], places: Places, f: Flow, own: Own) -> Own
    requires { flow_ok f ≡ true }
    ensures { result ≡ Steps.ticked (records_by image.now places) f own }
{
    let p = own.procedure;
    if !p.running {
        return own;
    }
    let w = step_fields(image, places, p.event, p.index);
    if w.present {
        performed(image, places, w.operation, w.operand, f, own)
    } else {
        own
    }
}

// A tick with a flow reading. Litres are judged, also when idle; without a sensor there is nothing to judge.
pub fn tick(image: &[u8], places: Places, f: Flow, own: Own) -> Replied
    ensures { result ≡ tick_of (records_by image.now places) f own }
{
    match f {
        Flow::Litres(x) => {
            if litres::litres_ok(x) {
                let next = ticked(image, places, f, own);
                Replied {
                    reply: Ok(()),
                    own: next,
                }
            } else {
                Replied {
                    reply: Err(14),
                    own,
                }
            }
        }
        Flow::NoSensor => {
            let next = ticked(image, places, f, own);
            Replied {
                reply: Ok(()),
                own: next,
            }
        }
    }
}

// ---- the start

// The own part with every number 0.
pub fn empty() -> Own
    ensures { result ≡ empty_own }
{
    Own {
        state: 0,
        queue: [0u8; 8],
        length: 0,
        procedure: idle(),
        outputs: 0,
    }
}

// The own part of module m at the start.
pub fn started(image: &[u8], places: Places, m: u8) -> Own
    ensures { result ≡ start_own (records_by image.now places) m }
{
    Own {
        state: plan::module_initial(image, places, m),
        ..empty()
    }
}
