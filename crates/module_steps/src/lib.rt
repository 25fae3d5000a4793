// The module's step on many devices: definitions in permits/specs/Module.antt.
#![tactic(auto)]

ghost use Rattle.std.specs.Prelude.{◌≡◌, List, true, ◌||◌, Err};
ghost use Rattle.places.specs.Places.{records_by};
ghost use Rattle.records.specs.declared.Record.{Record};
ghost use Rattle.plan.specs.Plan.{neighbours};
ghost use Rattle.modules.specs.Turn.{wish};
ghost use Rattle.permits.specs.Module.{held_fits, choice, takes_turn, bids_to, step_in, module_step};
ghost use Rattle.permits.specs.Step.{Gave};
ghost use Rattle.module_steps.specs.Choice.{choice_of};
ghost use Rattle.refusal.specs.Refusal.{refusal};

use messages::Message;
use modules::Own;
use permits::{Module, ModuleStepped, Stepped};
use places::Places;
use refusal::Refusal;

// What a step does.
#[derive(Clone, Copy)]
enum Chosen {
    Turn,
    Bid(u8),
    Wait,
}

fn step_refused(x: Module, n: u8, at: usize) -> ModuleStepped
    ensures { result ≡ record { answer = Err (refusal n at); state = x } }
{
    ModuleStepped {
        answer: Err(Refusal {
            number: n,
            offset: at,
        }),
        state: x,
    }
}

// Whether `already` holds or the module has a wish, which is looked for only if it does not.
fn or_wish(image: &[u8], places: Places, m: u8, already: bool, own: Own) -> bool
    ensures { result ≡ (already || wish (records_by image.now places) m own) }
{
    if already {
        return true;
    }
    turns::wish(image, places, m, own)
}

fn choose(image: &[u8], places: Places, m: u8, adjacent: u32, x: Module) -> Chosen
    requires adjacent_value { adjacent ≡ neighbours (records_by image.now places) m }
    requires held_value { held_fits (records_by image.now places) m x.held ≡ true }
    ensures { choice_of result ≡ choice (records_by image.now places) m x }
{
    let own = x.own;
    let held = x.held;
    if holding::lacks(adjacent, held) {
        if x.bid {
            return Chosen::Wait;
        }
        if !or_wish(image, places, m, held != 0, own) {
            return Chosen::Wait;
        }
        let Some(v) = holding::missing(adjacent, held) else {
            return Chosen::Wait;
        };
        Chosen::Bid(v)
    } else {
        if or_wish(image, places, m, adjacent != 0, own) {
            Chosen::Turn
        } else {
            Chosen::Wait
        }
    }
}

// A turn over the masks received, which releases every permit.
fn take_turn(
    image: &[u8],
    places: Places,
    m: u8,
    adjacent: u32,
    x: Module,
    buffer: &mut [u8],
) -> ModuleStepped
    requires { adjacent ≡ neighbours (records_by image.now places) m }
    ensures { Gave (step_in (records_by image.now places) m x buffer.old takes_turn) result.answer result.state buffer.new }
{
    let own = x.own;
    let t = turns::turn(image, places, m, x.received, own);
    let did = t.turn;
    if releasing::release(image, places, m, adjacent, did, &mut *buffer) {
        let n = releasing::length_of(adjacent);
        let after = t.own;
        let mut state = x;
        state.own = after;
        state.held = 0;
        state.received = 0;
        ModuleStepped {
            answer: Ok(Stepped::Turns(did, n)),
            state,
        }
    } else {
        step_refused(x, 15, 0)
    }
}

// A bid to a supervisor.
fn bid(m: u8, v: u8, x: Module, buffer: &mut [u8]) -> ModuleStepped
    ensures { (rs : List Record) → Gave (step_in rs m x buffer.old (bids_to v)) result.answer result.state buffer.new }
{
    let g = Message::Bid {
        owner: m,
        supervisor: v,
    };
    if messages::write(g, &mut *buffer, 0) {
        let mut state = x;
        state.bid = true;
        ModuleStepped {
            answer: Ok(Stepped::Bids(v, messages::length_of(g))),
            state,
        }
    } else {
        step_refused(x, 15, 0)
    }
}

fn act(
    image: &[u8],
    places: Places,
    m: u8,
    adjacent: u32,
    x: Module,
    buffer: &mut [u8],
) -> ModuleStepped
    requires adjacent_value { adjacent ≡ neighbours (records_by image.now places) m }
    requires held_value { held_fits (records_by image.now places) m x.held ≡ true }
    ensures { Gave (step_in (records_by image.now places) m x buffer.old (choice (records_by image.now places) m x)) result.answer result.state buffer.new }
{
    match choose(image, places, m, adjacent, x) {
        Chosen::Turn => take_turn(image, places, m, adjacent, x, buffer),
        Chosen::Bid(to) => bid(m, to, x, buffer),
        Chosen::Wait => ModuleStepped {
            answer: Ok(Stepped::Waits),
            state: x,
        },
    }
}

// A module step: takes a turn, bids, or waits.
pub fn step(image: &[u8], m: u8, x: Module, buffer: &mut [u8]) -> ModuleStepped
    ensures { Gave (module_step image.now m x buffer.old) result.answer result.state buffer.new }
{
    match checker::examine(image) {
        Ok(places) => {
            if m < plan::modules_of(image, places) {
                let adjacent = masks::neighbours(image, places, m);
                if holding::fits(image, places, m, adjacent, x) {
                    act(image, places, m, adjacent, x, buffer)
                } else {
                    step_refused(x, 9, 0)
                }
            } else {
                step_refused(x, 11, 0)
            }
        }
        Err(e) => step_refused(x, e.number, e.offset),
    }
}
