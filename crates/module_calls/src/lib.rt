// The start, the responses and the ticks of a module on many devices: definitions in permits/specs/Module.antt.
#![tactic(auto)]

ghost use Rattle.std.specs.Prelude.{◌≡◌, Ok};
ghost use Rattle.places.specs.Places.{records_by};
ghost use Rattle.permits.specs.Module.{module_fits, reply_by, module_respond, module_tick, start_module, module_start};

use modules::Replied;
use permits::{Module, ModuleCalled};
use places::Places;
use water::Flow;

// ---- a response and a tick

// Whether the state fits the plan. Where no permit is held and no bid is outstanding, the neighbours make no difference and are not looked for.
fn fits(image: &[u8], places: Places, m: u8, x: Module) -> bool
    ensures { result ≡ module_fits (records_by image.now places) m x }
{
    if (x.held == 0) & !x.bid {
        return holding::fits(image, places, m, 0, x);
    }
    let adjacent = masks::neighbours(image, places, m);
    holding::fits(image, places, m, adjacent, x)
}

// The answer to the reply of the module's own part, and the state with it.
fn replied(image: &[u8], places: Places, m: u8, x: Module, r: Replied) -> ModuleCalled
    ensures { result ≡ reply_by (Ok tt) (records_by image.now places) m x r }
{
    if m < plan::modules_of(image, places) {
        if fits(image, places, m, x) {
            let own = r.own;
            let reply = r.reply;
            let mut state = x;
            state.own = own;
            ModuleCalled {
                answer: modules::answer(reply),
                state,
            }
        } else {
            holding::refused(x, 9, 0)
        }
    } else {
        holding::refused(x, 11, 0)
    }
}

// A response of the module.
pub fn respond(image: &[u8], m: u8, x: Module, e: u8) -> ModuleCalled
    ensures { result ≡ module_respond image.now m x e }
{
    match checker::examine(image) {
        Ok(places) => {
            let own = x.own;
            let r = modules::respond(image, places, m, e, own);
            replied(image, places, m, x, r)
        }
        Err(e) => holding::refused(x, e.number, e.offset),
    }
}

// A tick of the module, with its flow reading.
pub fn tick(image: &[u8], m: u8, x: Module, f: Flow) -> ModuleCalled
    ensures { result ≡ module_tick image.now m x f }
{
    match checker::examine(image) {
        Ok(places) => {
            let own = x.own;
            let r = modules::tick(image, places, f, own);
            replied(image, places, m, x, r)
        }
        Err(e) => holding::refused(x, e.number, e.offset),
    }
}

// ---- the start

fn started(image: &[u8], places: Places, m: u8) -> Module
    ensures { result ≡ start_module (records_by image.now places) m }
{
    let own = modules::started(image, places, m);
    let mut x = permits::empty_module();
    x.own = own;
    x
}

// The module's starting state.
pub fn start(image: &[u8], m: u8) -> ModuleCalled
    ensures { result ≡ module_start image.now m }
{
    match checker::examine(image) {
        Ok(places) => {
            if m < plan::modules_of(image, places) {
                ModuleCalled {
                    answer: Ok(()),
                    state: started(image, places, m),
                }
            } else {
                holding::refused(permits::empty_module(), 11, 0)
            }
        }
        Err(e) => holding::refused(permits::empty_module(), e.number, e.offset),
    }
}
