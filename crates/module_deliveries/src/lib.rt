// A message delivered to a module: definitions in permits/specs/Module.antt.
#![tactic(auto)]

ghost use Rattle.std.specs.Prelude.{◌≡◌, List, true, ◌<◌, Ok};
ghost use Rattle.bits.specs.Bit.{put_bit};
ghost use Rattle.places.specs.Places.{records_by};
ghost use Rattle.records.specs.declared.Record.{Record};
ghost use Rattle.rules.specs.LookUp.{modules_of};
ghost use Rattle.plan.specs.Plan.{neighbours};
ghost use Rattle.messages.specs.declared.Message.TheVariants.{Permit};
ghost use Rattle.permits.specs.Names.{named};
ghost use Rattle.permits.specs.Module.{taken_by, deliver_in, absent, deliver_by, module_deliver};

use messages::Message;
use permits::{Module, ModuleCalled};
use places::Places;

// The permits held, with one more.
fn hold(held: u32, v: u8) -> u32
    requires { v < 32 }
    ensures { result ≡ put_bit held v true }
{
    held | (1u32 << v)
}

// A permit of supervisor v for module n, with the mask k.
fn take_permit(m: u8, adjacent: u32, x: Module, v: u8, n: u8, k: u64) -> ModuleCalled
    ensures { (rs : List Record) → adjacent ≡ neighbours rs m → result ≡ taken_by rs m x (Permit v n k) }
{
    let Some(w) = holding::missing(adjacent, x.held) else {
        return holding::refused(x, 12, 0);
    };
    if (n == m) & (x.bid & (w == v)) {
        let state = permits::with_permits(x, hold(x.held, v), x.received | k, false);
        ModuleCalled {
            answer: Ok(()),
            state,
        }
    } else {
        holding::refused(x, 12, 0)
    }
}

// A message that names what the plan has.
fn take(m: u8, adjacent: u32, x: Module, g: Message) -> ModuleCalled
    ensures { (rs : List Record) → adjacent ≡ neighbours rs m → result ≡ taken_by rs m x g }
{
    match g {
        Message::Bid { .. } => holding::refused(x, 12, 0),
        Message::Permit {
            supervisor,
            owner,
            mask,
        } => take_permit(m, adjacent, x, supervisor, owner, mask),
        Message::Release { .. } => holding::refused(x, 12, 0),
    }
}

// Whether the plan has what a message names. A permit for this module is judged by the mask of its neighbours, which the caller has.
fn is_named(image: &[u8], places: Places, m: u8, adjacent: u32, g: Message) -> bool
    requires { (adjacent ≡ neighbours (records_by image.now places) m) × (m < modules_of (records_by image.now places)) }
    ensures { result ≡ named (records_by image.now places) g }
{
    let Message::Permit {
        supervisor,
        owner,
        mask: _,
    } = g
    else {
        return permits::named(image, places, g);
    };
    if (owner == m) & (supervisor < 32) {
        let neighbour_bits = adjacent as u64;
        return bits::has(neighbour_bits, supervisor);
    }
    permits::named(image, places, g)
}

fn deliver_fitting(
    image: &[u8],
    places: Places,
    m: u8,
    adjacent: u32,
    x: Module,
    p: Option<Message>,
) -> ModuleCalled
    requires { (adjacent ≡ neighbours (records_by image.now places) m) × (m < modules_of (records_by image.now places)) }
    ensures { result ≡ deliver_in (records_by image.now places) m x p }
{
    let Some(g) = p else {
        return holding::refused(x, 10, 0);
    };
    if is_named(image, places, m, adjacent, g) {
        take(m, adjacent, x, g)
    } else {
        holding::refused(x, 11, 0)
    }
}

// A delivery to a module that the plan lacks.
fn absent(x: Module, p: Option<Message>) -> ModuleCalled
    ensures { result ≡ absent x p }
{
    let Some(_) = p else {
        return holding::refused(x, 10, 0);
    };
    holding::refused(x, 11, 0)
}

fn deliver_in(image: &[u8], places: Places, m: u8, x: Module, p: Option<Message>) -> ModuleCalled
    ensures { result ≡ deliver_by (Ok tt) (records_by image.now places) m x p }
{
    if m < plan::modules_of(image, places) {
        let adjacent = masks::neighbours(image, places, m);
        if holding::fits(image, places, m, adjacent, x) {
            deliver_fitting(image, places, m, adjacent, x, p)
        } else {
            holding::refused(x, 9, 0)
        }
    } else {
        absent(x, p)
    }
}

// A message delivered to the module.
pub fn deliver(image: &[u8], m: u8, x: Module, bytes: &[u8]) -> ModuleCalled
    ensures { result ≡ module_deliver image.now m x bytes.now }
{
    match checker::examine(image) {
        Ok(places) => {
            let p = messages::read(bytes);
            deliver_in(image, places, m, x, p)
        }
        Err(e) => holding::refused(x, e.number, e.offset),
    }
}
