// Masks of a plan: the commands among moves, a module's events and its neighbours, and the modules near a supervisor.
#![tactic(auto)]

ghost use Rattle.std.specs.Prelude.{◌≡◌, ℕ, ◌<◌, ◌/◌, ◌^◌, List, cond, ◌&&◌, eqb, ltb};
ghost use Rattle.std.specs.Int.Bits.{bit_or};
ghost use Rattle.bits.specs.Bit.{bit, some_below, mask_of};
ghost use Rattle.records.specs.declared.Record.{Record};
ghost use Rattle.places.specs.Places.{records_by};
ghost use Rattle.rules.specs.LookUp.{modules_of, events_of, owner_of, controllable, alphabet_of};
ghost use Rattle.plan.specs.Plan.{commands_among, own_event, neighbour, neighbours, modules_near};

use places::Places;

// The mask with bit v, if it is to have it.
fn with_bit(mask: u64, v: u8, on: bool) -> u64
    requires { v < 64 }
    ensures { result ≡ cond on (bit_or mask (2 ^ v)) mask }
{
    if on { mask | (1u64 << v) } else { mask }
}

// Whether an event is one of a mask and controllable.
fn is_command(image: &[u8], places: Places, moves: u64, e: u8) -> bool
    ensures { result ≡ (bit moves e && controllable (records_by image.now places) e) }
{
    if bits::has(moves, e) {
        plan::controllable(image, places, e)
    } else {
        false
    }
}

// The controllable ones of the moves from a module's state, which a turn reads once (places::moves_of).
pub fn commands(image: &[u8], places: Places, moves: u64) -> u64
    ensures { result ≡ commands_among (records_by image.now places) moves }
{
    let mut mask: u64 = 0;
    for e in 0..64 {
        // Past the last that has a move nothing is left to ask.
        if moves >> e == 0 {
            return mask;
        }
        mask = with_bit(mask, e, is_command(image, places, moves, e));
    }
    mask
}

// The events of a module, none of which is past the head's count.
pub fn own_events(image: &[u8], places: Places, m: u8) -> u64
    ensures { result ≡ mask_of (own_event (records_by image.now places) m) 64 }
{
    let n = plan::events_of(image, places);
    let mut mask: u64 = 0;
    for e in 0..n.min(64) {
        mask = with_bit(mask, e, plan::owner_of(image, places, e) == m);
    }
    mask
}

// Whether a supervisor is a neighbour of the module that owns the events.
fn is_neighbour(own: u64, alphabet: u64) -> bool
    ensures { (rs : List Record) (m v : ℕ) → own ≡ mask_of (own_event rs m) 64 → alphabet ≡ alphabet_of rs v → result ≡ neighbour rs m v }
{
    alphabet & own != 0
}

// The neighbours of a module: the supervisors, none of which is past the head's count, whose alphabet has an event of it.
pub fn neighbours(image: &[u8], places: Places, m: u8) -> u32
    ensures { result ≡ neighbours (records_by image.now places) m }
{
    let own = own_events(image, places, m);
    let n = plan::supervisors_of(image, places);
    let mut mask: u64 = 0;
    for v in 0..n.min(32) {
        mask = with_bit(
            mask,
            v,
            is_neighbour(own, plan::alphabet_of(image, places, v)),
        );
    }
    mask as u32
}

// Whether a mask has no bit from e on.
fn none_from(mask: u64, e: u8) -> bool
    ensures { result ≡ eqb (mask / 2 ^ e) 0 }
{
    if e < 64 { mask >> e == 0 } else { true }
}

// The mask with the module of event e, if the alphabet has the event and the plan that module.
fn with_owner(image: &[u8], places: Places, mask: u64, alphabet: u64, modules: u8, e: u8) -> u64
    ensures { (o : ℕ) → o ≡ owner_of (records_by image.now places) e → result ≡ cond (bit alphabet e && ltb o 16 && ltb o modules) (bit_or mask (2 ^ o)) mask }
{
    if bits::has(alphabet, e) {
        let m = plan::owner_of(image, places, e);
        if m < 16 {
            with_bit(mask, m, m < modules)
        } else {
            mask
        }
    } else {
        mask
    }
}

// The modules of the plan that have an event in an alphabet, each event of which is looked up once.
fn owners(image: &[u8], places: Places, alphabet: u64) -> u16
    ensures { result ≡ mask_of (λ m. ltb m (modules_of (records_by image.now places)) && some_below (λ e. eqb (owner_of (records_by image.now places) e) m && bit alphabet e) (events_of (records_by image.now places))) 16 }
{
    let modules = plan::modules_of(image, places);
    let n = plan::events_of(image, places);
    let mut mask: u64 = 0;
    for e in 0..n {
        // Past the alphabet's last event nothing is left to look for.
        if none_from(alphabet, e) {
            break;
        }
        mask = with_owner(image, places, mask, alphabet, modules, e);
    }
    mask as u16
}

// The modules of the plan whose neighbour a supervisor of the plan is.
pub fn modules_near(image: &[u8], places: Places, v: u8) -> u16
    ensures { result ≡ modules_near (records_by image.now places) v }
{
    if v < plan::supervisors_of(image, places) {
        owners(image, places, plan::alphabet_of(image, places, v))
    } else {
        0
    }
}
