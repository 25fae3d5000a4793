// The state of the one-device controller: each module's own part and each supervisor's state. specs/States.antt says what each function gives.
#![tactic(auto)]

ghost use Rattle.std.specs.Prelude.{◌≡◌, ◌<◌, cond, eqb, ltb, get_or, Some};
ghost use Rattle.bits.specs.Bit.{all_below};
ghost use Rattle.places.specs.Places.{records_by};
ghost use Rattle.rules.specs.LookUp.{supervisor_state};
ghost use Rattle.modules.specs.Turn.{empty_own};
ghost use Rattle.modules.specs.Fits.{own_fits, own_empty};
ghost use Rattle.words.specs.Lists.{list_from};
ghost use Rattle.device_states.specs.States.{own_at, state_of, with_own, state_slot_fits, device_fits, shown_by, states_after, empty_device, start_slot, start_state, start_device};

use modules::Own;
use places::Places;
use std::array;

// Each module's own part and each supervisor's state. Slots that the plan lacks hold 0.
#[derive(Clone, Copy)]
pub struct Device {
    pub modules: [Own; 16],
    pub supervisors: [u8; 32],
}

// ---- the slots

// The own part of a module, and the empty one past the last slot.
pub fn own_of(d: Device, m: u8) -> Own
    ensures { result ≡ own_at d m }
{
    if m < 16 {
        d.modules[words::wide(m)]
    } else {
        modules::empty()
    }
}

// The device with another own part of a module; past the last slot it stays.
pub fn with_own(d: Device, m: u8, own: Own) -> Device
    ensures { result ≡ with_own d m own }
{
    if m < 16 {
        let mut next = d;
        next.modules[words::wide(m)] = own;
        next
    } else {
        d
    }
}

// ---- a state that fits

// Whether what stands in the slot of module m fits, of a plan of n modules.
fn own_slot_fits(image: &[u8], places: Places, n: u8, owns: &[Own; 16], m: u8) -> bool
    requires { m < 16 }
    ensures { result ≡ cond (ltb m n) (own_fits (records_by image.now places) m (get_or owns.now m empty_own)) (own_empty (get_or owns.now m empty_own)) }
{
    let own = owns[words::wide(m)];
    if m < n {
        fitting::fits(image, places, m, own)
    } else {
        fitting::is_empty(own)
    }
}

// By the list and not the device, so that a slot costs its own bytes.
fn owns_fit(image: &[u8], places: Places, n: u8, owns: [Own; 16]) -> bool
    ensures { result ≡ all_below (λ m. cond (ltb m n) (own_fits (records_by image.now places) m (get_or owns m empty_own)) (own_empty (get_or owns m empty_own))) 16 }
{
    (0..16).all(|m| own_slot_fits(image, places, n, &owns, m))
}

// The same of the supervisors' states, of a plan of n supervisors. Those past the n are judged by one look at all of them.
fn states_fit_of(image: &[u8], places: Places, n: u8, states: [u8; 32]) -> bool
    ensures { result ≡ all_below (λ v. cond (ltb v n) (supervisor_state (records_by image.now places) v (state_of states v)) (eqb (state_of states v) 0)) 32 }
{
    for v in 0..32u8 {
        let i = words::wide(v);
        if n <= v {
            return words::are_zeros(&states[i..]);
        }
        if !plan::supervisor_state(image, places, v, states[i]) {
            return false;
        }
    }
    true
}

// Whether the supervisors' states fit the plan.
pub fn states_fit(image: &[u8], places: Places, states: [u8; 32]) -> bool
    ensures { result ≡ all_below (state_slot_fits (records_by image.now places) states) 32 }
{
    let n = plan::supervisors_of(image, places);
    states_fit_of(image, places, n, states)
}

// Whether the whole state fits the plan.
pub fn fits(image: &[u8], places: Places, d: Device) -> bool
    ensures { result ≡ device_fits (records_by image.now places) d }
{
    let owns = d.modules;
    let n = plan::modules_of(image, places);
    if owns_fit(image, places, n, owns) {
        states_fit(image, places, d.supervisors)
    } else {
        false
    }
}

// ---- a turn

// The union of the masks that the first n supervisors show.
pub fn shown_by(image: &[u8], places: Places, states: [u8; 32], n: u8) -> u64
    ensures { result ≡ shown_by (records_by image.now places) (state_of states) n }
{
    let mut mask = 0;
    for v in 0..n {
        let st = words::byte_at(&states, words::wide(v));
        mask |= plan::shown(image, places, v, st);
    }
    mask
}

// The states after an event fired. Past the supervisors that are there none is found, so that the states stay.
pub fn states_after(image: &[u8], places: Places, states: [u8; 32], e: u8) -> [u8; 32]
    ensures { result ≡ states_after (records_by image.now places) states (Some e) }
{
    let n = places::count(image, places, 0x14);
    let mut next = states;
    for i in 0..32 {
        if n <= i {
            return next;
        }
        next[i] = plan::supervisor_after(image, places, i as u8, states[i], e);
    }
    next
}

// ---- the start

// What a module's slot holds at the start.
fn start_slot(image: &[u8], places: Places, m: u8) -> Own
    ensures { result ≡ start_slot (records_by image.now places) m }
{
    if m < plan::modules_of(image, places) {
        modules::started(image, places, m)
    } else {
        modules::empty()
    }
}

fn start_slots(image: &[u8], places: Places) -> [Own; 16]
    ensures { result ≡ list_from (start_slot (records_by image.now places)) 0 16 }
{
    array::from_fn(|m| start_slot(image, places, m as u8))
}

// A supervisor's state at the start, and 0 for one that the plan lacks.
fn start_state(image: &[u8], places: Places, v: u8) -> u8
    ensures { result ≡ start_state (records_by image.now places) v }
{
    if v < plan::supervisors_of(image, places) {
        plan::supervisor_initial(image, places, v)
    } else {
        0
    }
}

fn start_states(image: &[u8], places: Places) -> [u8; 32]
    ensures { result ≡ list_from (start_state (records_by image.now places)) 0 32 }
{
    array::from_fn(|v| start_state(image, places, v as u8))
}

// The device with every number 0.
pub fn empty() -> Device
    ensures { result ≡ empty_device }
{
    Device {
        modules: [modules::empty(); 16],
        supervisors: [0; 32],
    }
}

// The device with every slot at its start.
pub fn started(image: &[u8], places: Places) -> Device
    ensures { result ≡ start_device (records_by image.now places) }
{
    Device {
        modules: start_slots(image, places),
        supervisors: start_states(image, places),
    }
}
