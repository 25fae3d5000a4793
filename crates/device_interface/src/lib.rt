// The calls of the one-device controller over lent bytes: specs/Calls.antt. A call changes the bytes of one slot, and a turn that fires an event
// also the states behind the slots; what is left is what the call of crate device leaves.
#![tactic(auto)]

ghost use Rattle.std.specs.Prelude.{◌≡◌, true, []};
ghost use Rattle.places.specs.Places.{records_by};
ghost use Rattle.modules.specs.Procedure.{respond_of, tick_of};
ghost use Rattle.device_states.specs.States.{own_at};
ghost use Rattle.device.specs.Device.{after_turn, device_number, turn_in, reply_in};
ghost use Rattle.device_bytes.specs.Device.{device_size, device_bytes, device_put, is_device, device_at, device_of};
ghost use Rattle.packing.specs.Answer.{Answered, start_answer};
ghost use Rattle.device_interface.specs.Calls.{called_on, turned_on, start_bytes, turn_bytes, respond_bytes, tick_bytes};

use device::DeviceCalled;
use modules::{Replied, Turned};
use places::Places;
use water::Flow;

// 9 for bytes that stand for no state that fits, 11 for a module that the plan lacks, and 0 where neither applies.
fn number(image: &[u8], places: Places, s: &[u8], m: u8) -> u8
    ensures { result ≡ device_number (records_by image.now places) (device_of s.now) m }
{
    if device_bytes::fits(image, places, s) {
        if m < plan::modules_of(image, places) {
            0
        } else {
            11
        }
    } else {
        9
    }
}

// ---- a turn

// The state after a turn: the module's slot, and the supervisors' states if an event fired.
fn keep_turn(image: &[u8], places: Places, state: &mut [u8], m: u8, states: [u8; 32], t: Turned)
    requires { (is_device state.old ≡ true) × (states ≡ (device_at state.old).supervisors) }
    ensures { state.new ≡ device_put (after_turn (records_by image.now places) (device_at state.old) m t) state.old }
{
    let did = t.turn;
    let Some(e) = did else {
        let own = t.own;
        device_bytes::put_own(&mut *state, m, own);
        return;
    };
    // The own part is read after the look-ups: read at once, it would wait for the turn's stores.
    let moved = device_states::states_after(image, places, states, e);
    let own = t.own;
    device_bytes::put_own(&mut *state, m, own);
    words::put_bytes(&mut *state, device_bytes::SLOTS_SIZE, &moved);
}

fn turn_in(image: &[u8], places: Places, state: &mut [u8], m: u8) -> u64
    ensures { Answered (turned_on (turn_in (records_by image.now places) (device_of state.old) m (device_number (records_by image.now places) (device_of state.old) m)) state.old) result state.new [] }
{
    let n = number(image, places, &state[..], m);
    if n != 0 {
        return packing::pack(n, 0, 0, 0);
    }
    let states = device_bytes::states_of(&state[..]);
    let own = device_bytes::own_at(&state[..], m);
    let t = device::turn_by(image, places, states, m, own);
    let did = t.turn;
    keep_turn(image, places, &mut *state, m, states, t);
    packing::turning(Ok(did))
}

pub fn turn(image: &[u8], state: &mut [u8], m: u8) -> u64
    ensures { Answered (turn_bytes image.now state.old m) result state.new [] }
{
    match checker::examine(image) {
        Ok(places) => turn_in(image, places, &mut *state, m),
        Err(e) => packing::pack(e.number, 0, 0, e.offset),
    }
}

// ---- a response and a tick

// The answer to a module's reply; its slot is put if the reply is no refusal.
fn keep(state: &mut [u8], m: u8, r: Replied) -> u64
    requires { is_device state.old ≡ true }
    ensures { Answered (called_on (reply_in (device_at state.old) m 0 r) state.old) result state.new [] }
{
    let own = r.own;
    let reply = r.reply;
    let answer = modules::answer(reply);
    if packing::is_accepted(answer) {
        device_bytes::put_own(&mut *state, m, own);
        return packing::called(answer);
    }
    packing::called(answer)
}

fn respond_in(image: &[u8], places: Places, state: &mut [u8], m: u8, e: u8) -> u64
    ensures { Answered (called_on (reply_in (device_of state.old) m (device_number (records_by image.now places) (device_of state.old) m) (respond_of (records_by image.now places) m e (own_at (device_of state.old) m))) state.old) result state.new [] }
{
    let n = number(image, places, &state[..], m);
    if n != 0 {
        return packing::pack(n, 0, 0, 0);
    }
    let own = device_bytes::own_at(&state[..], m);
    let r = modules::respond(image, places, m, e, own);
    keep(&mut *state, m, r)
}

pub fn respond(image: &[u8], state: &mut [u8], m: u8, e: u8) -> u64
    ensures { Answered (respond_bytes image.now state.old m e) result state.new [] }
{
    match checker::examine(image) {
        Ok(places) => respond_in(image, places, &mut *state, m, e),
        Err(e) => packing::pack(e.number, 0, 0, e.offset),
    }
}

fn tick_in(image: &[u8], places: Places, state: &mut [u8], m: u8, f: Flow) -> u64
    ensures { Answered (called_on (reply_in (device_of state.old) m (device_number (records_by image.now places) (device_of state.old) m) (tick_of (records_by image.now places) f (own_at (device_of state.old) m))) state.old) result state.new [] }
{
    let n = number(image, places, &state[..], m);
    if n != 0 {
        return packing::pack(n, 0, 0, 0);
    }
    let own = device_bytes::own_at(&state[..], m);
    let r = modules::tick(image, places, f, own);
    keep(&mut *state, m, r)
}

// A tick with its flow reading: none if sensor is 0.
pub fn tick(image: &[u8], state: &mut [u8], m: u8, sensor: u8, litres: f64) -> u64
    ensures { Answered (tick_bytes image.now state.old m sensor litres) result state.new [] }
{
    let f = packing::flow(sensor, litres);
    match checker::examine(image) {
        Ok(places) => tick_in(image, places, &mut *state, m, f),
        Err(e) => packing::pack(e.number, 0, 0, e.offset),
    }
}

// ---- the start

// The state at a start.
fn give(buffer: &mut [u8], c: DeviceCalled) -> u64
    ensures { Answered (start_answer device_size c.answer (device_bytes c.device) buffer.old) result [] buffer.new }
{
    let answer = c.answer;
    let d = c.device;
    match answer {
        Ok(()) => {
            if buffer.len() < device_bytes::DEVICE_SIZE {
                return packing::pack(15, 0, 0, 0);
            }
            device_bytes::put_device(&mut *buffer, d);
            packing::pack(0, 0, 0, device_bytes::DEVICE_SIZE)
        }
        Err(e) => packing::pack(e.number, 0, 0, e.offset),
    }
}

pub fn start(image: &[u8], buffer: &mut [u8]) -> u64
    ensures { Answered (start_bytes image.now buffer.old) result [] buffer.new }
{
    let c = device::start(image);
    give(buffer, c)
}
