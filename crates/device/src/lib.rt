// The calls of the one-device controller. specs/Device.antt says what each gives.
#![tactic(auto)]

ghost use Rattle.std.specs.Prelude.{◌≡◌};
ghost use Rattle.places.specs.Places.{records_by};
ghost use Rattle.modules.specs.Procedure.{respond_of, tick_of};
ghost use Rattle.rules.specs.LookUp.{supervisors_of};
ghost use Rattle.modules.specs.Turn.{turn_of};
ghost use Rattle.device_states.specs.States.{own_at, state_of, shown_by};
ghost use Rattle.device.specs.Device.{turned, after_turn, device_number, turn_in, turn_call, call_refused, reply_in, respond_call, tick_call, start_call};

use device_states::Device;
use modules::{Own, Replied, Turned};
use places::Places;
use refusal::Refusal;
use water::Flow;

// A turn's answer, the event that fired or none, or the number and the offset; and the state after it.
#[derive(Clone, Copy)]
pub struct DeviceTurned {
    pub answer: Result<Option<u8>, Refusal>,
    pub device: Device,
}

// The answer of a start, a response or a tick, and the state after it.
#[derive(Clone, Copy)]
pub struct DeviceCalled {
    pub answer: Result<(), Refusal>,
    pub device: Device,
}

fn after_turn(image: &[u8], places: Places, d: Device, m: u8, t: Turned) -> Device
    ensures { result ≡ after_turn (records_by image.now places) d m t }
{
    let own = t.own;
    let mut next = device_states::with_own(d, m, own);
    let states = d.supervisors;
    let did = t.turn;
    let Some(e) = did else {
        return next;
    };
    let moved = device_states::states_after(image, places, states, e);
    next.supervisors = moved;
    next
}

// 9 for a state that does not fit, 11 for a module that the plan lacks, and 0 where neither applies.
fn number(image: &[u8], places: Places, d: Device, m: u8) -> u8
    ensures { result ≡ device_number (records_by image.now places) d m }
{
    if device_states::fits(image, places, d) {
        if m < plan::modules_of(image, places) {
            0
        } else {
            11
        }
    } else {
        9
    }
}

// A module's turn over the masks that the supervisors show in their states.
pub fn turn_by(image: &[u8], places: Places, states: [u8; 32], m: u8, own: Own) -> Turned
    ensures { result ≡ turn_of (records_by image.now places) m (shown_by (records_by image.now places) (state_of states) (supervisors_of (records_by image.now places))) own }
{
    let n = plan::supervisors_of(image, places);
    let k = device_states::shown_by(image, places, states, n);
    turns::turn(image, places, m, k, own)
}

fn turned(image: &[u8], places: Places, d: Device, m: u8) -> Turned
    ensures { result ≡ turned (records_by image.now places) d m }
{
    let states = d.supervisors;
    let own = device_states::own_of(d, m);
    turn_by(image, places, states, m, own)
}

// A turn of a plan that is accepted.
fn turn_in(image: &[u8], places: Places, d: Device, m: u8) -> DeviceTurned
    ensures { result ≡ turn_in (records_by image.now places) d m (device_number (records_by image.now places) d m) }
{
    let n = number(image, places, d, m);
    if n == 0 {
        let t = turned(image, places, d, m);
        let next = after_turn(image, places, d, m, t);
        let did = t.turn;
        DeviceTurned {
            answer: Ok(did),
            device: next,
        }
    } else {
        DeviceTurned {
            answer: Err(Refusal {
                number: n,
                offset: 0,
            }),
            device: d,
        }
    }
}

// A turn of a module.
pub fn turn(image: &[u8], d: Device, m: u8) -> DeviceTurned
    ensures { result ≡ turn_call image.now d m }
{
    match checker::examine(image) {
        Ok(places) => turn_in(image, places, d, m),
        Err(e) => DeviceTurned {
            answer: Err(e),
            device: d,
        },
    }
}

// The call refused, with the state as it came.
fn refused(d: Device, e: Refusal) -> DeviceCalled
    ensures { result ≡ call_refused d e }
{
    DeviceCalled {
        answer: Err(e),
        device: d,
    }
}

// The answer to a module's reply, and the state with its own part.
fn replied(d: Device, m: u8, r: Replied) -> DeviceCalled
    ensures { result ≡ reply_in d m 0 r }
{
    let own = r.own;
    let reply = r.reply;
    DeviceCalled {
        answer: modules::answer(reply),
        device: device_states::with_own(d, m, own),
    }
}

fn respond_in(image: &[u8], places: Places, d: Device, m: u8, e: u8) -> DeviceCalled
    ensures { result ≡ reply_in d m (device_number (records_by image.now places) d m) (respond_of (records_by image.now places) m e (own_at d m)) }
{
    let n = number(image, places, d, m);
    if n == 0 {
        let own = device_states::own_of(d, m);
        let r = modules::respond(image, places, m, e, own);
        replied(d, m, r)
    } else {
        refused(
            d,
            Refusal {
                number: n,
                offset: 0,
            },
        )
    }
}

// A response of a module.
pub fn respond(image: &[u8], d: Device, m: u8, e: u8) -> DeviceCalled
    ensures { result ≡ respond_call image.now d m e }
{
    match checker::examine(image) {
        Ok(places) => respond_in(image, places, d, m, e),
        Err(e) => refused(d, e),
    }
}

fn tick_in(image: &[u8], places: Places, d: Device, m: u8, f: Flow) -> DeviceCalled
    ensures { result ≡ reply_in d m (device_number (records_by image.now places) d m) (tick_of (records_by image.now places) f (own_at d m)) }
{
    let n = number(image, places, d, m);
    if n == 0 {
        let own = device_states::own_of(d, m);
        let r = modules::tick(image, places, f, own);
        replied(d, m, r)
    } else {
        refused(
            d,
            Refusal {
                number: n,
                offset: 0,
            },
        )
    }
}

// A tick of a module, with its flow reading.
pub fn tick(image: &[u8], d: Device, m: u8, f: Flow) -> DeviceCalled
    ensures { result ≡ tick_call image.now d m f }
{
    match checker::examine(image) {
        Ok(places) => tick_in(image, places, d, m, f),
        Err(e) => refused(d, e),
    }
}

// The device at its start.
pub fn start(image: &[u8]) -> DeviceCalled
    ensures { result ≡ start_call image.now }
{
    match checker::examine(image) {
        Ok(places) => DeviceCalled {
            answer: Ok(()),
            device: device_states::started(image, places),
        },
        Err(e) => refused(device_states::empty(), e),
    }
}
