// What a line of the simulation's script does to the parties: specs/Play.antt.
#![tactic(auto)]

ghost use Rattle.std.specs.Prelude.{◌≡◌, min, Some};
ghost use Rattle.litres.specs.Eighths.{eighths};
ghost use Rattle.messages.specs.Message.{message_bytes};
ghost use Rattle.wire.specs.Wire.{with_messages};
ghost use Rattle.simulation.specs.Play.{read, releases_of, after_step, after_serving, module_stepped, supervisor_stepped, lent_for, wire_after, to_module, to_supervisor, delivered_by, delivered, responded, ticked};
ghost use Rattle.simulation.specs.Numbers.{PlayedAs};

use acts::Act;
use messages::Message;
use parties::Parties;
use permits::{Served, Stepped};
use refusal::Refusal;
use water::Flow;
use wire::Wire;

// What a line got.
#[derive(Clone, Copy)]
pub enum Answer {
    Module(u8, Result<Stepped, Refusal>),
    Supervisor(u8, Result<Served, Refusal>),
    Delivery(Message, Result<(), Refusal>),
    NoMessage,
    Response(u8, u8, Result<(), Refusal>),
    Tick(u8, Result<(), Refusal>),
    Misshapen,
}

#[derive(Clone, Copy)]
pub struct Played {
    pub answer: Answer,
    pub play: Parties,
}

// ---- messages that a step wrote

fn send(w: Wire, bytes: &[u8]) -> Wire
    ensures { result ≡ with_messages w (read bytes.now) }
{
    match messages::read(bytes) {
        Some(g) => wire::with_message(w, g),
        None => w,
    }
}

// Each release is a message by itself.
fn send_releases(w: Wire, s: &[u8]) -> Wire
    ensures { result ≡ with_messages w (releases_of s.now) }
{
    let mut next = w;
    for k in 0..s.len() / messages::RELEASE_SIZE {
        let at = k * messages::RELEASE_SIZE;
        next = send(next, &s[at..at + messages::RELEASE_SIZE]);
    }
    next
}

// ---- steps

fn shorter(n: usize, k: usize) -> usize
    ensures { result ≡ min n k }
{
    if n < k { n } else { k }
}

// What is under way after a module step, and the device after its turn.
fn after_step(image: &[u8], p: Parties, m: u8, a: Result<Stepped, Refusal>, b: &[u8]) -> Parties
    ensures { result ≡ after_step image.now p m a b.now }
{
    let w = p.wire;
    let before = p.device;
    match a {
        Ok(Stepped::Turns(_, n)) => {
            let k = shorter(n, b.len());
            let next = send_releases(w, &b[..k]);
            let d = device::turn(image, before, m);
            let after = d.device;
            parties::with_device(parties::with_wire(p, next), after)
        }
        Ok(Stepped::Bids(_, n)) => {
            let k = shorter(n, b.len());
            parties::with_wire(p, send(w, &b[..k]))
        }
        Ok(Stepped::Waits) => p,
        Err(_) => p,
    }
}

fn step_module(image: &[u8], p: Parties, m: u8, buffer: &mut [u8]) -> Played
    ensures { result ≡ module_stepped image.now p m buffer.old }
{
    let x = parties::module_of(p, m);
    let s = module_steps::step(image, m, x, &mut *buffer);
    let a = s.answer;
    let after = s.state;
    let next = parties::with_module(p, m, after);
    let play = after_step(image, next, m, a, &*buffer);
    Played {
        answer: Answer::Module(m, a),
        play,
    }
}

// A module step may write 32 messages.
fn module_step(image: &[u8], p: Parties, m: u8) -> Played
    ensures { result ≡ module_stepped image.now p m (lent_for p.wire 32) }
{
    let mut buffer = [0u8; messages::BUFFER_LENGTH];
    let w = p.wire;
    if wire::has_room(w, 32) {
        step_module(image, p, m, &mut buffer)
    } else {
        step_module(image, p, m, &mut buffer[..0])
    }
}

fn after_serving(p: Parties, a: Result<Served, Refusal>, b: &[u8]) -> Parties
    ensures { result ≡ after_serving p a b.now }
{
    let w = p.wire;
    match a {
        Ok(Served::Sends(_, n)) => {
            let k = shorter(n, b.len());
            parties::with_wire(p, send(w, &b[..k]))
        }
        Ok(Served::Waits) => p,
        Err(_) => p,
    }
}

fn step_supervisor(image: &[u8], p: Parties, v: u8, buffer: &mut [u8]) -> Played
    ensures { result ≡ supervisor_stepped image.now p v buffer.old }
{
    let y = parties::supervisor_of(p, v);
    let s = supervisor_steps::step(image, v, y, &mut *buffer);
    let a = s.answer;
    let after = s.state;
    let next = parties::with_supervisor(p, v, after);
    let play = after_serving(next, a, &*buffer);
    Played {
        answer: Answer::Supervisor(v, a),
        play,
    }
}

// A supervisor step may write one message.
fn supervisor_step(image: &[u8], p: Parties, v: u8) -> Played
    ensures { result ≡ supervisor_stepped image.now p v (lent_for p.wire 1) }
{
    let mut buffer = [0u8; messages::BUFFER_LENGTH];
    let w = p.wire;
    if wire::has_room(w, 1) {
        step_supervisor(image, p, v, &mut buffer)
    } else {
        step_supervisor(image, p, v, &mut buffer[..0])
    }
}

// ---- deliveries, responses and ticks

fn wire_after(w: Wire, k: usize, a: Result<(), Refusal>) -> Wire
    ensures { result ≡ wire_after w k a }
{
    match a {
        Ok(()) => wire::without(w, k),
        Err(_) => w,
    }
}

fn to_module(image: &[u8], p: Parties, k: usize, m: u8, g: Message, bytes: &[u8]) -> Played
    requires { bytes.now ≡ message_bytes g }
    ensures { result ≡ to_module image.now p k m g }
{
    let x = parties::module_of(p, m);
    let c = module_deliveries::deliver(image, m, x, bytes);
    let a = c.answer;
    let after = c.state;
    let w = p.wire;
    let play = parties::with_wire(parties::with_module(p, m, after), wire_after(w, k, a));
    Played {
        answer: Answer::Delivery(g, a),
        play,
    }
}

fn to_supervisor(image: &[u8], p: Parties, k: usize, v: u8, g: Message, bytes: &[u8]) -> Played
    requires { bytes.now ≡ message_bytes g }
    ensures { result ≡ to_supervisor image.now p k v g }
{
    let y = parties::supervisor_of(p, v);
    let c = supervisor_calls::deliver(image, v, y, bytes);
    let a = c.answer;
    let after = c.state;
    let w = p.wire;
    let play = parties::with_wire(parties::with_supervisor(p, v, after), wire_after(w, k, a));
    Played {
        answer: Answer::Delivery(g, a),
        play,
    }
}

// The message goes to the party that it names.
fn to_party(image: &[u8], p: Parties, k: usize, g: Message, bytes: &[u8]) -> Played
    requires { bytes.now ≡ message_bytes g }
    ensures { result ≡ delivered_by image.now p k (Some g) }
{
    match g {
        Message::Bid {
            owner: _,
            supervisor,
        } => to_supervisor(image, p, k, supervisor, g, bytes),
        Message::Permit {
            supervisor: _,
            owner,
            mask: _,
        } => to_module(image, p, k, owner, g, bytes),
        Message::Release {
            owner: _,
            supervisor,
            event: _,
        } => to_supervisor(image, p, k, supervisor, g, bytes),
    }
}

fn delivery(image: &[u8], p: Parties, k: usize) -> Played
    ensures { result ≡ delivered image.now p k }
{
    let w = p.wire;
    let Some(g) = wire::message_at(w, k) else {
        return Played {
            answer: Answer::NoMessage,
            play: p,
        };
    };
    // A permit is the longest message.
    let mut bytes = [0u8; messages::PERMIT_SIZE];
    messages::write(g, &mut bytes, 0);
    let n = messages::length_of(g);
    to_party(image, p, k, g, &bytes[..n])
}

fn response(image: &[u8], p: Parties, m: u8, e: u8) -> Played
    ensures { result ≡ responded image.now p m e }
{
    let c = module_calls::respond(image, m, parties::module_of(p, m), e);
    let before = p.device;
    let d = device::respond(image, before, m, e);
    let a = c.answer;
    let x = c.state;
    let after = d.device;
    Played {
        answer: Answer::Response(m, e, a),
        play: parties::with_device(parties::with_module(p, m, x), after),
    }
}

fn tick(image: &[u8], p: Parties, m: u8, f: Flow) -> Played
    ensures { result ≡ ticked image.now p m f }
{
    let c = module_calls::tick(image, m, parties::module_of(p, m), f);
    let before = p.device;
    let d = device::tick(image, before, m, f);
    let a = c.answer;
    let x = c.state;
    let after = d.device;
    Played {
        answer: Answer::Tick(m, a),
        play: parties::with_device(parties::with_module(p, m, x), after),
    }
}

// So many eighths of a litre.
fn litres_of(n: u16) -> f64
    ensures { result ≡ eighths n }
{
    n as f64 * 0.125
}

// Does what a line asks.
pub fn play(image: &[u8], p: Parties, a: Act) -> Played
    ensures { PlayedAs image.now p a result }
{
    match a {
        Act::Module(m) => module_step(image, p, m),
        Act::Supervisor(v) => supervisor_step(image, p, v),
        Act::Delivery(k) => delivery(image, p, words::wide(k)),
        Act::Response(m, e) => response(image, p, m, e),
        Act::Tick(m, n) => tick(image, p, m, Flow::Litres(litres_of(n))),
        Act::Unfitted(m) => tick(image, p, m, Flow::NoSensor),
        Act::Misshapen => Played {
            answer: Answer::Misshapen,
            play: p,
        },
    }
}
