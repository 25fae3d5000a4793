// Answers as one number: specs/Answer.antt.
#![tactic(auto)]

ghost use Rattle.std.specs.Prelude.{◌≡◌, ◌<◌, eqb};
ghost use Rattle.packing.specs.Flow.{flow_of};
ghost use Rattle.packing.specs.Answer.{packed, called_answer, length_answer, turn_answer, turning_answer, stepped_answer, served_answer};
ghost use Rattle.refusal.specs.Refusal.{refused_number};

use permits::{Served, Stepped};
use refusal::Refusal;
use water::Flow;

// The answer of a refusal's number, what was done, of what, and an offset or a length.
pub fn pack(number: u8, did: u8, value: u8, size: usize) -> u64
    ensures { result ≡ packed number did value size }
{
    let low = u64::from(number) + 256 * u64::from(did) + 65536 * u64::from(value);
    low + 4294967296 * (size % 4294967296) as u64
}

// What a call answers that gives nothing.
pub fn called(c: Result<(), Refusal>) -> u64
    ensures { result ≡ called_answer c }
{
    match c {
        Ok(()) => pack(0, 0, 0, 0),
        Err(e) => pack(e.number, 0, 0, e.offset),
    }
}

// What a call answers that gives the length of what it wrote.
pub fn written(r: Result<usize, Refusal>) -> u64
    ensures { result ≡ length_answer r }
{
    match r {
        Ok(n) => pack(0, 0, 0, n),
        Err(why) => pack(why.number, 0, 0, why.offset),
    }
}

fn turn(t: Option<u8>, size: usize) -> u64
    ensures { result ≡ turn_answer t size }
{
    match t {
        Some(e) => pack(0, 1, e, size),
        None => pack(0, 3, 0, size),
    }
}

pub fn turning(t: Result<Option<u8>, Refusal>) -> u64
    ensures { result ≡ turning_answer t }
{
    match t {
        Ok(did) => turn(did, 0),
        Err(e) => pack(e.number, 0, 0, e.offset),
    }
}

pub fn stepped(s: Result<Stepped, Refusal>) -> u64
    ensures { result ≡ stepped_answer s }
{
    match s {
        Ok(Stepped::Turns(t, size)) => turn(t, size),
        Ok(Stepped::Bids(v, size)) => pack(0, 4, v, size),
        Ok(Stepped::Waits) => pack(0, 6, 0, 0),
        Err(e) => pack(e.number, 0, 0, e.offset),
    }
}

pub fn served(s: Result<Served, Refusal>) -> u64
    ensures { result ≡ served_answer s }
{
    match s {
        Ok(Served::Sends(m, size)) => pack(0, 5, m, size),
        Ok(Served::Waits) => pack(0, 6, 0, 0),
        Err(e) => pack(e.number, 0, 0, e.offset),
    }
}

// Whether a call is accepted.
pub fn is_accepted<T: Copy>(answer: Result<T, Refusal>) -> bool
    ensures { result ≡ eqb (refused_number answer) 0 }
{
    match answer {
        Ok(_) => true,
        Err(e) => e.number == 0,
    }
}

// The flow reading of a tick.
pub fn flow(sensor: u8, litres: f64) -> Flow
    ensures { result ≡ flow_of sensor litres }
{
    if sensor == 0 {
        Flow::NoSensor
    } else {
        Flow::Litres(litres)
    }
}
