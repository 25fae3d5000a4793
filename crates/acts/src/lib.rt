// The script of the simulation: what a line asks.
#![tactic(auto)]

ghost use Rattle.std.specs.Prelude.{◌≡◌};
ghost use Rattle.acts.specs.Act.{reading_by, reading_of, module_by, supervisor_by, delivery_by, response_by, tick_by, tick_of, act_of, ActAs};

use lines::Partial;
use script::Line;

// What a line of the script asks: a step of a module or a supervisor, a delivery, a response, a tick with a reading in eighths of a litre, or
// one where no sensor is fitted.
#[derive(Clone, Copy)]
pub enum Act {
    Module(u8),
    Supervisor(u8),
    Delivery(u8),
    Response(u8, u8),
    Tick(u8, u16),
    Unfitted(u8),
    Misshapen,
}

// What stands behind a tick's module.
#[derive(Clone, Copy)]
enum Reading {
    Eighths(u16),
    NoSensor,
    Misshapen,
}

fn reading_by(n: Option<u16>) -> Reading
    ensures { result ≡ reading_by n }
{
    match n {
        Some(e) => Reading::Eighths(e),
        None => Reading::Misshapen,
    }
}

// A reading: the sign that no sensor is fitted, or a number up to 65,535 without leading zeros.
fn reading_of(s: &[u8]) -> Reading
    ensures { result ≡ reading_of s.now }
{
    let alone = s.len() == 1;
    let sign = words::byte_at(s, 0) == b'-';
    if alone & sign {
        Reading::NoSensor
    } else {
        reading_by(lines::number_up_to(s, 65535))
    }
}

fn module_by(m: Option<u8>) -> Act
    ensures { result ≡ module_by m }
{
    match m {
        Some(n) => Act::Module(n),
        None => Act::Misshapen,
    }
}

fn supervisor_by(m: Option<u8>) -> Act
    ensures { result ≡ supervisor_by m }
{
    match m {
        Some(n) => Act::Supervisor(n),
        None => Act::Misshapen,
    }
}

fn delivery_by(m: Option<u8>) -> Act
    ensures { result ≡ delivery_by m }
{
    match m {
        Some(n) => Act::Delivery(n),
        None => Act::Misshapen,
    }
}

fn response_by(l: Line) -> Act
    ensures { result ≡ response_by l }
{
    match l {
        Line::Turn(_) => Act::Misshapen,
        Line::Response(m, e) => Act::Response(m, e),
        Line::Misshapen => Act::Misshapen,
    }
}

fn tick_by(m: Option<u8>, n: Reading) -> Act
    ensures { result ≡ tick_by m n }
{
    match m {
        Some(k) => match n {
            Reading::Eighths(e) => Act::Tick(k, e),
            Reading::NoSensor => Act::Unfitted(k),
            Reading::Misshapen => Act::Misshapen,
        },
        None => Act::Misshapen,
    }
}

// The module and the reading behind `k `.
fn tick_of(s: &[u8]) -> Act
    ensures { result ≡ tick_of s.now }
{
    let k = lines::space_in(s);
    if k < s.len() {
        let j = k + 1;
        let m = lines::number_of(&s[..k]);
        let n = reading_of(&s[j..]);
        tick_by(m, n)
    } else {
        Act::Misshapen
    }
}

fn act_of(s: &[u8]) -> Act
    ensures { result ≡ act_of s.now }
{
    if s.len() < 2 {
        return Act::Misshapen;
    }
    if s[1] == b' ' {
        let rest = &s[2..];
        match s[0] {
            b'm' => module_by(lines::number_of(rest)),
            b's' => supervisor_by(lines::number_of(rest)),
            b'd' => delivery_by(lines::number_of(rest)),
            b'r' => response_by(script::pair_of(rest)),
            b'k' => tick_of(rest),
            _ => Act::Misshapen,
        }
    } else {
        Act::Misshapen
    }
}

// What the line asks, if it ends here.
pub fn parsed(p: Partial) -> Act
    ensures { ActAs p result }
{
    let length = p.length;
    if length < 12 {
        let bytes = p.bytes;
        act_of(&bytes[..length])
    } else {
        Act::Misshapen
    }
}
