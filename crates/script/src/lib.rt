// The lines of the listing and the simulation: what a line of the listing's script is, and lines of output as values.
#![tactic(auto)]

ghost use Rattle.std.specs.Prelude.{◌≡◌, ◌++◌, false, ◌+◌, ◌≤◌, length, take};
ghost use Rattle.lines.specs.Partial.{partly};
ghost use Rattle.texts.specs.Ascii.{ascii};
ghost use Rattle.texts.specs.Digits.{hexes};
ghost use Rattle.texts.specs.Numbers.{spaced, spaced_all};
ghost use Rattle.texts.specs.Text.{text_of, appended, cut};
ghost use Rattle.script.specs.Line.{turn_by, response_by, pair_of, line_of, parsed_of, is_pair, is_line, LineAs};
ghost use Rattle.script.specs.Answers.{states_of, header_line, plan_refused_line, refused_line, turn_line, response_line, states_row, states_line};
ghost use Rattle.script.specs.SimulationLines.{sent_line, delivered_line, stepped_line, served_line, tick_line, nothing_line, device_line};

use device_states::Device;
use lines::Partial;
use modules::Own;
use permits::{Served, Stepped};
use refusal::Refusal;
use texts::Text;

// What a line of the script is.
#[derive(Clone, Copy)]
pub enum Line {
    Turn(u8),
    Response(u8, u8),
    Misshapen,
}

fn turn_by(m: Option<u8>) -> Line
    ensures { result ≡ turn_by m }
{
    match m {
        Some(n) => Line::Turn(n),
        None => Line::Misshapen,
    }
}

fn response_by(m: Option<u8>, e: Option<u8>) -> Line
    ensures { result ≡ response_by m e }
{
    match m {
        Some(n) => match e {
            Some(k) => Line::Response(n, k),
            None => Line::Misshapen,
        },
        None => Line::Misshapen,
    }
}

// The two numbers behind `r `.
pub fn pair_of(s: &[u8]) -> Line
    ensures { LineAs (pair_of s.now) (is_pair s.now) result }
{
    let k = lines::space_in(s);
    if k < s.len() {
        let j = k + 1;
        let m = lines::number_of(&s[..k]);
        let e = lines::number_of(&s[j..]);
        response_by(m, e)
    } else {
        Line::Misshapen
    }
}

fn line_of(s: &[u8]) -> Line
    ensures { result ≡ line_of s.now }
{
    if s.len() < 2 {
        return Line::Misshapen;
    }
    if s[1] == b' ' {
        let rest = &s[2..];
        match s[0] {
            b't' => turn_by(lines::number_of(rest)),
            b'r' => pair_of(rest),
            _ => Line::Misshapen,
        }
    } else {
        Line::Misshapen
    }
}

// What the line is, if it ends here.
pub fn parsed(p: Partial) -> Line
    ensures { LineAs (parsed_of p) (partly is_line false p) result }
{
    let length = p.length;
    if length < 12 {
        let bytes = p.bytes;
        line_of(&bytes[..length])
    } else {
        Line::Misshapen
    }
}

fn state_of(own: Own) -> u8
    ensures { result ≡ own.state }
{
    own.state
}

// The states of the first n modules, and how long they are at most.
fn push_states(t: Text, modules: [Own; 16], n: usize) -> Text
    ensures { (result ≡ appended t (spaced_all (take n (states_of modules)))) × (length (spaced_all (take n (states_of modules))) ≤ 64) }
{
    let mut next = t;
    for i in 0..n {
        if 16 <= i {
            return next;
        }
        next = texts::push_field(next, state_of(modules[i]));
    }
    next
}

// The states of the first n supervisors, and how long they are at most.
fn push_first(t: Text, states: [u8; 32], n: usize) -> Text
    ensures { (result ≡ appended t (spaced_all (take n states))) × (length (spaced_all (take n states)) ≤ 128) }
{
    if n < 32 {
        texts::push_numbers(t, &states[..n])
    } else {
        texts::push_numbers(t, &states)
    }
}

// A word, a number and a second word.
fn short_line(first: &[u8], n: u8, last: &[u8]) -> Text
    requires { length first.now + length last.now ≤ 100 }
    ensures { result ≡ text_of (first.now ++ spaced n ++ last.now) }
{
    texts::push_all(texts::push_field(texts::word(first), n), last)
}

// Two words, each with a number behind it, and the line feed.
fn long_line(first: &[u8], m: u8, second: &[u8], e: u8) -> Text
    requires { length first.now + length second.now ≤ 100 }
    ensures { result ≡ text_of (first.now ++ spaced m ++ second.now ++ spaced e ++ ascii "\n") }
{
    let t = texts::push_field(texts::word(first), m);
    texts::push(texts::push_field(texts::push_all(t, second), e), b'\n')
}

// `plan 2 1 4`.
pub fn header_line(modules: u8, supervisors: u8, events: u8) -> Text
    ensures { result ≡ text_of (header_line modules supervisors events) }
{
    let t = texts::push_field(texts::word(b"plan"), modules);
    texts::push(
        texts::push_field(texts::push_field(t, supervisors), events),
        b'\n',
    )
}

// `plan refused N at B`.
pub fn plan_refused_line(n: u8, at: usize) -> Text
    ensures { result ≡ text_of (plan_refused_line n at) }
{
    let t = texts::push_field(texts::word(b"plan refused"), n);
    texts::push(texts::push_spaced(texts::push_all(t, b" at"), at), b'\n')
}

// `refused N`.
pub fn refused_line(n: u8) -> Text
    ensures { result ≡ text_of (refused_line n) }
{
    short_line(b"refused", n, b"\n")
}

// What a turn of module m got.
pub fn turn_line(m: u8, a: Result<Option<u8>, Refusal>) -> Text
    ensures { result ≡ text_of (turn_line m a) }
{
    match a {
        Ok(t) => match t {
            Some(e) => long_line(b"turn", m, b" event", e),
            None => short_line(b"turn", m, b" none\n"),
        },
        Err(e) => refused_line(e.number),
    }
}

// What a response e of module m got.
pub fn response_line(m: u8, e: u8, a: Result<(), Refusal>) -> Text
    ensures { result ≡ text_of (response_line m e a) }
{
    match a {
        Ok(()) => long_line(b"response", m, b" queued", e),
        Err(e) => refused_line(e.number),
    }
}

// A word, and the states of the first modules and supervisors.
fn states_row(word: &[u8], d: Device, modules: u8, supervisors: u8) -> Text
    requires { length word.now ≤ 15 }
    ensures { result ≡ text_of (states_row word.now d modules supervisors) }
{
    let own = d.modules;
    let states = d.supervisors;
    let t = push_states(texts::word(word), own, words::wide(modules));
    let t = push_first(t, states, words::wide(supervisors));
    texts::push(t, b'\n')
}

// `states 1 0 0`.
pub fn states_line(d: Device, modules: u8, supervisors: u8) -> Text
    ensures { result ≡ text_of (states_line d modules supervisors) }
{
    states_row(b"states", d, modules, supervisors)
}

// ---- the lines of the simulation

// A word and bytes in hexadecimal.
fn bytes_line(word: &[u8], s: &[u8]) -> Text
    ensures { result ≡ cut (word.now ++ hexes s.now ++ ascii "\n") }
{
    texts::push(texts::push_hexes(texts::word(word), s), b'\n')
}

// `sent BYTES`.
pub fn sent_line(s: &[u8]) -> Text
    ensures { result ≡ cut (sent_line s.now) }
{
    bytes_line(b"sent ", s)
}

// `delivered BYTES`.
pub fn delivered_line(s: &[u8]) -> Text
    ensures { result ≡ cut (delivered_line s.now) }
{
    bytes_line(b"delivered ", s)
}

// What a tick of module m got.
pub fn tick_line(m: u8, a: Result<(), Refusal>) -> Text
    ensures { result ≡ text_of (tick_line m a) }
{
    match a {
        Ok(()) => short_line(b"tick", m, b"\n"),
        Err(e) => refused_line(e.number),
    }
}

// What a step of module m got.
pub fn stepped_line(m: u8, a: Result<Stepped, Refusal>) -> Text
    ensures { result ≡ text_of (stepped_line m a) }
{
    match a {
        Ok(done) => match done {
            Stepped::Turns(t, _) => match t {
                Some(e) => long_line(b"module", m, b" event", e),
                None => short_line(b"module", m, b" none\n"),
            },
            Stepped::Bids(v, _) => long_line(b"module", m, b" bids", v),
            Stepped::Waits => short_line(b"module", m, b" waits\n"),
        },
        Err(e) => refused_line(e.number),
    }
}

// What a step of supervisor v got.
pub fn served_line(v: u8, a: Result<Served, Refusal>) -> Text
    ensures { result ≡ text_of (served_line v a) }
{
    match a {
        Ok(done) => match done {
            Served::Sends(m, _) => long_line(b"supervisor", v, b" permits", m),
            Served::Waits => short_line(b"supervisor", v, b" waits\n"),
        },
        Err(e) => refused_line(e.number),
    }
}

// `nothing`.
pub fn nothing_line() -> Text
    ensures { result ≡ text_of nothing_line }
{
    texts::word(b"nothing\n")
}

// `device 1 0 0`.
pub fn device_line(d: Device, modules: u8, supervisors: u8) -> Text
    ensures { result ≡ text_of (device_line d modules supervisors) }
{
    states_row(b"device", d, modules, supervisors)
}
