// The simulation: plays the script of standard input on the controller of many devices, with every module and every supervisor of the plan of
// `plan.bin` as its own party, and feeds one device beside them the same turns, responses and ticks. Crate simulation says what a line does
// and crate answers what is printed of it; here it is read and printed. tests/reference/many_devices.py prints the same.
#![tactic(auto)]

use answers::Row;
use lines::Partial;
use parties::Parties;
use places::Places;
use simulation::Answer;
use std::io::Read;
use std::{fs, io};
use texts::Text;
use wire::Wire;

// One byte more than a plan may have, so that a longer file is seen to be one.
const ROOM: usize = 49153;

// The bytes that one read asks for.
const PART: usize = 65536;

// The places of the plan's records, the parties, and the rows of events fired and of commands that are still to be printed.
#[derive(Clone, Copy)]
struct State {
    places: Places,
    parties: Parties,
    fired: Row,
    commands: Row,
}

fn print(rt: &impl Print, t: Text) -> io::Result<()> {
    let bytes = t.bytes;
    let n = t.length;
    rt.write_all(texts::first(&bytes, n))
}

fn print_row(rt: &impl Print, word: &[u8], r: Row) -> io::Result<()> {
    rt.write_all(word)?;
    for &n in r.numbers.iter().take(r.count) {
        print(rt, texts::push_field(texts::empty(), n))?;
    }
    rt.write_all(b"\n")
}

// The row with one event more, if there is one; a full row is printed first.
fn gathered(rt: &impl Print, word: &[u8], r: Row, event: Option<u8>) -> io::Result<Row> {
    let Some(e) = event else {
        return Ok(r);
    };
    if answers::is_full(r) {
        print_row(rt, word, r)?;
        Ok(answers::with_number(answers::no_row(), e))
    } else {
        Ok(answers::with_number(r, e))
    }
}

// The messages from a place on.
fn print_sent(rt: &impl Print, w: Wire, from: usize) -> io::Result<()> {
    for k in from..w.count {
        let Some(g) = wire::message_at(w, k) else {
            return Ok(());
        };
        print(rt, answers::sent_line(g))?;
    }
    Ok(())
}

// The rows with the event that fired and the command, if there are any.
fn recorded(rt: &impl Print, image: &[u8], t: State, a: Answer) -> io::Result<State> {
    let fired = t.fired;
    let commands = t.commands;
    let places = t.places;
    let mut next = t;
    next.fired = gathered(rt, b"record", fired, answers::fired(a))?;
    next.commands = gathered(
        rt,
        b"commands",
        commands,
        answers::command(image, places, a),
    )?;
    Ok(next)
}

// Plays a line, and prints what it got and the messages sent, which stand behind those that were under way.
fn play_line(rt: &impl Print, image: &[u8], t: State, line: Partial) -> io::Result<State> {
    let before = t.parties;
    let sent = before.wire;
    let from = sent.count;
    let got = simulation::play(image, before, acts::parsed(line));
    let a = got.answer;
    let parties = got.play;
    let w = parties.wire;
    print(rt, answers::answer_line(a))?;
    print_sent(rt, w, from)?;
    let mut next = t;
    next.parties = parties;
    recorded(rt, image, next, a)
}

// ---- the script

// How far the script has come: the state, and the line that is still coming.
#[derive(Clone, Copy)]
struct Progress {
    state: State,
    line: Partial,
}

// The bytes of a part of the script, one after the other.
fn play_bytes(rt: &impl Print, image: &[u8], mut p: Progress, s: &[u8]) -> io::Result<Progress> {
    for &byte in s {
        if byte == b'\n' {
            p.state = play_line(rt, image, p.state, p.line)?;
            p.line = lines::begun();
        } else {
            p.line = lines::with_byte(p.line, byte);
        }
    }
    Ok(p)
}

// The last line may lack its line feed; nothing behind a line feed is no line.
fn play_last(rt: &impl Print, image: &[u8], p: Progress) -> io::Result<State> {
    if lines::has_byte(p.line) {
        play_line(rt, image, p.state, p.line)
    } else {
        Ok(p.state)
    }
}

// A proved loop has to end, and nothing says that the input does: so it goes over more turns than a run uses up.
fn play_script(
    rt: &impl Print,
    stdin: &mut impl Read,
    image: &[u8],
    state: State,
) -> io::Result<State> {
    let mut p = Progress {
        state,
        line: lines::begun(),
    };
    let mut buf = [0u8; PART];
    for _ in 0..u64::MAX {
        let n = stdin.read(&mut buf).unwrap_or(0);
        if n == 0 {
            break;
        }
        p = play_bytes(rt, image, p, &buf[..n])?;
    }
    play_last(rt, image, p)
}

// ---- the start and the end

// The rows of the end: events fired, commands, the parties' states and the one device's.
fn print_end(rt: &impl Print, t: State, modules: u8, supervisors: u8) -> io::Result<()> {
    let parties = t.parties;
    let device = parties.device;
    let fired = t.fired;
    let commands = t.commands;
    print_row(rt, b"record", fired)?;
    print_row(rt, b"commands", commands)?;
    print(
        rt,
        script::states_line(parties::seen(parties), modules, supervisors),
    )?;
    print(rt, script::device_line(device, modules, supervisors))
}

fn run_on(rt: &(impl Input + Print), image: &[u8], places: Places) -> io::Result<()> {
    let modules = plan::modules_of(image, places);
    let supervisors = plan::supervisors_of(image, places);
    let events = plan::events_of(image, places);
    print(rt, script::header_line(modules, supervisors, events))?;
    let parties = parties::start(image);
    let fired = answers::no_row();
    let commands = answers::no_row();
    let t = State {
        places,
        parties,
        fired,
        commands,
    };
    let last = play_script(rt, &mut rt.reader(), image, t)?;
    print_end(rt, last, modules, supervisors)
}

fn run(rt: &(impl Input + Print), image: &[u8]) -> io::Result<()> {
    match checker::examine(image) {
        Ok(places) => run_on(rt, image, places),
        Err(e) => print(rt, script::plan_refused_line(e.number, e.offset)),
    }
}

// A missing `plan.bin` is an empty image.
fn main(rt: HostRuntime) -> io::Result<()> {
    let mut image = [0u8; ROOM];
    match fs::open(&rt, "plan.bin") {
        Ok(mut file) => {
            let n = inputs::read_full(&mut file, &mut image);
            drop(file);
            run(&rt, &image[..n])
        }
        Err(_) => run(&rt, b""),
    }
}
