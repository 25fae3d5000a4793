// The program for the workstation: whether the plan of `plan.bin` ever gets stuck, and by which word.
#![tactic(auto)]

use places::Places;
use std::{fs, io};
use texts::Text;

// One byte more than a plan may have, so that a longer file is seen to be one.
const ROOM: usize = 49153;

// The longest answer: a word of 4,095 events and a state of 48 numbers.
const ANSWER: usize = 4143;

fn print(rt: &impl Print, t: Text) -> io::Result<()> {
    let bytes = t.bytes;
    let n = t.length;
    rt.write_all(texts::first(&bytes, n))
}

// A line of a name and numbers, printed one by one, since a word may be longer than a text.
fn print_numbers(rt: &impl Print, name: Text, numbers: &[u8]) -> io::Result<()> {
    print(rt, name)?;
    for &n in numbers {
        print(rt, texts::push_field(texts::empty(), n))?;
    }
    print(rt, texts::word(b"\n"))
}

// The word, and the state that it leads to, which is the last k numbers of the answer.
fn print_stuck(rt: &impl Print, answer: &[u8], k: usize) -> io::Result<()> {
    let (word, states) = answer.split_at(answer.len().saturating_sub(k));
    print_numbers(rt, texts::word(b"word"), word)?;
    print_numbers(rt, texts::word(b"states"), states)
}

fn run_on(rt: &impl Print, image: &[u8], places: Places) -> io::Result<()> {
    let modules = plan::modules_of(image, places);
    let supervisors = plan::supervisors_of(image, places);
    let events = plan::events_of(image, places);
    print(rt, script::header_line(modules, supervisors, events))?;
    let mut answer = [0u8; ANSWER];
    match blocking::find_stuck(image, &mut answer) {
        Ok(None) => print(rt, texts::word(b"never stuck\n")),
        Ok(Some(n)) => {
            let k = words::wide(modules) + words::wide(supervisors);
            print_stuck(rt, texts::first(&answer, n), k)
        }
        Err(e) => print(rt, script::refused_line(e.number)),
    }
}

fn run(rt: &impl Print, image: &[u8]) -> io::Result<()> {
    match checker::examine(image) {
        Ok(places) => run_on(rt, image, places),
        Err(e) => print(rt, script::plan_refused_line(e.number, e.offset)),
    }
}

// A missing `plan.bin` is an empty image.
fn main(rt: HostRuntime) -> io::Result<()> {
    let mut image = [0u8; ROOM];
    match fs::open(&rt, "plan.bin") {
        Ok(mut file) => {
            let n = inputs::read_full(&mut file, &mut image);
            drop(file);
            run(&rt, &image[..n])
        }
        Err(_) => run(&rt, b""),
    }
}
