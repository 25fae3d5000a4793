// The program for the workstation: how many event words of the length on standard input end in each reachable joint state of the plan of `plan.bin`.
#![tactic(auto)]

use std::io::Read;
use std::{fs, io};
use texts::Text;

// One byte more than a plan may have, so that a longer file is seen to be one.
const ROOM: usize = 49153;

// Enough for every answer: 4,097 lines of 20 digits and a line feed.
const ANSWER: usize = 86037;

// The bytes that one read asks for.
const PART: usize = 65536;

fn print(rt: &impl Print, t: Text) -> io::Result<()> {
    let bytes = t.bytes;
    let n = t.length;
    rt.write_all(texts::first(&bytes, n))
}

// A proved loop has to end, and nothing says that the input does: so it goes over more turns than a run uses up.
fn read_length(stdin: &mut impl Read) -> Option<u64> {
    let mut input = length_input::begun();
    let mut buf = [0u8; PART];
    for _ in 0..u64::MAX {
        let n = stdin.read(&mut buf).unwrap_or(0);
        if n == 0 {
            break;
        }
        input = length_input::with_bytes(input, &buf[..n]);
    }
    length_input::length_of(input)
}

fn count(rt: &impl Print, image: &[u8], length: u64) -> io::Result<()> {
    let mut answer = [0u8; ANSWER];
    match counting::count_words(image, length, &mut answer) {
        Ok(n) => rt.write_all(texts::first(&answer, n)),
        Err(e) => print(rt, script::refused_line(e.number)),
    }
}

fn run_on(rt: &(impl io::Input + Print), image: &[u8]) -> io::Result<()> {
    match read_length(&mut rt.reader()) {
        Some(n) => count(rt, image, n),
        None => print(rt, script::refused_line(10)),
    }
}

fn run(rt: &(impl io::Input + Print), image: &[u8]) -> io::Result<()> {
    match checker::examine(image) {
        Ok(_) => run_on(rt, image),
        Err(e) => print(rt, script::plan_refused_line(e.number, e.offset)),
    }
}

// A missing `plan.bin` is an empty image.
fn main(rt: HostRuntime) -> io::Result<()> {
    let mut image = [0u8; ROOM];
    match fs::open(&rt, "plan.bin") {
        Ok(mut file) => {
            let n = inputs::read_full(&mut file, &mut image);
            drop(file);
            run(&rt, &image[..n])
        }
        Err(_) => run(&rt, b""),
    }
}
