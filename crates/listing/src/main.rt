// The listing program: plays the script of standard input on the plan of `plan.bin` and prints what each line got. Crate sheet says what a line
// does and prints, and what a whole script prints (`listed`); here it is read and printed. Lines come byte by byte, so that script and lines may
// be of any length.
#![tactic(auto)]

use device_states::Device;
use lines::Partial;
use places::Places;
use std::io::Read;
use std::{fs, io};
use texts::Text;

// One byte more than a plan may have, so that a longer file is seen to be one.
const ROOM: usize = 49153;

// The bytes that one read asks for.
const PART: usize = 65536;

fn print(rt: &impl Print, t: Text) -> io::Result<()> {
    let bytes = t.bytes;
    let n = t.length;
    rt.write_all(texts::first(&bytes, n))
}

// Plays a line, prints what it got, and gives the device after it.
fn play_line(rt: &impl Print, image: &[u8], d: Device, line: Partial) -> io::Result<Device> {
    let got = sheet::play(image, d, script::parsed(line));
    let text = got.line;
    print(rt, text)?;
    Ok(got.device)
}

// How far the script has come: the device, and the line that is still coming.
#[derive(Clone, Copy)]
struct Progress {
    device: Device,
    line: Partial,
}

// The bytes of a part of the script, one after the other.
fn play_bytes(rt: &impl Print, image: &[u8], mut p: Progress, s: &[u8]) -> io::Result<Progress> {
    for &byte in s {
        if byte == b'\n' {
            p.device = play_line(rt, image, p.device, p.line)?;
            p.line = lines::begun();
        } else {
            p.line = lines::with_byte(p.line, byte);
        }
    }
    Ok(p)
}

// The last line may lack its line feed; nothing behind a line feed is no line.
fn play_last(rt: &impl Print, image: &[u8], p: Progress) -> io::Result<Device> {
    if lines::has_byte(p.line) {
        play_line(rt, image, p.device, p.line)
    } else {
        Ok(p.device)
    }
}

// A proved loop has to end, and nothing says that the input does: so it goes over more turns than a run uses up.
fn play_script(
    rt: &impl Print,
    stdin: &mut impl Read,
    image: &[u8],
    device: Device,
) -> io::Result<Device> {
    let mut p = Progress {
        device,
        line: lines::begun(),
    };
    let mut buf = [0u8; PART];
    for _ in 0..u64::MAX {
        let n = stdin.read(&mut buf).unwrap_or(0);
        if n == 0 {
            break;
        }
        p = play_bytes(rt, image, p, &buf[..n])?;
    }
    play_last(rt, image, p)
}

fn run_on(rt: &(impl Input + Print), image: &[u8], places: Places) -> io::Result<()> {
    let modules = plan::modules_of(image, places);
    let supervisors = plan::supervisors_of(image, places);
    let events = plan::events_of(image, places);
    print(rt, script::header_line(modules, supervisors, events))?;
    let s = device::start(image);
    let first = s.device;
    let d = play_script(rt, &mut rt.reader(), image, first)?;
    print(rt, script::states_line(d, modules, supervisors))
}

fn run(rt: &(impl Input + Print), image: &[u8]) -> io::Result<()> {
    match checker::examine(image) {
        Ok(places) => run_on(rt, image, places),
        Err(e) => print(rt, script::plan_refused_line(e.number, e.offset)),
    }
}

// A missing `plan.bin` is an empty image.
fn main(rt: HostRuntime) -> io::Result<()> {
    let mut image = [0u8; ROOM];
    match fs::open(&rt, "plan.bin") {
        Ok(mut file) => {
            let n = inputs::read_full(&mut file, &mut image);
            drop(file);
            run(&rt, &image[..n])
        }
        Err(_) => run(&rt, b""),
    }
}
