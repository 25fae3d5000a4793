// The program for the workstation: the plan of `plan.bin` on paper, one line for each record, page by page.
#![tactic(auto)]

use std::{fs, io};
use texts::Text;

// One byte more than a plan may have, so that a longer file is seen to be one.
const ROOM: usize = 49153;

// Enough for every plan: 10,049 records take 168 pages of 60 lines of 73 bytes.
const PAGES: usize = 735840;

fn print(rt: &impl Print, t: Text) -> io::Result<()> {
    let bytes = t.bytes;
    let n = t.length;
    rt.write_all(texts::first(&bytes, n))
}

// Made in a function of its own, so that the proof of its caller has the array's length and not its bytes.
fn zeroed_pages() -> [u8; PAGES] {
    [0u8; PAGES]
}

fn run(rt: &impl Print, image: &[u8]) -> io::Result<()> {
    let mut pages = zeroed_pages();
    match paper::print(image, &mut pages) {
        Ok(n) => rt.write_all(texts::first(&pages, n)),
        Err(e) => print(rt, script::plan_refused_line(e.number, e.offset)),
    }
}

// A missing `plan.bin` is an empty image.
fn main(rt: HostRuntime) -> io::Result<()> {
    let mut image = [0u8; ROOM];
    match fs::open(&rt, "plan.bin") {
        Ok(mut file) => {
            let n = inputs::read_full(&mut file, &mut image);
            drop(file);
            run(&rt, &image[..n])
        }
        Err(_) => run(&rt, b""),
    }
}
