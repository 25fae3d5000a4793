// The program for the workstation: whether the plan image on standard input is accepted. It is read once, in pieces, and never held as a whole.
#![tactic(auto)]

use pieces::CheckState;
use std::io;
use std::io::Read;
use texts::Text;

// The bytes that one read asks for.
const PIECE: usize = 512;

fn print(rt: &impl Print, t: Text) -> io::Result<()> {
    let bytes = t.bytes;
    let n = t.length;
    rt.write_all(texts::first(&bytes, n))
}

// The check of the whole image, or none if it cannot be read to its end. A proved loop has to end, and nothing says that the input does: so it goes
// over more turns than a run uses up.
fn read_image(stdin: &mut impl Read) -> Option<CheckState> {
    let mut state = pieces::start();
    let mut buf = [0u8; PIECE];
    for _ in 0..u64::MAX {
        match stdin.read(&mut buf) {
            Ok(0) => return Some(state),
            Ok(n) => state = pieces::take(state, &buf[..n]),
            Err(_) => return None,
        }
    }
    None
}

// Of an image that cannot be read to its end nothing is told.
fn main(rt: HostRuntime) -> io::Result<()> {
    let Some(state) = read_image(&mut rt.stdin()) else {
        return print(&rt, texts::word(b"not read\n"));
    };
    match pieces::verdict(state) {
        Ok(()) => print(&rt, texts::word(b"accepted\n")),
        Err(e) => print(&rt, script::plan_refused_line(e.number, e.offset)),
    }
}
