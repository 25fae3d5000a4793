// Runs the calls of the one-device controller on the lines of standard input, and prints what each gives.
// tests/reference/one_device.py says which lines there are, and prints the same; crate example_lines reads them, crate
// example_states the own part of a module, and crate texts makes what is printed.
#![tactic(auto)]

use device::DeviceCalled;
use device_states::Device;
use modules::Own;
use refusal::Refusal;
use std::io;
use texts::Text;
use water::Flow;

fn say(rt: &impl Print, s: &[u8]) -> io::Result<()> {
    rt.write_all(s)
}

fn print(rt: &impl Print, t: Text) -> io::Result<()> {
    let bytes = t.bytes;
    let n = t.length;
    say(rt, texts::first(&bytes, n))
}

fn print_refused(rt: &impl Print, number: u8, offset: usize) -> io::Result<()> {
    let t = texts::push_all(texts::push_field(texts::word(b"refused"), number), b" at");
    print(rt, texts::push(texts::push_spaced(t, offset), b'\n'))
}

fn print_called(rt: &impl Print, answer: Result<(), Refusal>) -> io::Result<()> {
    match answer {
        Ok(()) => say(rt, b"done\n"),
        Err(e) => print_refused(rt, e.number, e.offset),
    }
}

fn print_event(rt: &impl Print, event: u8) -> io::Result<()> {
    print(
        rt,
        texts::push(texts::push_field(texts::word(b"event"), event), b'\n'),
    )
}

fn print_turn(rt: &impl Print, turn: Option<u8>) -> io::Result<()> {
    match turn {
        Some(e) => print_event(rt, e),
        None => say(rt, b"none\n"),
    }
}

fn print_turning(rt: &impl Print, answer: Result<Option<u8>, Refusal>) -> io::Result<()> {
    match answer {
        Ok(turn) => print_turn(rt, turn),
        Err(e) => print_refused(rt, e.number, e.offset),
    }
}

fn print_own(rt: &impl Print, own: Own) -> io::Result<()> {
    print(
        rt,
        texts::push(example_states::push_own(texts::empty(), own), b'\n'),
    )
}

fn print_states(rt: &impl Print, d: Device) -> io::Result<()> {
    let states = d.supervisors;
    print(
        rt,
        texts::push(texts::push_numbers(texts::word(b"states"), &states), b'\n'),
    )
}

fn run_set(mut d: Device, s: &[u8]) -> Device {
    let m = example_lines::number_in(s, 1) as usize;
    if m < 16 {
        let own = d.modules[m];
        d.modules[m] = example_states::with_field(own, s, 2);
    }
    d
}

fn run_setv(mut d: Device, s: &[u8]) -> Device {
    let v = example_lines::number_in(s, 1) as usize;
    if v < 32 {
        d.supervisors[v] = example_lines::byte_in(s, 2);
    }
    d
}

fn run_own(rt: &impl Print, d: Device, s: &[u8]) -> io::Result<Device> {
    let m = example_lines::number_in(s, 1) as usize;
    if m < 16 {
        print_own(rt, d.modules[m])?;
    }
    Ok(d)
}

// The lines without an image: `own`, `states`, `set` and `setv`.
fn run_state(rt: &impl Print, d: Device, s: &[u8]) -> io::Result<Device> {
    if words::byte_at(s, 0) == b'o' {
        run_own(rt, d, s)
    } else if words::byte_at(s, 1) == b't' {
        print_states(rt, d)?;
        Ok(d)
    } else if words::byte_at(s, 3) == b'v' {
        Ok(run_setv(d, s))
    } else {
        Ok(run_set(d, s))
    }
}

// Prints the answer, and gives the state after it.
fn called(rt: &impl Print, c: DeviceCalled) -> io::Result<Device> {
    let answer = c.answer;
    print_called(rt, answer)?;
    Ok(c.device)
}

fn run_turn(rt: &impl Print, image: &[u8], d: Device, s: &[u8]) -> io::Result<Device> {
    let t = device::turn(image, d, example_lines::byte_in(s, 1));
    let answer = t.answer;
    print_turning(rt, answer)?;
    Ok(t.device)
}

// So many ticks, of which the last is printed.
fn run_ticks(
    rt: &impl Print,
    image: &[u8],
    d: Device,
    m: u8,
    f: Flow,
    times: u64,
) -> io::Result<Device> {
    let mut c = device::tick(image, d, m, f);
    for _ in 1..times {
        c = device::tick(image, c.device, m, f);
    }
    called(rt, c)
}

// A line of `turn`, `tick`, `ticks` or `respond`.
fn run_call(rt: &impl Print, image: &[u8], d: Device, s: &[u8]) -> io::Result<Device> {
    let m = example_lines::byte_in(s, 1);
    if words::byte_at(s, 0) == b'r' {
        called(
            rt,
            device::respond(image, d, m, example_lines::byte_in(s, 2)),
        )
    } else if words::byte_at(s, 1) == b'u' {
        run_turn(rt, image, d, s)
    } else if words::byte_at(s, 4) == b's' {
        run_ticks(
            rt,
            image,
            d,
            m,
            example_states::flow_in(s, 3),
            example_lines::number_in(s, 2),
        )
    } else {
        called(rt, device::tick(image, d, m, example_states::flow_in(s, 2)))
    }
}

// The device, and the image's length.
#[derive(Clone, Copy)]
struct Held {
    device: Device,
    n: usize,
}

fn run_line(rt: &impl Print, img: &mut [u8], r: Held, s: &[u8]) -> io::Result<Held> {
    let d = r.device;
    let n = r.n;
    match words::byte_at(s, 0) {
        b'#' => {
            say(rt, s)?;
            say(rt, b"\n")?;
            Ok(r)
        }
        b'p' => {
            let n = example_lines::image_in(&mut *img, s, 1);
            Ok(Held {
                device: called(rt, device::start(&img[..n]))?,
                n,
            })
        }
        b'i' => Ok(Held {
            device: d,
            n: example_lines::image_in(img, s, 1),
        }),
        b't' | b'r' => {
            if n <= img.len() {
                Ok(Held {
                    device: run_call(rt, &img[..n], d, s)?,
                    n,
                })
            } else {
                Ok(r)
            }
        }
        _ => Ok(Held {
            device: run_state(rt, d, s)?,
            n,
        }),
    }
}

// Runs each line. An image has room for eight bytes above the limit.
fn run(rt: &impl Print, text: &[u8]) -> io::Result<()> {
    let mut room = [0u8; 49160];
    let img: &mut [u8] = &mut room;
    let none = Held {
        device: device::start(b"").device,
        n: 0,
    };
    text.split_inclusive(|b| *b == b'\n').try_fold(
        none,
        |r, line| run_line(rt, &mut *img, r, example_lines::line_at(line, 0)),
    )?;
    Ok(())
}

// Input beyond 262,144 bytes is left out.
fn main(rt: HostRuntime) -> io::Result<()> {
    let mut text = [0u8; 262144];
    let mut input = rt.stdin();
    let n = inputs::read_full(&mut input, &mut text);
    run(&rt, &text[..n])
}
