// Runs the calls of the distributed controller on the lines of standard input, and prints what each gives.
// tests/reference/many_vectors.py says which lines there are, and prints the same; crate example_lines reads them, crate
// example_states the own part of a module, and crate texts makes what is printed.
#![tactic(auto)]

use messages::Message;
use permits::{Holder, Module, ModuleCalled, Served, Stepped, Supervisor, SupervisorCalled};
use refusal::Refusal;
use std::io;
use texts::Text;

fn say(rt: &impl Print, s: &[u8]) -> io::Result<()> {
    rt.write_all(s)
}

fn print(rt: &impl Print, t: Text) -> io::Result<()> {
    let bytes = t.bytes;
    let n = t.length;
    say(rt, texts::first(&bytes, n))
}

// ---- what is printed

fn refused(number: u8, offset: usize) -> Text {
    let t = texts::push_field(texts::word(b"refused"), number);
    texts::push_spaced(texts::push_all(t, b" at"), offset)
}

fn print_called(rt: &impl Print, answer: Result<(), Refusal>) -> io::Result<()> {
    match answer {
        Ok(()) => say(rt, b"done\n"),
        Err(e) => print(rt, texts::push(refused(e.number, e.offset), b'\n')),
    }
}

// A word, a number and the bytes written.
fn wrote(what: &[u8], x: u8, n: usize) -> Text {
    texts::push_spaced(texts::push_field(texts::word(what), x), n)
}

fn turn_text(turn: Option<u8>, n: usize) -> Text {
    match turn {
        Some(e) => wrote(b"event", e, n),
        None => texts::push_spaced(texts::word(b"none"), n),
    }
}

fn stepped_text(answer: Result<Stepped, Refusal>) -> Text {
    match answer {
        Ok(Stepped::Turns(turn, n)) => turn_text(turn, n),
        Ok(Stepped::Bids(v, n)) => wrote(b"bids", v, n),
        Ok(Stepped::Waits) => texts::word(b"waits"),
        Err(e) => refused(e.number, e.offset),
    }
}

fn served_text(answer: Result<Served, Refusal>) -> Text {
    match answer {
        Ok(Served::Sends(m, n)) => wrote(b"sends", m, n),
        Ok(Served::Waits) => texts::word(b"waits"),
        Err(e) => refused(e.number, e.offset),
    }
}

// The buffer behind an answer.
fn print_buffer(rt: &impl Print, s: &[u8]) -> io::Result<()> {
    print(
        rt,
        texts::push(texts::push_buffer(texts::word(b" "), s), b'\n'),
    )
}

fn print_module(rt: &impl Print, x: Module) -> io::Result<()> {
    let own = x.own;
    let t = texts::push_digits(texts::word(b"held "), x.held as u64, 8);
    let t = texts::push_digits(texts::push_all(t, b" received "), x.received, 16);
    let t = texts::push_field(texts::push_all(t, b" bid"), fields::flag_of(x.bid));
    let t = example_states::push_own(texts::push(t, b' '), own);
    print(rt, texts::push(t, b'\n'))
}

fn push_holder(t: Text, holder: Holder) -> Text {
    match holder {
        Holder::Home => texts::push_all(t, b" home"),
        Holder::Out(m) => texts::push_field(t, m),
    }
}

fn print_supervisor(rt: &impl Print, y: Supervisor) -> io::Result<()> {
    let holder = y.holder;
    let t = texts::push_field(texts::word(b"state"), y.state);
    let t = texts::push_digits(texts::push_all(t, b" noted "), y.noted as u64, 4);
    let t = push_holder(texts::push_all(t, b" holder"), holder);
    let t = texts::push_field(texts::push_all(t, b" last"), y.last);
    print(rt, texts::push(t, b'\n'))
}

fn message_text(g: Message) -> Text {
    match g {
        Message::Bid { owner, supervisor } => texts::push_numbers(
            texts::word(b"bid"),
            &[owner, supervisor],
        ),
        Message::Permit {
            supervisor,
            owner,
            mask,
        } => {
            let t = texts::push_numbers(texts::word(b"permit"), &[supervisor, owner]);
            texts::push_digits(texts::push(t, b' '), mask, 16)
        }
        Message::Release {
            owner,
            supervisor,
            event,
        } => texts::push_numbers(texts::word(b"release"), &[owner, supervisor, event]),
    }
}

fn print_parsed(rt: &impl Print, p: Option<Message>) -> io::Result<()> {
    match p {
        Some(g) => print(rt, texts::push(message_text(g), b'\n')),
        None => say(rt, b"misshapen\n"),
    }
}

// ---- damage

// The module with another field: `held`, `received`, `bid`, or one of its own part.
fn with_part(mut x: Module, s: &[u8]) -> Module {
    match example_lines::letter_in(s, 1, 0) {
        b'h' => {
            x.held = (example_lines::bits_in(s, 2) % 0x1_0000_0000) as u32;
            x
        }
        b'b' => {
            x.bid = example_lines::number_in(s, 2) == 1;
            x
        }
        _ => {
            // No other name has this letter third.
            if example_lines::letter_in(s, 1, 2) == b'c' {
                x.received = example_lines::bits_in(s, 2);
            } else {
                x.own = example_states::with_field(x.own, s, 1);
            }
            x
        }
    }
}

// The holder that stands behind two spaces of the line, `home` or a number.
fn holder_in(s: &[u8]) -> Holder {
    if example_lines::letter_in(s, 2, 0) == b'h' {
        Holder::Home
    } else {
        Holder::Out(example_lines::byte_in(s, 2))
    }
}

// The supervisor with another field: `state`, `noted`, `holder` or `last`.
fn with_note(mut y: Supervisor, s: &[u8]) -> Supervisor {
    match example_lines::letter_in(s, 1, 0) {
        b's' => {
            y.state = example_lines::byte_in(s, 2);
            y
        }
        b'n' => {
            y.noted = (example_lines::bits_in(s, 2) % 65536) as u16;
            y
        }
        b'h' => {
            let holder = holder_in(s);
            permits::with_holder(y, holder)
        }
        _ => {
            y.last = example_lines::byte_in(s, 2);
            y
        }
    }
}

// ---- the calls

// Prints the answer, and gives the state after it.
fn module_called(rt: &impl Print, c: ModuleCalled) -> io::Result<Module> {
    let answer = c.answer;
    print_called(rt, answer)?;
    Ok(c.state)
}

fn supervisor_called(rt: &impl Print, c: SupervisorCalled) -> io::Result<Supervisor> {
    let answer = c.answer;
    print_called(rt, answer)?;
    Ok(c.state)
}

fn module_step(
    rt: &impl Print,
    image: &[u8],
    m: u8,
    x: Module,
    buf: &mut [u8],
) -> io::Result<Module> {
    let t = module_steps::step(image, m, x, &mut *buf);
    let answer = t.answer;
    print(rt, stepped_text(answer))?;
    print_buffer(rt, buf)?;
    Ok(t.state)
}

fn supervisor_step(
    rt: &impl Print,
    image: &[u8],
    v: u8,
    y: Supervisor,
    buf: &mut [u8],
) -> io::Result<Supervisor> {
    let t = supervisor_steps::step(image, v, y, &mut *buf);
    let answer = t.answer;
    print(rt, served_text(answer))?;
    print_buffer(rt, buf)?;
    Ok(t.state)
}

// A buffer has at most 160 bytes.
fn run_mstep(rt: &impl Print, image: &[u8], x: Module, s: &[u8]) -> io::Result<Module> {
    let mut room = [0xaau8; 160];
    let buf: &mut [u8] = &mut room;
    let m = example_lines::byte_in(s, 1);
    let n = example_lines::number_in(s, 2) as usize;
    if n <= buf.len() {
        module_step(rt, image, m, x, &mut buf[..n])
    } else {
        Ok(x)
    }
}

fn run_sstep(rt: &impl Print, image: &[u8], y: Supervisor, s: &[u8]) -> io::Result<Supervisor> {
    let mut room = [0xaau8; 160];
    let buf: &mut [u8] = &mut room;
    let v = example_lines::byte_in(s, 1);
    let n = example_lines::number_in(s, 2) as usize;
    if n <= buf.len() {
        supervisor_step(rt, image, v, y, &mut buf[..n])
    } else {
        Ok(y)
    }
}

// A line of `mset`, `mstep` or `mstate`.
fn run_mstate(rt: &impl Print, image: &[u8], x: Module, s: &[u8]) -> io::Result<Module> {
    if words::byte_at(s, 2) == b'e' {
        Ok(with_part(x, s))
    } else if words::byte_at(s, 3) == b'e' {
        run_mstep(rt, image, x, s)
    } else {
        print_module(rt, x)?;
        Ok(x)
    }
}

fn run_module(
    rt: &impl Print,
    image: &[u8],
    bytes: &[u8],
    x: Module,
    s: &[u8],
) -> io::Result<Module> {
    let m = example_lines::byte_in(s, 1);
    match words::byte_at(s, 1) {
        b'o' => module_called(rt, module_calls::start(image, m)),
        b'd' => module_called(rt, module_deliveries::deliver(image, m, x, bytes)),
        b'r' => module_called(
            rt,
            module_calls::respond(image, m, x, example_lines::byte_in(s, 2)),
        ),
        b't' => module_called(
            rt,
            module_calls::tick(image, m, x, example_states::flow_in(s, 2)),
        ),
        b'e' => {
            print_parsed(rt, messages::read(bytes))?;
            Ok(x)
        }
        _ => run_mstate(rt, image, x, s),
    }
}

fn run_supervisor(
    rt: &impl Print,
    image: &[u8],
    bytes: &[u8],
    y: Supervisor,
    s: &[u8],
) -> io::Result<Supervisor> {
    let v = example_lines::byte_in(s, 1);
    if words::byte_at(s, 1) == b'u' {
        supervisor_called(rt, supervisor_calls::start(image, v))
    } else if words::byte_at(s, 1) == b'd' {
        supervisor_called(rt, supervisor_calls::deliver(image, v, y, bytes))
    } else if words::byte_at(s, 2) == b'e' {
        Ok(with_note(y, s))
    } else if words::byte_at(s, 3) == b'e' {
        run_sstep(rt, image, y, s)
    } else {
        print_supervisor(rt, y)?;
        Ok(y)
    }
}

// The module, the supervisor, and the image's length.
#[derive(Clone, Copy)]
struct Held {
    module: Module,
    supervisor: Supervisor,
    n: usize,
}

// The states before any call.
fn fresh() -> Held {
    Held {
        module: module_calls::start(b"", 0).state,
        supervisor: supervisor_calls::start(b"", 0).state,
        n: 0,
    }
}

fn run_call(rt: &impl Print, image: &[u8], bytes: &[u8], r: Held, s: &[u8]) -> io::Result<Held> {
    let module = r.module;
    let supervisor = r.supervisor;
    let n = r.n;
    if words::byte_at(s, 0) == b'm' {
        Ok(Held {
            module: run_module(rt, image, bytes, module, s)?,
            supervisor,
            n,
        })
    } else {
        Ok(Held {
            module,
            supervisor: run_supervisor(rt, image, bytes, supervisor, s)?,
            n,
        })
    }
}

// Behind how many spaces the bytes of a `message`, or of the message delivered, stand. Other lines take no notice of them.
fn message_place(s: &[u8]) -> usize {
    if words::byte_at(s, 1) == b'e' { 1 } else { 2 }
}

fn run_with(rt: &impl Print, image: &[u8], room: &mut [u8], r: Held, s: &[u8]) -> io::Result<Held> {
    let n = example_lines::image_in(&mut *room, s, message_place(s));
    run_call(rt, image, &room[..n], r, s)
}

// A message has at most 16 bytes.
fn run_bytes(rt: &impl Print, image: &[u8], r: Held, s: &[u8]) -> io::Result<Held> {
    let mut bytes = [0u8; 16];
    let room: &mut [u8] = &mut bytes;
    run_with(rt, image, &mut *room, r, s)
}

fn run_line(rt: &impl Print, img: &mut [u8], r: Held, s: &[u8]) -> io::Result<Held> {
    let module = r.module;
    let supervisor = r.supervisor;
    let n = r.n;
    match words::byte_at(s, 0) {
        b'#' => {
            say(rt, s)?;
            say(rt, b"\n")?;
            Ok(r)
        }
        b'p' => Ok(Held {
            module,
            supervisor,
            n: example_lines::image_in(img, s, 1),
        }),
        _ => {
            if n <= img.len() {
                run_bytes(rt, &img[..n], r, s)
            } else {
                Ok(r)
            }
        }
    }
}

// Runs each line. An image has room for eight bytes above the limit.
fn run(rt: &impl Print, text: &[u8]) -> io::Result<()> {
    let mut room = [0u8; 49160];
    let img: &mut [u8] = &mut room;
    text.split_inclusive(|b| *b == b'\n').try_fold(
        fresh(),
        |r, line| run_line(rt, &mut *img, r, example_lines::line_at(line, 0)),
    )?;
    Ok(())
}

// Input beyond 262,144 bytes is left out.
fn main(rt: HostRuntime) -> io::Result<()> {
    let mut text = [0u8; 262144];
    let mut input = rt.stdin();
    let n = inputs::read_full(&mut input, &mut text);
    run(&rt, &text[..n])
}
