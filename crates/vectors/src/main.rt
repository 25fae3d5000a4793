// Runs the plan check, the reader, the writer and the copy of a plan on the lines of standard input, and prints what each gives.
// tests/reference/plan_check.py says which lines there are, and prints the same; crate example_lines reads them and crate texts makes
// what is printed.
#![tactic(auto)]

use reader::NoRecord;
use records::Record;
use refusal::Refusal;
use std::io;
use texts::Text;

fn say(rt: &impl Print, s: &[u8]) -> io::Result<()> {
    rt.write_all(s)
}

fn print(rt: &impl Print, t: Text) -> io::Result<()> {
    let bytes = t.bytes;
    let n = t.length;
    say(rt, texts::first(&bytes, n))
}

// The buffer behind an answer.
fn print_buffer(rt: &impl Print, s: &[u8]) -> io::Result<()> {
    print(
        rt,
        texts::push(texts::push_buffer(texts::word(b" "), s), b'\n'),
    )
}

fn print_verdict(rt: &impl Print, v: Result<(), Refusal>) -> io::Result<()> {
    match v {
        Ok(()) => say(rt, b"accepted\n"),
        Err(e) => {
            let t = texts::push_number(texts::empty(), words::wide(e.number));
            let t = texts::push_spaced(texts::push_all(t, b" at"), e.offset);
            print(rt, texts::push(t, b'\n'))
        }
    }
}

// The fields of a record that has eight bytes in one of them.
fn push_long(t: Text, r: Record) -> Text {
    match r {
        Record::Supervisor {
            number,
            states,
            initial,
            alphabet,
        } => texts::push_spaced(
            texts::push_numbers(t, &[number, states, initial]),
            alphabet as usize,
        ),
        Record::Disabling {
            supervisor,
            state,
            mask,
        } => texts::push_spaced(texts::push_numbers(t, &[supervisor, state]), mask as usize),
        Record::Step {
            event,
            index,
            operation,
            operand,
        } => texts::push_spaced(
            texts::push_numbers(t, &[event, index, operation]),
            operand as usize,
        ),
        _ => t,
    }
}

fn push_record(t: Text, r: Record) -> Text {
    match r {
        Record::Head {
            modules,
            supervisors,
            events,
        } => texts::push_numbers(t, &[modules, supervisors, events]),
        Record::Event {
            number,
            owner,
            class,
        } => texts::push_numbers(t, &[number, owner, class]),
        Record::Module {
            number,
            states,
            initial,
        } => texts::push_numbers(t, &[number, states, initial]),
        Record::ModuleMove {
            owner,
            from,
            event,
            to,
        } => texts::push_numbers(t, &[owner, from, event, to]),
        Record::SupervisorMove {
            supervisor,
            from,
            event,
            to,
        } => texts::push_numbers(t, &[supervisor, from, event, to]),
        Record::Marking { owner, state } => texts::push_numbers(t, &[owner, state]),
        _ => push_long(t, r),
    }
}

fn print_read(rt: &impl Print, r: Result<(Record, usize), NoRecord>) -> io::Result<()> {
    match r {
        Ok((record, next)) => {
            let t = texts::push_hexes(texts::word(b"record "), &[records::kind_of(record)]);
            let t = texts::push_all(push_record(t, record), b" next");
            print(rt, texts::push(texts::push_spaced(t, next), b'\n'))
        }
        Err(NoRecord::Unknown) => say(rt, b"unknown\n"),
        Err(NoRecord::Cut) => say(rt, b"cut\n"),
        Err(NoRecord::Nothing) => say(rt, b"nothing\n"),
    }
}

fn print_written(rt: &impl Print, w: Result<usize, Refusal>) -> io::Result<()> {
    match w {
        Ok(n) => print(rt, texts::push_spaced(texts::word(b"length"), n)),
        Err(e) => print(rt, texts::push_field(texts::word(b"refused"), e.number)),
    }
}

fn print_rewritten(rt: &impl Print, r: Result<usize, Refusal>) -> io::Result<()> {
    match r {
        Ok(n) => print(rt, texts::push_spaced(texts::word(b"length"), n)),
        Err(e) => {
            let t = texts::push_field(texts::word(b"refused"), e.number);
            print(rt, texts::push_spaced(texts::push_all(t, b" at"), e.offset))
        }
    }
}

// A record of a kind whose fields are a byte each.
fn short_record(kind: u8, a: u8, b: u8, c: u8, d: u8) -> Record {
    match kind {
        0x10 => Record::Head {
            modules: a,
            supervisors: b,
            events: c,
        },
        0x11 => Record::Event {
            number: a,
            owner: b,
            class: c,
        },
        0x12 => Record::Module {
            number: a,
            states: b,
            initial: c,
        },
        0x13 => Record::ModuleMove {
            owner: a,
            from: b,
            event: c,
            to: d,
        },
        0x15 => Record::SupervisorMove {
            supervisor: a,
            from: b,
            event: c,
            to: d,
        },
        0x18 => Record::Marking { owner: a, state: b },
        _ => Record::End,
    }
}

// The record of a kind whose fields stand behind the line's second space.
fn record_in(s: &[u8], kind: u8) -> Record {
    let a = example_lines::byte_in(s, 2);
    let b = example_lines::byte_in(s, 3);
    let c = example_lines::byte_in(s, 4);
    let third = example_lines::number_in(s, 4);
    let fourth = example_lines::number_in(s, 5);
    match kind {
        0x14 => Record::Supervisor {
            number: a,
            states: b,
            initial: c,
            alphabet: fourth,
        },
        0x16 => Record::Disabling {
            supervisor: a,
            state: b,
            mask: third,
        },
        0x17 => Record::Step {
            event: a,
            index: b,
            operation: c,
            operand: fourth,
        },
        _ => short_record(kind, a, b, c, (fourth % 256) as u8),
    }
}

fn run_check(rt: &impl Print, img: &mut [u8], s: &[u8]) -> io::Result<()> {
    let n = example_lines::image_in(&mut *img, s, 1);
    print_verdict(rt, checker::check(&img[..n]))
}

fn run_read(rt: &impl Print, img: &mut [u8], s: &[u8]) -> io::Result<()> {
    let n = example_lines::image_in(&mut *img, s, 1);
    let at = example_lines::number_in(s, 2) as usize;
    print_read(rt, reader::read_at(&img[..n], at))
}

// The length of the buffer, behind the line's last space.
fn length_in(s: &[u8]) -> usize {
    example_lines::number_in(s, example_lines::spaces_in(s)) as usize
}

fn write_into(rt: &impl Print, buf: &mut [u8], r: Record) -> io::Result<()> {
    print_written(rt, writer::write(r, &mut *buf))?;
    print_buffer(rt, buf)
}

// A buffer has at most 128 bytes, and held AA throughout.
fn run_write(rt: &impl Print, s: &[u8]) -> io::Result<()> {
    let kind = (example_lines::bits_in(s, 1) % 256) as u8;
    let r = record_in(s, kind);
    let n = length_in(s);
    let mut room = [0xaau8; 128];
    let buf: &mut [u8] = &mut room;
    if n <= buf.len() {
        write_into(rt, &mut buf[..n], r)
    } else {
        Ok(())
    }
}

fn copy_into(rt: &impl Print, image: &[u8], buf: &mut [u8]) -> io::Result<()> {
    print_rewritten(rt, rewrite::rewrite(image, &mut *buf))?;
    print_buffer(rt, buf)
}

fn run_copy(rt: &impl Print, img: &mut [u8], s: &[u8]) -> io::Result<()> {
    let n = example_lines::image_in(&mut *img, s, 1);
    let m = length_in(s);
    let mut room = [0xaau8; 128];
    let buf: &mut [u8] = &mut room;
    if m <= buf.len() {
        copy_into(rt, &img[..n], &mut buf[..m])
    } else {
        Ok(())
    }
}

fn run_line(rt: &impl Print, img: &mut [u8], s: &[u8]) -> io::Result<()> {
    match words::byte_at(s, 0) {
        b'#' => {
            say(rt, s)?;
            say(rt, b"\n")
        }
        b'c' => {
            if words::byte_at(s, 1) == b'h' {
                run_check(rt, img, s)
            } else {
                run_copy(rt, img, s)
            }
        }
        b'r' => run_read(rt, img, s),
        b'w' => run_write(rt, s),
        _ => say(rt, b"?\n"),
    }
}

// Runs each line. An image has room for eight bytes above the limit.
fn run(rt: &impl Print, text: &[u8]) -> io::Result<()> {
    let mut room = [0u8; 49160];
    let img: &mut [u8] = &mut room;
    text.split_inclusive(|b| *b == b'\n').try_for_each(|line| run_line(
        rt,
        &mut *img,
        example_lines::line_at(line, 0),
    ))
}

// Input beyond 262,144 bytes is left out.
fn main(rt: HostRuntime) -> io::Result<()> {
    let mut text = [0u8; 262144];
    let mut input = rt.stdin();
    let n = inputs::read_full(&mut input, &mut text);
    run(&rt, &text[..n])
}
