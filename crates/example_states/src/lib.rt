// A module's own part in the lines of the stored examples: specs/Setting.antt says how a line sets a field of it, specs/Printed.antt how it is printed.
#![tactic(auto)]

ghost use Rattle.std.specs.Prelude.{◌≡◌, ◌≤◌};
ghost use Rattle.texts.specs.Text.{appended};
ghost use Rattle.example_states.specs.Setting.{float_in, flow_in, with_water, with_procedure_field, with_queued, with_field};
ghost use Rattle.example_states.specs.Printed.{float_text, procedure_text, own_text};

use modules::{Own, Procedure};
use texts::Text;
use water::{Flow, Water};

// ---- read

// The float whose bits stand behind k spaces of the line, or `nan`.
fn float_in(s: &[u8], k: usize) -> f64
    ensures { result ≡ float_in k s.now }
{
    if example_lines::letter_in(s, k, 0) == b'n' {
        0.0 / 0.0
    } else {
        fields::float_of(example_lines::bits_in(s, k))
    }
}

// The reading that stands behind k spaces of the line.
pub fn flow_in(s: &[u8], k: usize) -> Flow
    ensures { result ≡ flow_in k s.now }
{
    if example_lines::letter_in(s, k, 1) == b'o' {
        Flow::NoSensor
    } else {
        Flow::Litres(float_in(s, k))
    }
}

fn with_water(w: Water, s: &[u8], k: usize) -> Water
    requires { k ≤ 255 }
    ensures { result ≡ with_water k s.now w }
{
    let x = float_in(s, k + 1);
    if example_lines::letter_in(s, k, 1) == b'a' {
        Water {
            target: x,
            total: w.total,
        }
    } else {
        Water {
            target: w.target,
            total: x,
        }
    }
}

// The procedure with another field: `running`, `event`, `index`, `count`, or `target` or `total`.
fn with_procedure_field(mut p: Procedure, s: &[u8], k: usize) -> Procedure
    requires { k ≤ 255 }
    ensures { result ≡ with_procedure_field k s.now p }
{
    match example_lines::letter_in(s, k, 0) {
        b'r' => {
            p.running = example_lines::number_in(s, k + 1) == 1;
            p
        }
        b'e' => {
            p.event = example_lines::byte_in(s, k + 1);
            p
        }
        b'i' => {
            p.index = example_lines::byte_in(s, k + 1);
            p
        }
        b'c' => {
            p.count = (example_lines::number_in(s, k + 1) % 65536) as u16;
            p
        }
        b't' => {
            p.water = with_water(p.water, s, k);
            p
        }
        _ => p,
    }
}

fn with_queued(mut queue: [u8; 8], s: &[u8], k: usize) -> [u8; 8]
    requires { k ≤ 255 }
    ensures { result ≡ with_queued k s.now queue }
{
    let place = example_lines::number_in(s, k + 1) as usize;
    if place < 8 {
        queue[place] = example_lines::byte_in(s, k + 2);
    }
    queue
}

// The own part with another field: `state`, `length`, `place`, `outputs`, or one of the procedure.
fn with_named(mut own: Own, s: &[u8], k: usize) -> Own
    requires { k ≤ 255 }
    ensures { result ≡ with_field k s.now own }
{
    match example_lines::letter_in(s, k, 0) {
        b's' => {
            own.state = example_lines::byte_in(s, k + 1);
            own
        }
        b'l' => {
            own.length = example_lines::byte_in(s, k + 1);
            own
        }
        b'p' => {
            let queue = own.queue;
            let next = with_queued(queue, s, k);
            own.queue = next;
            own
        }
        b'o' => {
            own.outputs = (example_lines::bits_in(s, k + 1) % 0x1_0000_0000) as u32;
            own
        }
        _ => {
            own.procedure = with_procedure_field(own.procedure, s, k);
            own
        }
    }
}

// The own part with the field set whose name stands behind k spaces of the line.
pub fn with_field(own: Own, s: &[u8], k: u8) -> Own
    ensures { result ≡ with_field k s.now own }
{
    with_named(own, s, words::wide(k))
}

// ---- printed

fn push_float(t: Text, x: f64) -> Text
    ensures { result ≡ appended t (float_text x) }
{
    let bits = fields::bits_of(x);
    if fields::is_nan(bits) {
        texts::push_all(t, b" nan")
    } else {
        texts::push_digits(texts::push(t, b' '), bits, 16)
    }
}

fn push_procedure(t: Text, p: Procedure) -> Text
    ensures { result ≡ appended t (procedure_text p) }
{
    let water = p.water;
    let t = texts::push_field(
        texts::push_all(t, b" procedure"),
        fields::flag_of(p.running),
    );
    let t = texts::push_field(texts::push_field(t, p.event), p.index);
    let t = texts::push_all(texts::push_spaced(t, p.count as usize), b" water");
    push_float(push_float(t, water.target), water.total)
}

// The text with the own part behind it.
pub fn push_own(t: Text, own: Own) -> Text
    ensures { result ≡ appended t (own_text own) }
{
    let queue = own.queue;
    let t = texts::push_field(texts::push_all(t, b"state"), own.state);
    let t = texts::push_field(texts::push_all(t, b" queue"), own.length);
    let t = push_procedure(texts::push_numbers(t, &queue), own.procedure);
    texts::push_digits(texts::push_all(t, b" outputs "), own.outputs as u64, 8)
}
