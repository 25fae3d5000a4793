// The check of a plan image in pieces: specs/Pieces.antt. What is kept between them is one struct by value, some 500 bytes; crate taking does the same in
// lent bytes.
#![tactic(auto)]

ghost use Rattle.std.specs.Prelude.{◌≡◌, true, ◌≤◌, ◌<◌, ◌+◌, ◌-◌, length, set, leb};
ghost use Rattle.rules.specs.Check.{limit};
ghost use Rattle.pieces.specs.Pieces.{starting, overlong, between, record_taken, byte_open, byte_taken, piece_taken, verdict_by};
ghost use Rattle.pieces.specs.Taking.{holding, Holds, PastBegun, Clear, Taking};
ghost use Rattle.pieces.specs.declared.Stage.TheVariants.{Open};

use context::Context;
use judge::Past;
use records::Record;
use refusal::Refusal;

// The longest image, in bytes.
const LIMIT: u32 = 49152;

// How far the check has come: records are read, a faultless end record was read, or the number and the offset of a refusal.
#[derive(Clone, Copy)]
pub enum Stage {
    Open,
    Ended,
    Faulty(u8, u32),
}

// What is remembered of the whole records, the bytes of the record that has begun, how many they are, how many bytes were taken, up to one past the
// limit, and the stage.
#[derive(Clone, Copy)]
pub struct CheckState {
    pub context: Context,
    pub cut: [u8; 12],
    pub held: u8,
    pub taken: u32,
    pub stage: Stage,
}

fn between(context: Context, stage: Stage, taken: u32) -> CheckState
    ensures { result ≡ between context stage taken }
{
    CheckState {
        context,
        cut: [0; 12],
        held: 0,
        taken,
        stage,
    }
}

// Before the first piece.
pub fn start() -> CheckState
    ensures { result ≡ starting }
{
    between(context::started(), Stage::Open, 0)
}

// After more bytes than an image may have.
fn too_long() -> CheckState
    ensures { result ≡ overlong }
{
    between(context::started(), Stage::Open, LIMIT + 1)
}

// A whole record whose kind byte stands at an offset, after so many bytes.
fn record_taken(k: CheckState, taken: u32, at: u32, r: Record) -> CheckState
    ensures { result ≡ record_taken k taken at r }
{
    let c = k.context;
    let n = judge::judge(c, r);
    if n != 0 {
        return between(c, Stage::Faulty(n, at), taken);
    }
    let after = context::with_record(c, r);
    if records::kind_of(r) == 0x1f {
        return between(after, Stage::Ended, taken);
    }
    between(after, Stage::Open, taken)
}

// The bytes of the record that has begun, with one more.
fn put_cut(cut: [u8; 12], held: u8, b: u8) -> [u8; 12]
    ensures { result ≡ set cut held b }
{
    if held < 12 {
        let i = words::wide(held);
        let mut next = cut;
        next[i] = b;
        next
    } else {
        cut
    }
}

// Where the record that has begun begins.
fn first_of(taken: u32, held: u8) -> u32
    ensures { result ≡ taken - held }
{
    let h = held as u32;
    if h <= taken { taken - h } else { 0 }
}

// A byte of a record.
fn byte_open(k: CheckState, b: u8) -> CheckState
    requires { k.taken < 49152 }
    ensures { result ≡ byte_open k (set k.cut k.held b) }
{
    let c = k.context;
    let taken = k.taken + 1;
    let before = k.cut;
    let cut = put_cut(before, k.held, b);
    let kind = cut[0];
    let n = records::body_len(kind);
    let at = first_of(k.taken, k.held);
    if n == records::NO_LEN {
        return between(c, Stage::Faulty(2, at), taken);
    }
    if n <= k.held {
        return record_taken(k, taken, at, reader::record_of(kind, &cut, 1));
    }
    CheckState {
        context: c,
        cut,
        held: k.held + 1,
        taken,
        stage: Stage::Open,
    }
}

// One byte more.
fn byte(k: CheckState, b: u8) -> CheckState
    ensures { result ≡ byte_taken k b }
{
    let c = k.context;
    let st = k.stage;
    if LIMIT <= k.taken {
        return too_long();
    }
    match st {
        Stage::Open => byte_open(k, b),
        Stage::Ended => between(c, Stage::Faulty(4, k.taken), k.taken + 1),
        Stage::Faulty(n, o) => between(c, Stage::Faulty(n, o), k.taken + 1),
    }
}

// The bytes held of a record, how many they are, and how far a piece is taken.
#[derive(Clone, Copy)]
struct Filled {
    cut: [u8; 12],
    held: u8,
    next: usize,
}

// Holds the bytes from an offset of a piece on, as long as the record that has begun is of a known kind and not whole with them.
fn fill(cut: [u8; 12], held: u8, piece: &[u8], from: usize) -> Filled
    requires { from ≤ length piece.now }
    ensures { Holds piece.now cut held from result.cut result.held result.next }
{
    let mut bytes = cut;
    let mut n = held;
    for i in from..piece.len() {
        let more = put_cut(bytes, n, piece[i]);
        let size = records::body_len(more[0]);
        if size == records::NO_LEN || size <= n {
            return Filled {
                cut: bytes,
                held: n,
                next: i,
            };
        }
        bytes = more;
        n += 1;
    }
    Filled {
        cut: bytes,
        held: n,
        next: piece.len(),
    }
}

// A state, and how far a piece is taken.
#[derive(Clone, Copy)]
struct Went {
    state: CheckState,
    next: usize,
}

// None having begun, passes the whole records from an offset on, and holds what it can of the one behind them.
fn records_on(c: Context, taken: u32, piece: &[u8], from: usize) -> Went
    requires { (from ≤ length piece.now) × (taken + (length piece.now - from) ≤ 49152) }
    ensures { Taking piece.now (between c Open taken) from result.state result.next }
{
    let p = judge::pass(piece, from, c);
    let d = p.context;
    let none = [0u8; 12];
    let f = fill(none, 0, piece, p.next);
    let bytes = f.cut;
    let state = CheckState {
        context: d,
        cut: bytes,
        held: f.held,
        taken: taken + (f.next - from) as u32,
        stage: Stage::Open,
    };
    Went {
        state,
        next: f.next,
    }
}

// Past the record that the byte at an offset makes whole, if it is faultless and no end record; else it stays before that byte.
fn past_begun(c: Context, cut: [u8; 12], held: u8, piece: &[u8], at: usize) -> Past
    requires { at < length piece.now }
    ensures { PastBegun piece.now c cut held at result.context result.next }
{
    let b = piece[at];
    let after = at + 1;
    let whole = put_cut(cut, held, b);
    let kind = whole[0];
    let n = records::body_len(kind);
    if (n == records::NO_LEN) | (held < n) {
        return Past {
            context: c,
            next: at,
        };
    }
    let r = reader::record_of(kind, &whole, 1);
    if (judge::judge(c, r) != 0) | (records::kind_of(r) == 0x1f) {
        return Past {
            context: c,
            next: at,
        };
    }
    Past {
        context: context::with_record(c, r),
        next: after,
    }
}

// One having begun, goes on with it, and past it and the whole records behind it; or takes the byte that makes it faulty or an end.
fn begun_on(c: Context, cut: [u8; 12], held: u8, taken: u32, piece: &[u8], from: usize) -> Went
    requires { (from < length piece.now) × (taken + (length piece.now - from) ≤ 49152) }
    ensures { Taking piece.now (holding c cut held taken) from result.state result.next × (from < result.next) }
{
    let f = fill(cut, held, piece, from);
    let bytes = f.cut;
    let next = f.next;
    let t = taken + (next - from) as u32;
    let k = CheckState {
        context: c,
        cut: bytes,
        held: f.held,
        taken: t,
        stage: Stage::Open,
    };
    if piece.len() <= next {
        return Went { state: k, next };
    }
    let b = piece[next];
    let after = next + 1;
    let p = past_begun(c, bytes, f.held, piece, next);
    if next < p.next {
        let d = p.context;
        return records_on(d, t + 1, piece, p.next);
    }
    Went {
        state: byte(k, b),
        next: after,
    }
}

// Whether nothing of a record is held.
fn is_clear(cut: [u8; 12], held: u8) -> bool
    ensures { result ≡ true → Clear cut held }
{
    words::are_zeros(&cut) & (held == 0)
}

// While records are read.
fn read_on(k: CheckState, piece: &[u8], from: usize) -> Went
    requires { (k.stage ≡ Open) × (from < length piece.now) × (k.taken + (length piece.now - from) ≤ 49152) }
    ensures { Taking piece.now k from result.state result.next × (from < result.next) }
{
    let b = piece[from];
    let after = from + 1;
    let c = k.context;
    let cut = k.cut;
    if !is_clear(cut, k.held) {
        return begun_on(c, cut, k.held, k.taken, piece, from);
    }
    let w = records_on(c, k.taken, piece, from);
    if from < w.next {
        return w;
    }
    Went {
        state: byte(k, b),
        next: after,
    }
}

// From an offset of a piece on, some bytes further; after a refusal to its end.
fn onward(k: CheckState, piece: &[u8], from: usize) -> Went
    requires { (from < length piece.now) × (k.taken + (length piece.now - from) ≤ 49152) }
    ensures { Taking piece.now k from result.state result.next × (from < result.next) }
{
    let c = k.context;
    let st = k.stage;
    match st {
        Stage::Open => read_on(k, piece, from),
        Stage::Ended => Went {
            state: byte(k, piece[from]),
            next: from + 1,
        },
        Stage::Faulty(n, o) => Went {
            state: between(
                c,
                Stage::Faulty(n, o),
                k.taken + (piece.len() - from) as u32,
            ),
            next: piece.len(),
        },
    }
}

// Whether so many bytes more are within the limit.
pub fn has_room(taken: u32, n: usize) -> bool
    ensures { result ≡ leb (taken + n) limit }
{
    if LIMIT < taken {
        return false;
    }
    n <= (LIMIT - taken) as usize
}

// One piece more.
pub fn take(k: CheckState, piece: &[u8]) -> CheckState
    ensures { result ≡ piece_taken k piece.now }
{
    if piece.len() == 0 {
        return k;
    }
    if !has_room(k.taken, piece.len()) {
        return too_long();
    }
    let mut s = k;
    let mut i: usize = 0;
    // No `for`: how far a turn goes is what it answers.
    while i < piece.len() {
        let on = onward(s, piece, i);
        let next = on.state;
        s = next;
        i = on.next;
    }
    s
}

// The check of the bytes handed over so far.
pub fn verdict(k: CheckState) -> Result<(), Refusal>
    ensures { result ≡ verdict_by k }
{
    let st = k.stage;
    if LIMIT < k.taken {
        return Err(Refusal {
            number: 1,
            offset: 0,
        });
    }
    match st {
        Stage::Open => Err(Refusal {
            number: 3,
            offset: first_of(k.taken, k.held) as usize,
        }),
        Stage::Ended => Ok(()),
        Stage::Faulty(n, o) => Err(Refusal {
            number: n,
            offset: o as usize,
        }),
    }
}
