// The state of a check in pieces as bytes: specs/State.antt. What it remembers of the records is put and read by context_bytes.
#![tactic(auto)]

ghost use Rattle.std.specs.Prelude.{◌≡◌, ◌∷◌, ◌++◌, ◌≤◌, length};
ghost use Rattle.std.proofs.lemmas.List.Edits.{sets};
ghost use Rattle.words.specs.Word.{put_at, quad_bytes};
ghost use Rattle.context_bytes.specs.Encoding.{context_bytes};
ghost use Rattle.piece_bytes.specs.State.{is_stage, is_state, stage_of, state_at, stage_bytes, state_bytes};

use context::Context;
use pieces::{CheckState, Stage};

// ---- read

fn is_stage(x: u8, n: u8, o: u32) -> bool
    ensures { result ≡ is_stage x n o }
{
    if x < 2 {
        (n == 0) & (o == 0)
    } else {
        (x == 2) & ((2 <= n) & (n <= 8))
    }
}

// Whether the bytes stand for a state.
pub fn is_state(s: &[u8]) -> bool
    ensures { result ≡ is_state s.now }
{
    let x = words::byte_at(s, 0);
    let n = words::byte_at(s, 1);
    let o = words::quad_at(s, 2);
    let flag = words::byte_at(s, 23);
    (s.len() == 495) & (is_stage(x, n, o) & (flag < 2))
}

fn stage_of(x: u8, n: u8, o: u32) -> Stage
    ensures { result ≡ stage_of x n o }
{
    if x == 0 {
        return Stage::Open;
    }
    if x == 1 {
        return Stage::Ended;
    }
    Stage::Faulty(n, o)
}

fn state_in(s: &[u8]) -> CheckState
    requires { 495 ≤ length s.now }
    ensures { result ≡ state_at s.now }
{
    let stage = stage_of(s[0], s[1], words::quad_at(s, 2));
    let taken = words::quad_at(s, 6);
    let held = s[10];
    let mut cut = [0u8; 12];
    words::put_bytes(&mut cut, 0, &s[11..23]);
    let context = context_bytes::context_at(s);
    CheckState {
        context,
        cut,
        held,
        taken,
        stage,
    }
}

// Bytes past the end count as 0.
fn state_short(s: &[u8]) -> CheckState
    requires { length s.now ≤ 495 }
    ensures { result ≡ state_at s.now }
{
    let mut all = [0u8; 495];
    words::put_bytes(&mut all, 0, s);
    state_in(&all)
}

// The state that the bytes are, by their places.
pub fn state_at(s: &[u8]) -> CheckState
    ensures { result ≡ state_at s.now }
{
    if 495 <= s.len() {
        state_in(s)
    } else {
        state_short(s)
    }
}

// ---- written

fn put_stage(s: &mut [u8], st: Stage)
    requires { 495 ≤ length s.old }
    ensures { s.new ≡ sets s.old 0 (stage_bytes st) }
{
    match st {
        Stage::Open => words::put_bytes(s, 0, &[0, 0, 0, 0, 0, 0]),
        Stage::Ended => words::put_bytes(s, 0, &[1, 0, 0, 0, 0, 0]),
        Stage::Faulty(n, o) => {
            words::put_bytes(&mut *s, 0, &[2, n]);
            words::put_quad(&mut *s, 2, o);
        }
    }
}

// The bytes before those of what is remembered.
fn put_front(s: &mut [u8], st: Stage, taken: u32, held: u8, cut: [u8; 12])
    requires { 495 ≤ length s.old }
    ensures { (s.new ≡ sets s.old 0 (stage_bytes st ++ quad_bytes taken ++ (held ∷ cut))) × (length cut ≡ 12) }
{
    put_stage(&mut *s, st);
    words::put_quad(&mut *s, 6, taken);
    words::put_bytes(&mut *s, 10, &[held]);
    words::put_bytes(&mut *s, 11, &cut);
}

// The bytes of what is remembered.
fn put_rest(s: &mut [u8], c: Context)
    requires { 495 ≤ length s.old }
    ensures { (s.new ≡ sets s.old 23 (context_bytes c)) × (length (context_bytes c) ≡ 472) }
{
    context_bytes::put_context(s, c);
}

// Puts the bytes of a state at the start, if there is room for all; else the slice stays.
pub fn put_state(s: &mut [u8], k: CheckState)
    ensures { s.new ≡ put_at (state_bytes k) 0 s.old }
{
    if 495 <= s.len() {
        let st = k.stage;
        let cut = k.cut;
        let c = k.context;
        put_front(&mut *s, st, k.taken, k.held, cut);
        put_rest(&mut *s, c);
    }
}
