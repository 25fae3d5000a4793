// A piece taken in the lent bytes of a check's state: specs/Taken.antt. Whole records are passed there, bytes of a cut record held and, after a
// refusal, bytes counted. What is left is taken by value: a record that is faulty or an end, what comes behind an end, a piece past the limit, and
// states that no call left.
#![tactic(auto)]

ghost use Rattle.std.specs.Prelude.{◌≡◌, true, ◌+◌, ◌-◌, ◌≤◌, ◌<◌, length, get_or, replicate};
ghost use Rattle.records.specs.Kinds.{body_len};
ghost use Rattle.pieces.specs.Pieces.{between};
ghost use Rattle.pieces.specs.Taking.{Holds};
ghost use Rattle.pieces.specs.declared.Stage.TheVariants.{Open};
ghost use Rattle.piece_bytes.specs.State.{is_state, state_at};
ghost use Rattle.taking.specs.Taken.{piece_taken_in};
ghost use Rattle.taking.specs.TakingIn.{Stands, HoldingIn, Begun, progressed, TakingIn};

// Puts how many bytes were taken, how many of a record are held, and these.
fn put_progress(state: &mut [u8], taken: u32, held: u8, cut: [u8; 12])
    requires { is_state state.old ≡ true }
    ensures { Stands state.new (progressed (state_at state.old) taken held cut) }
{
    words::put_quad(&mut *state, 6, taken);
    words::put_bytes(&mut *state, 10, &[held]);
    words::put_bytes(&mut *state, 11, &cut);
}

// The bytes held of a record, how many they are, and how far a piece is taken with them.
#[derive(Clone, Copy)]
struct Tail {
    cut: [u8; 12],
    held: u8,
    next: usize,
}

// None having begun, holds what is behind an offset, if it is a record of a known kind that is not whole.
fn tail_at(piece: &[u8], from: usize) -> Tail
    requires { from ≤ length piece.now }
    ensures { Holds piece.now (replicate 12 0) 0 from result.cut result.held result.next }
{
    let mut cut = [0u8; 12];
    let left = piece.len() - from;
    if left == 0 {
        return Tail {
            cut,
            held: 0,
            next: from,
        };
    }
    let n = records::body_len(piece[from]);
    if (n == records::NO_LEN) | (words::wide(n) < left) {
        return Tail {
            cut,
            held: 0,
            next: from,
        };
    }
    words::put_bytes(&mut cut, 0, &piece[from..]);
    Tail {
        cut,
        held: left as u8,
        next: piece.len(),
    }
}

// None having begun, passes the whole records from an offset on, and holds the one behind them if it is cut. What the state held of a record is no longer held.
fn records_on(state: &mut [u8], taken: u32, piece: &[u8], from: usize) -> usize
    requires { (is_state state.old ≡ true) × ((state_at state.old).stage ≡ Open) × (from ≤ length piece.now) × (taken + (length piece.now - from) ≤ 49152) }
    ensures { TakingIn piece.now (between (state_at state.old).context Open taken) from state.new result }
{
    let next = checker::pass(piece, from, &mut *state);
    let t = tail_at(piece, next);
    let cut = t.cut;
    put_progress(&mut *state, taken + (t.next - from) as u32, t.held, cut);
    t.next
}

// One having begun that is not whole with the piece either: holds all of it.
fn held_on(state: &mut [u8], cut: [u8; 12], held: u8, taken: u32, piece: &[u8]) -> usize
    requires { HoldingIn state.old cut held taken × Begun cut held × (held + length piece.now ≤ body_len (get_or cut 0 0)) × (taken + length piece.now ≤ 49152) }
    ensures { TakingIn piece.now (state_at state.old) 0 state.new result }
{
    let n = piece.len();
    let mut more = cut;
    words::put_bytes(&mut more, words::wide(held), piece);
    put_progress(&mut *state, taken + n as u32, held + n as u8, more);
    n
}

// One having begun that the piece makes whole: passes it, if it is faultless and no end record, and goes on behind it.
fn whole_on(state: &mut [u8], cut: [u8; 12], held: u8, n: u8, taken: u32, piece: &[u8]) -> usize
    requires { HoldingIn state.old cut held taken × Begun cut held × (n ≡ body_len (get_or cut 0 0)) × (n - held < length piece.now) × (taken + length piece.now ≤ 49152) }
    ensures { TakingIn piece.now (state_at state.old) 0 state.new result }
{
    let missing = words::wide(n - held) + 1;
    let size = words::wide(n) + 1;
    let mut whole = cut;
    words::put_bytes(&mut whole, words::wide(held), &piece[..missing]);
    let next = checker::pass(&whole[..size], 0, &mut *state);
    if next == 0 {
        return 0;
    }
    records_on(&mut *state, taken + missing as u32, piece, missing)
}

// One having begun; a state that no call left is not taken further.
fn begun_on(state: &mut [u8], cut: [u8; 12], held: u8, taken: u32, piece: &[u8]) -> usize
    requires { HoldingIn state.old cut held taken × (taken + length piece.now ≤ 49152) }
    ensures { TakingIn piece.now (state_at state.old) 0 state.new result }
{
    let n = records::body_len(cut[0]);
    if (held == 0) | ((n == records::NO_LEN) | (n < held)) {
        return 0;
    }
    if piece.len() <= words::wide(n - held) {
        return held_on(&mut *state, cut, held, taken, piece);
    }
    whole_on(&mut *state, cut, held, n, taken, piece)
}

// While records are read.
fn on_open(state: &mut [u8], taken: u32, piece: &[u8]) -> usize
    requires { (is_state state.old ≡ true) × ((state_at state.old).stage ≡ Open) × (taken ≡ (state_at state.old).taken) × (taken + length piece.now ≤ 49152) }
    ensures { TakingIn piece.now (state_at state.old) 0 state.new result }
{
    let held = words::byte_at(state, 10);
    let mut cut = [0u8; 12];
    words::put_bytes(&mut cut, 0, &state[11..23]);
    if words::are_zeros(&cut) & (held == 0) {
        return records_on(&mut *state, taken, piece, 0);
    }
    begun_on(&mut *state, cut, held, taken, piece)
}

// Takes a piece in place as far as it can, and tells how far; after a refusal bytes are only counted.
fn in_place(state: &mut [u8], piece: &[u8]) -> usize
    requires { is_state state.old ≡ true }
    ensures { TakingIn piece.now (state_at state.old) 0 state.new result }
{
    let taken = words::quad_at(state, 6);
    if (piece.len() == 0) | !pieces::has_room(taken, piece.len()) {
        return 0;
    }
    let stage = words::byte_at(state, 0);
    if stage == 0 {
        return on_open(&mut *state, taken, piece);
    }
    if stage == 2 {
        put_progress(&mut *state, taken + piece.len() as u32, 0, [0; 12]);
        return piece.len();
    }
    0
}

// One piece more; whether the bytes stand for a state.
pub fn take(state: &mut [u8], piece: &[u8]) -> bool
    ensures { (result ≡ is_state state.old) × (state.new ≡ piece_taken_in state.old piece.now) }
{
    if !piece_bytes::is_state(&state[..]) {
        return false;
    }
    let at = in_place(&mut *state, piece);
    if at < piece.len() {
        let k = piece_bytes::state_at(&state[..]);
        let after = pieces::take(k, &piece[at..]);
        piece_bytes::put_state(&mut *state, after);
    }
    true
}
