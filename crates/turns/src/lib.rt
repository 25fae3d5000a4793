// A turn of a module over a mask of disabled events, and whether it wishes for one. Their rules are specs/Turn.antt of crate modules.
#![tactic(auto)]

ghost use Rattle.std.specs.Prelude.{◌≡◌, take};
ghost use Rattle.places.specs.Places.{records_by, moves_of};
ghost use Rattle.plan.specs.Plan.{module_move};
ghost use Rattle.modules.specs.Queue.{response_at};
ghost use Rattle.modules.specs.Turn.{by_response, by_choice, chosen, turn_of, wish};
ghost use Rattle.turns.specs.Usable.{first_among};

use modules::{Own, Turned};
use places::Places;

// The index of the first of a queue's n responses that is one of the moves.
fn first_usable(moves: u64, q: [u8; 8], n: u8) -> Option<u8>
    ensures { result ≡ first_among moves (take n q) }
{
    for i in 0..n {
        if 8 <= i {
            return None;
        }
        if bits::has(moves, modules::cell(q, n, words::wide(i))) {
            return Some(i);
        }
    }
    None
}

// The response at index i of the queue.
fn by_response(image: &[u8], places: Places, m: u8, i: u8, own: Own) -> Turned
    ensures { result ≡ by_response own i (module_move (records_by image.now places) m own.state (response_at own i)) }
{
    let q = own.queue;
    let e = modules::cell(q, own.length, words::wide(i));
    let Some(t) = plan::module_move(image, places, m, own.state, e) else {
        return Turned { turn: None, own };
    };
    let next = Own {
        state: t,
        ..modules::without(own, i)
    };
    Turned {
        turn: Some(e),
        own: next,
    }
}

// The lowest command among the state's moves that the mask k does not disable.
fn by_choice(image: &[u8], places: Places, m: u8, k: u64, moves: u64, own: Own) -> Turned
    requires { moves ≡ moves_of (records_by image.now places) m own.state }
    ensures { result ≡ by_choice (records_by image.now places) m own (chosen (records_by image.now places) m k own) }
{
    let Some(e) = bits::lowest(masks::commands(image, places, moves) & !k) else {
        return Turned { turn: None, own };
    };
    let Some(to) = plan::module_move(image, places, m, own.state, e) else {
        return Turned { turn: None, own };
    };
    let next = Own {
        state: to,
        procedure: modules::arrive_at(image, places, e, 0),
        ..own
    };
    Turned {
        turn: Some(e),
        own: next,
    }
}

// A turn of module m over the mask k. The moves of the state are read once, and not where nothing can fire.
pub fn turn(image: &[u8], places: Places, m: u8, k: u64, own: Own) -> Turned
    ensures { result ≡ turn_of (records_by image.now places) m k own }
{
    let p = own.procedure;
    if (own.length == 0) & p.running {
        return Turned { turn: None, own };
    }
    let q = own.queue;
    let moves = places::moves_of(image, places, m, own.state);
    match first_usable(moves, q, own.length) {
        Some(i) => by_response(image, places, m, i, own),
        None => {
            if p.running {
                Turned { turn: None, own }
            } else {
                by_choice(image, places, m, k, moves, own)
            }
        }
    }
}

// Whether module m wishes for a turn.
pub fn wish(image: &[u8], places: Places, m: u8, own: Own) -> bool
    ensures { result ≡ wish (records_by image.now places) m own }
{
    let n = own.length;
    let p = own.procedure;
    if (n == 0) & p.running {
        return false;
    }
    let q = own.queue;
    let moves = places::moves_of(image, places, m, own.state);
    match first_usable(moves, q, n) {
        Some(_) => true,
        None => {
            if p.running {
                false
            } else {
                masks::commands(image, places, moves) != 0
            }
        }
    }
}
