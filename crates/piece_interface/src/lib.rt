// The check of a plan in pieces over lent bytes: specs/Calls.antt.
#![tactic(auto)]

ghost use Rattle.std.specs.Prelude.{◌≡◌, []};
ghost use Rattle.packing.specs.Answer.{Answered};
ghost use Rattle.piece_interface.specs.Calls.{check_start_bytes, check_piece_bytes, check_answer_bytes};

// How many bytes a state has.
const SIZE: usize = 495;

// The state before the first piece.
pub fn check_start(state: &mut [u8]) -> u64
    ensures { Answered (check_start_bytes state.old) result [] state.new }
{
    if state.len() < SIZE {
        return packing::pack(15, 0, 0, 0);
    }
    piece_bytes::put_state(&mut *state, pieces::start());
    packing::pack(0, 0, 0, SIZE)
}

// One piece more.
pub fn check_piece(state: &mut [u8], piece: &[u8]) -> u64
    ensures { Answered (check_piece_bytes state.old piece.now) result state.new [] }
{
    if taking::take(&mut *state, piece) {
        return packing::pack(0, 0, 0, 0);
    }
    packing::pack(9, 0, 0, 0)
}

// The check of the pieces taken so far.
pub fn check_answer(state: &[u8]) -> u64
    ensures { result ≡ check_answer_bytes state.now }
{
    if piece_bytes::is_state(state) {
        let k = piece_bytes::state_at(state);
        return packing::called(pieces::verdict(k));
    }
    packing::pack(9, 0, 0, 0)
}
