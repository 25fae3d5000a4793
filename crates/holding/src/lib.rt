// The permits that a module holds and those that it lacks, by the mask of its neighbours, whether its state fits, and a call that is refused:
// permits/specs/Module.antt.
#![tactic(auto)]

ghost use Rattle.std.specs.Prelude.{◌≡◌};
ghost use Rattle.places.specs.Places.{records_by};
ghost use Rattle.permits.specs.Module.{missing_in, held_in, fits_in, call_refused};
ghost use Rattle.holding.specs.Lacking.{Lacking};

use permits::{Module, ModuleCalled};
use places::Places;
use refusal::Refusal;

// The lowest neighbour whose permit is not held.
pub fn missing(adjacent: u32, held: u32) -> Option<u8>
    ensures { result ≡ missing_in adjacent held }
{
    let neighbour_bits = adjacent as u64;
    let held_bits = held as u64;
    bits::lowest(neighbour_bits & !held_bits)
}

// Whether the permits held are those of the lowest neighbours.
pub fn held_fits(adjacent: u32, held: u32) -> bool
    ensures { result ≡ held_in adjacent held }
{
    let neighbour_bits = adjacent as u64;
    let held_bits = held as u64;
    // Whether the permits of all neighbours below v are held.
    let mut whole = true;
    for v in 0..32u8 {
        // Past the last that is held nothing is left to ask.
        if held_bits >> v == 0 {
            return true;
        }
        let neighbour_v = bits::has(neighbour_bits, v);
        let held_v = bits::has(held_bits, v);
        if held_v & !(neighbour_v & whole) {
            return false;
        }
        whole = (!neighbour_v | held_v) & whole;
    }
    true
}

// Whether a permit is missing. Those held are neighbours, so that none is where there are as many.
pub fn lacks(adjacent: u32, held: u32) -> bool
    ensures { Lacking adjacent held result }
{
    u32::count_ones(held) != u32::count_ones(adjacent)
}

// Whether the state fits the plan.
pub fn fits(image: &[u8], places: Places, m: u8, adjacent: u32, x: Module) -> bool
    ensures { result ≡ fits_in (records_by image.now places) m adjacent x }
{
    let Module {
        own,
        held,
        received,
        bid,
    } = x;
    if held_fits(adjacent, held) {
        ((held != 0) | (received == 0))
            & (!bid | lacks(adjacent, held))
            & fitting::fits(image, places, m, own)
    } else {
        false
    }
}

// The number and the offset of a call without a buffer, and the state as it came.
pub fn refused(x: Module, n: u8, at: usize) -> ModuleCalled
    ensures { result ≡ call_refused x n at }
{
    ModuleCalled {
        answer: Err(Refusal {
            number: n,
            offset: at,
        }),
        state: x,
    }
}
