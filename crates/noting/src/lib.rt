// The bids that a supervisor has noted, the module that its permit goes to, and whether its state fits: permits/specs/Supervisor.antt.
#![tactic(auto)]

ghost use Rattle.std.specs.Prelude.{◌≡◌, not, ◌&&◌, ◌||◌, ◌<◌};
ghost use Rattle.places.specs.Places.{records_by};
ghost use Rattle.bits.specs.Bit.{bit, all_below, every_event, least};
ghost use Rattle.plan.specs.Plan.{modules_near};
ghost use Rattle.permits.specs.Names.{neighbours?};
ghost use Rattle.permits.specs.Supervisor.{holder_fits, supervisor_fits, module_after, served};
ghost use Rattle.noting.specs.Notes.{put_note};

use permits::{Holder, Supervisor};
use places::Places;

// ---- a state that fits

// Whether a module is a neighbour, by the mask of those that are. Past 15, which no accepted plan has, it is looked up.
fn is_near(image: &[u8], places: Places, v: u8, near: u16, m: u8) -> bool
    requires { near ≡ modules_near (records_by image.now places) v }
    ensures { result ≡ neighbours? (records_by image.now places) m v }
{
    if m < 16 {
        let mask = near as u64;
        bits::has(mask, m)
    } else {
        permits::are_neighbours(image, places, m, v)
    }
}

// Whether every noted module is one of a mask.
fn noted_near(noted: u16, near: u16) -> bool
    ensures { result ≡ every_event noted (bit near) }
{
    bits::within(noted as u64, near as u64)
}

// Whether the noted modules and the holder are neighbours. While nothing is noted and the permit is home, nothing is looked up.
fn modules_fit(image: &[u8], places: Places, v: u8, noted: u16, holder: Holder) -> bool
    ensures { result ≡ (all_below (λ m. not (bit noted m) || neighbours? (records_by image.now places) m v) 16 && holder_fits (records_by image.now places) v holder) }
{
    match holder {
        Holder::Home => {
            if noted == 0 {
                true
            } else {
                noted_near(noted, masks::modules_near(image, places, v))
            }
        }
        Holder::Out(m) => {
            let near = masks::modules_near(image, places, v);
            noted_near(noted, near) & is_near(image, places, v, near, m)
        }
    }
}

// Whether the state fits the plan.
pub fn fits(image: &[u8], places: Places, v: u8, y: Supervisor) -> bool
    ensures { result ≡ supervisor_fits (records_by image.now places) v y }
{
    let holder = y.holder;
    plan::supervisor_state(image, places, v, y.state)
        & modules_fit(image, places, v, y.noted, holder)
        & (y.last < 16)
}

// ---- the module that is served

// The noted modules by their places after the last served: bit k is the note of the k-th.
fn rotated(noted: u16, last: u8) -> u64
    requires { last < 16 }
    ensures { least (bit result) 64 ≡ least (λ k. bit noted (module_after last k)) 16 }
{
    let mask = noted as u64;
    let twice = mask | (mask << 16);
    (twice >> (last + 1)) & 0xffff
}

// The module to which the permit goes, if it is home. A place past the last is taken round, as in the definition.
pub fn served(y: Supervisor) -> Option<u8>
    ensures { result ≡ served y }
{
    let holder = y.holder;
    let last = y.last % 16;
    match holder {
        Holder::Home => {
            let k = bits::lowest(rotated(y.noted, last))?;
            Some((last + 1 + k) % 16)
        }
        Holder::Out(_) => None,
    }
}

// ---- a note

// The notes with a module's on or off; past the last module they stay.
pub fn put_note(noted: u16, m: u8, on: bool) -> u16
    ensures { result ≡ put_note noted m on }
{
    if m < 16 {
        let mask = noted as u64;
        bits::put(mask, m, on) as u16
    } else {
        noted
    }
}
