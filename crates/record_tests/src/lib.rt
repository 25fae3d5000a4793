// The tests that the check makes of one record, by its fields and by masks of what was declared before it: specs/Tests.antt.
#![tactic(auto)]

ghost use Rattle.std.specs.Prelude.{◌≡◌};
ghost use Rattle.record_tests.specs.Tests.{stands_at, supervisor_kept, move_named, disabling_named, respond_fits, step_kept, end_kept};

use context::Counts;
use records::{Record, RecordKey};

// The first fields of a record, one byte each.
#[derive(Clone, Copy)]
pub struct Fields {
    pub first: u8,
    pub second: u8,
    pub third: u8,
    pub fourth: u8,
}

// Whether a record of a kind, of n bytes, stands whole at an offset.
pub fn stands(image: &[u8], at: usize, kind: u8, n: usize) -> bool
    ensures { result ≡ stands_at image.now at kind n }
{
    if at < image.len() {
        (n <= image.len() - at) & (image[at] == kind)
    } else {
        false
    }
}

pub fn supervisor_kept(f: Fields, x: u64, n: Counts, events: u64) -> bool
    ensures { result ≡ supervisor_kept f x n events }
{
    let r = Record::Supervisor {
        number: f.first,
        states: f.second,
        initial: f.third,
        alphabet: x,
    };
    records::in_range(r)
        & ((f.first < n.supervisors) & (f.third < f.second) & bits::within(x, events))
}

pub fn move_named(f: Fields, known: u64, states: u8, named: u64) -> bool
    ensures { result ≡ move_named f known states named }
{
    bits::has(known, f.first)
        & (f.second < states)
        & bits::has(named, f.third)
        & (f.fourth < states)
}

pub fn disabling_named(f: Fields, mask: u64, n: u8, known: u64, states: u8, named: u64) -> bool
    ensures { result ≡ disabling_named f mask n known states named }
{
    (f.first < n) & bits::has(known, f.first) & (f.second < states) & bits::within(mask, named)
}

pub fn respond_fits(x: u64, events: u8, named: u64, controllable: u64, same: bool) -> bool
    ensures { result ≡ respond_fits x events named controllable same }
{
    if x < 64 {
        let e = (x % 256) as u8;
        ((e < events) & bits::has(named, e)) & (!bits::has(controllable, e) & same)
    } else {
        false
    }
}

pub fn step_kept(f: Fields, x: u64, events: u8, named: u64, controllable: u64, same: bool) -> bool
    ensures { result ≡ step_kept f x events named controllable same }
{
    let r = Record::Step {
        event: f.first,
        index: f.second,
        operation: f.third,
        operand: x,
    };
    records::in_range(r)
        & ((f.first < events) & bits::has(named, f.first))
        & bits::has(controllable, f.first)
        & ((f.third != 5) | respond_fits(x, events, named, controllable, same))
}

// Whether a faultless end record stands at an offset.
pub fn end_kept(
    image: &[u8],
    at: usize,
    last: RecordKey,
    n: Counts,
    modules: u64,
    supervisors: u64,
    events: u64,
) -> bool
    ensures { result ≡ end_kept image.now at last n modules supervisors events }
{
    let key = RecordKey {
        kind: 0x1f,
        first: 0,
        second: 0,
        third: 0,
    };
    (stands(image, at, 0x1f, records::size_by(0x1f)) & records::precedes(last, key))
        & (bits::has_below(modules, n.modules)
            & bits::has_below(supervisors, n.supervisors)
            & bits::has_below(events, n.events))
}
