// Whether the own part of a module fits the plan. Its rules are specs/Fits.antt of crate modules.
#![tactic(auto)]

ghost use Rattle.std.specs.Prelude.{◌≡◌, cond, ◌≤◌, eqb, ltb, take, drop};
ghost use Rattle.places.specs.Places.{records_by};
ghost use Rattle.plan.specs.Plan.{own_uncontrollable};
ghost use Rattle.water.specs.Water.{water_zero, running};
ghost use Rattle.modules.specs.Fits.{every, queue_fits, idle_fits, step_fits, procedure_fits, own_fits, own_empty};

use modules::{Own, Procedure};
use places::Places;
use water::Water;

// Whether the cells from n on hold 0.
fn zeros_from(q: [u8; 8], n: usize) -> bool
    ensures { result ≡ every (λ x. eqb x 0) (drop n q) }
{
    q.iter().skip(n).all(|x| *x == 0)
}

// Whether the first n cells hold uncontrollable events of module m.
fn responses_fit(image: &[u8], places: Places, m: u8, q: [u8; 8], n: usize) -> bool
    ensures { result ≡ every (own_uncontrollable (records_by image.now places) m) (take n q) }
{
    q.iter()
        .take(n)
        .all(|e| plan::own_uncontrollable(image, places, m, *e))
}

fn queue_fits(image: &[u8], places: Places, m: u8, own: Own) -> bool
    ensures { result ≡ queue_fits (records_by image.now places) m own }
{
    let q = own.queue;
    let n = words::wide(own.length);
    if n <= 8 {
        responses_fit(image, places, m, q, n) & zeros_from(q, n)
    } else {
        false
    }
}

// The ticks counted at a step of operation o and operand x.
fn count_fits(o: u8, x: u64, count: u16) -> bool
    ensures { result ≡ cond (eqb o 3) (ltb count x) (eqb count 0) }
{
    if o == 3 {
        (count as u64) < x
    } else {
        count == 0
    }
}

// The water at a step of operation o and operand x.
fn water_fits(o: u8, x: u64, w: Water) -> bool
    ensures { result ≡ cond (eqb o 4) (running x w) (water_zero w) }
{
    if o == 4 {
        water::running(x, w)
    } else {
        water::is_zero(w)
    }
}

fn step_fits(image: &[u8], places: Places, m: u8, p: Procedure) -> bool
    ensures { result ≡ step_fits (records_by image.now places) m p }
{
    let s = modules::step_fields(image, places, p.event, p.index);
    let owned = plan::own_event(image, places, m, p.event);
    let counted = count_fits(s.operation, s.operand, p.count);
    let w = p.water;
    s.present & owned & counted & water_fits(s.operation, s.operand, w)
}

fn idle_fits(p: Procedure) -> bool
    ensures { result ≡ idle_fits p }
{
    let w = p.water;
    (p.event == 0) & (p.index == 0) & (p.count == 0) & water::is_zero(w)
}

fn procedure_fits(image: &[u8], places: Places, m: u8, p: Procedure) -> bool
    ensures { result ≡ procedure_fits (records_by image.now places) m p }
{
    if p.running {
        step_fits(image, places, m, p)
    } else {
        idle_fits(p)
    }
}

// Whether the own part fits as that of module m.
pub fn fits(image: &[u8], places: Places, m: u8, own: Own) -> bool
    ensures { result ≡ own_fits (records_by image.now places) m own }
{
    let p = own.procedure;
    plan::module_state(image, places, m, own.state)
        & queue_fits(image, places, m, own)
        & procedure_fits(image, places, m, p)
}

// Whether every number of the own part is 0.
pub fn is_empty(own: Own) -> bool
    ensures { result ≡ own_empty own }
{
    let q = own.queue;
    let p = own.procedure;
    (own.state == 0)
        & (own.length == 0)
        & zeros_from(q, 0)
        & !p.running
        & idle_fits(p)
        & (own.outputs == 0)
}
