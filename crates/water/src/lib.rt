// The water of a running litres step, and a flow reading. Their rules are specs/Water.antt.
#![tactic(auto)]

ghost use Rattle.std.specs.Prelude.{◌≡◌};
ghost use Rattle.water.specs.Water as Rules;
ghost use Rattle.water.specs.Water.{no_water, water_of, Summed, Compared, is_zero, water_zero};

// One small record of target and total, in litres.
#[derive(Clone, Copy)]
pub struct Water {
    pub target: f64,
    pub total: f64,
}

// A flow reading: litres, or that no sensor is fitted.
#[derive(Clone, Copy)]
pub enum Flow {
    Litres(f64),
    NoSensor,
}

// The water where no litres step runs.
pub fn none() -> Water
    ensures { result ≡ no_water }
{
    Water {
        target: 0.0,
        total: 0.0,
    }
}

// The water as a litres step begins, by the bits of its target.
pub fn started(bits: u64) -> Water
    ensures { result ≡ water_of bits }
{
    if litres::target_ok(bits) {
        let t = f64::from_bits(bits);
        Water {
            target: t,
            total: 0.0,
        }
    } else {
        none()
    }
}

// The water with one reading added.
pub fn add_reading(w: Water, f: Flow) -> Water
    ensures { Summed w f result }
{
    match f {
        Flow::Litres(x) => Water {
            target: w.target,
            total: w.total + x,
        },
        Flow::NoSensor => w,
    }
}

// One reading updates the lent record in place.
pub fn add_in_place(w: &mut Water, f: Flow)
    ensures { Summed w.old f w.new }
{
    *w = add_reading(*w, f);
}

// The record by value, updated in place. It alone lends one, so that callers need no proof about lent memory.
pub fn updated(before: Water, f: Flow) -> Water
    ensures { Summed before f result }
{
    let mut w = before;
    add_in_place(&mut w, f);
    w
}

// Whether the total is at the target or above.
pub fn reached(w: Water) -> bool
    ensures { Compared w result }
{
    w.target <= w.total
}

// By the sign's bit: the test for eighths would take a remainder, which costs more than all the rest.
fn zero(x: f64) -> bool
    ensures { result ≡ is_zero x }
{
    if x == 0.0 {
        f64::to_bits(x) < 0x8000_0000_0000_0000
    } else {
        false
    }
}

// Whether target and total are 0 and not minus zero.
pub fn is_zero(w: Water) -> bool
    ensures { result ≡ water_zero w }
{
    zero(w.target) & zero(w.total)
}

// Whether it is the water of a litres step that has begun and not ended, by the bits of the plan's target.
pub fn running(bits: u64, w: Water) -> bool
    ensures { result ≡ Rules.running bits w }
{
    if litres::target_ok(bits) {
        let t = f64::from_bits(bits);
        let whole = litres::is_eighths(w.target) & litres::is_eighths(w.total);
        whole & (w.target == t) & (w.total < w.target)
    } else {
        false
    }
}
