// Masks of events and of automata.
#![tactic(auto)]

ghost use Rattle.std.specs.Prelude.{◌≡◌};
ghost use Rattle.bits.specs.Bit.{bit, all_below, every_event, put_bit, least};

// Whether a mask has a bit. No mask has one at 64 or above.
pub fn has(m: u64, e: u8) -> bool
    ensures { result ≡ bit m e }
{
    if e < 64 { (m >> e) % 2 == 1 } else { false }
}

// The mask with bit e on or off, and the others as they were. At 64 or above the mask stays.
pub fn put(m: u64, e: u8, on: bool) -> u64
    ensures { result ≡ put_bit m e on }
{
    if e < 64 {
        let b = 1u64 << e;
        if on { m | b } else { m & !b }
    } else {
        m
    }
}

// Whether every bit of a is one of b.
pub fn within(a: u64, b: u64) -> bool
    ensures { result ≡ every_event a (bit b) }
{
    a & !b == 0
}

// Whether the mask has every bit below n. Above 64 the answer is false, since no mask has a bit there.
pub fn has_below(m: u64, n: u8) -> bool
    ensures { result ≡ all_below (bit m) n }
{
    if n < 64 {
        let b = 1u64 << n;
        within(b - 1, m)
    } else {
        if n == 64 {
            m == 0xffff_ffff_ffff_ffff
        } else {
            false
        }
    }
}

// The lowest bit of a mask.
pub fn lowest(m: u64) -> Option<u8>
    ensures { result ≡ least (bit m) 64 }
{
    let e = u64::trailing_zeros(m);
    if e < 64 {
        let n = e as u8;
        Some(n)
    } else {
        None
    }
}
