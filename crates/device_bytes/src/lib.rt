// The state of one device as bytes: specs/Device.antt. A call reads and puts what it needs of them, in place.
#![tactic(auto)]

ghost use Rattle.std.specs.Prelude.{◌≡◌, ◌+◌, ◌-◌, ◌*◌, ◌≤◌, ◌<◌, length, take, drop};
ghost use Rattle.std.proofs.lemmas.List.Edits.{sets};
ghost use Rattle.bits.specs.Bit.{all_below};
ghost use Rattle.words.specs.Word.{all_zero};
ghost use Rattle.places.specs.Places.{records_by};
ghost use Rattle.words.specs.Lists.{list_from};
ghost use Rattle.device_states.specs.States.{device_fits};
ghost use Rattle.own_bytes.specs.Own.{own_size, own_bytes};
ghost use Rattle.device_bytes.specs.Device.{slots_size, device_size, owns_bytes, device_put, slot_of, state_byte, slot_fits, device_of, states_in, own_in, slot_put};

use device_states::Device;
use modules::Own;
use places::Places;
use std::array;

// The bytes of the slots and of a device: `slots_size` and `device_size` of the specs.
pub const SLOTS_SIZE: usize = 16 * own_bytes::OWN_SIZE;

pub const DEVICE_SIZE: usize = SLOTS_SIZE + 32;

// ---- read

fn slot_of(s: &[u8], i: usize) -> Own
    requires { (length s.now ≡ device_size) × (i < 16) }
    ensures { result ≡ slot_of s.now i }
{
    let o = i * own_bytes::OWN_SIZE;
    own_bytes::own_of(&s[o..])
}

// Whether what stands in the slot of module m fits, of a plan of n modules. A NaN neither fits nor is 0, so that beside the own part only
// its flag, byte 10, is judged.
fn slot_fits(image: &[u8], places: Places, n: u8, s: &[u8], m: u8) -> bool
    requires { (length s.now ≡ device_size) × (m < 16) }
    ensures { result ≡ slot_fits (records_by image.now places) n s.now m }
{
    let i = words::wide(m);
    if 2 <= s[i * own_bytes::OWN_SIZE + 10] {
        return false;
    }
    let own = slot_of(s, i);
    if m < n {
        fitting::fits(image, places, m, own)
    } else {
        fitting::is_empty(own)
    }
}

// Whether every byte of the slots from that of module m on is 0.
fn zeros_from(s: &[u8], m: u8) -> bool
    requires { (length s.now ≡ device_size) × (m < 16) }
    ensures { result ≡ all_zero (take (slots_size - m * own_size) (drop (m * own_size) s.now)) }
{
    let o = words::wide(m) * own_bytes::OWN_SIZE;
    words::are_zeros(&s[o..SLOTS_SIZE])
}

// Slots that the plan lacks are 0 in every state that fits, so that all of them are judged by one look at their bytes.
fn slots_fit(image: &[u8], places: Places, n: u8, s: &[u8]) -> bool
    requires { length s.now ≡ device_size }
    ensures { result ≡ all_below (slot_fits (records_by image.now places) n s.now) 16 }
{
    for m in 0..16u8 {
        if n <= m {
            if zeros_from(s, m) {
                return true;
            }
        }
        if !slot_fits(image, places, n, s, m) {
            return false;
        }
    }
    true
}

fn states_in(s: &[u8]) -> [u8; 32]
    requires { length s.now ≡ device_size }
    ensures { result ≡ list_from (state_byte s.now) 0 32 }
{
    array::from_fn(|v| s[SLOTS_SIZE + v])
}

// The states of the supervisors; bytes of another length have none.
pub fn states_of(s: &[u8]) -> [u8; 32]
    ensures { result ≡ states_in s.now }
{
    if s.len() == DEVICE_SIZE {
        states_in(s)
    } else {
        [0; 32]
    }
}

// Whether the bytes stand for a device that fits the plan.
pub fn fits(image: &[u8], places: Places, s: &[u8]) -> bool
    ensures { result ≡ device_fits (records_by image.now places) (device_of s.now) }
{
    if s.len() != DEVICE_SIZE {
        return false;
    }
    let n = plan::modules_of(image, places);
    if slots_fit(image, places, n, s) {
        device_states::states_fit(image, places, states_in(s))
    } else {
        false
    }
}

// The own part of a module; past the last slot, and of bytes of another length, the empty one.
pub fn own_at(s: &[u8], m: u8) -> Own
    ensures { result ≡ own_in s.now m }
{
    if s.len() != DEVICE_SIZE {
        return modules::empty();
    }
    if 16 <= m {
        return modules::empty();
    }
    slot_of(s, words::wide(m))
}

// ---- put

fn put_slot(s: &mut [u8], i: usize, own: Own)
    requires { i * own_size + own_size ≤ length s.old }
    ensures { (s.new ≡ sets s.old (i * own_size) (own_bytes own)) × (length (own_bytes own) ≡ own_size) }
{
    own_bytes::put_own(s, i * own_bytes::OWN_SIZE, own);
}

fn put_slots(s: &mut [u8], owns: [Own; 16])
    requires { slots_size ≤ length s.old }
    ensures { (s.new ≡ sets s.old 0 (owns_bytes owns)) × (length (owns_bytes owns) ≡ slots_size) }
{
    for i in 0..16 {
        put_slot(&mut *s, i, owns[i]);
    }
}

// Puts the bytes of an own part into the slot of a module; past the last slot, or without room for all, the slice stays.
pub fn put_own(s: &mut [u8], m: u8, own: Own)
    ensures { s.new ≡ slot_put own m s.old }
{
    if m < 16 {
        own_bytes::put_own(s, words::wide(m) * own_bytes::OWN_SIZE, own);
    }
}

// Puts the bytes of a device at the start, if there is room for all; else the slice stays.
pub fn put_device(s: &mut [u8], d: Device)
    ensures { s.new ≡ device_put d s.old }
{
    if DEVICE_SIZE <= s.len() {
        put_slots(&mut *s, d.modules);
        words::put_bytes(&mut *s, SLOTS_SIZE, &d.supervisors);
    }
}
