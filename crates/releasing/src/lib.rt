// The releases of a turn: specs/Released.antt.
#![tactic(auto)]

ghost use Rattle.std.specs.Prelude.{◌≡◌, ◌*◌, ◌≤◌, length};
ghost use Rattle.places.specs.Places.{records_by};
ghost use Rattle.messages.specs.Message.{release_size, message_bytes, written, put_at};
ghost use Rattle.messages.specs.declared.Message.TheVariants.{Release};
ghost use Rattle.plan.specs.Plan.{neighbour_count};
ghost use Rattle.permits.specs.Module.{event_for};
ghost use Rattle.releasing.specs.Released.{release_bytes, Released};

use messages::Message;
use places::Places;

// The event that a release to a supervisor carries, or 255.
fn event_for(image: &[u8], places: Places, v: u8, t: Option<u8>) -> u8
    ensures { result ≡ event_for (records_by image.now places) v t }
{
    let Some(e) = t else {
        return 255;
    };
    if plan::in_alphabet(image, places, v, e) {
        e
    } else {
        255
    }
}

// The release to a supervisor at an offset of the buffer.
fn release_to(
    image: &[u8],
    places: Places,
    m: u8,
    v: u8,
    t: Option<u8>,
    buffer: &mut [u8],
    at: usize,
)
    ensures { buffer.new ≡ put_at (message_bytes (Release m v (event_for (records_by image.now places) v t))) at buffer.old }
{
    let event = event_for(image, places, v, t);
    let g = Message::Release {
        owner: m,
        supervisor: v,
        event,
    };
    messages::write(g, &mut *buffer, at);
}

// The releases to all supervisors of a mask, in ascending order.
fn release_all(image: &[u8], places: Places, m: u8, mask: u32, t: Option<u8>, buffer: &mut [u8])
    requires { length (release_bytes (records_by image.now places) m mask t) ≤ length buffer.old }
    ensures { buffer.new ≡ written (release_bytes (records_by image.now places) m mask t) buffer.old }
{
    let mask_bits = mask as u64;
    let mut at: usize = 0;
    for v in 0..32u8 {
        // Past the last of them nothing is left to write.
        if mask_bits >> v == 0 {
            return;
        }
        if bits::has(mask_bits, v) {
            release_to(image, places, m, v, t, &mut *buffer, at);
            at += messages::RELEASE_SIZE;
        }
    }
}

// The bytes of the releases to the neighbours of a mask.
pub fn length_of(mask: u32) -> usize
    ensures { result ≡ release_size * neighbour_count mask }
{
    messages::RELEASE_SIZE * u32::count_ones(mask) as usize
}

// The releases of a module's turn to the supervisors of a mask into the buffer, if there is room for them.
pub fn release(
    image: &[u8],
    places: Places,
    m: u8,
    mask: u32,
    t: Option<u8>,
    buffer: &mut [u8],
) -> bool
    ensures { Released (records_by image.now places) m mask t buffer.old result buffer.new }
{
    let n = length_of(mask);
    if buffer.len() < n {
        return false;
    }
    release_all(image, places, m, mask, t, &mut *buffer);
    true
}
