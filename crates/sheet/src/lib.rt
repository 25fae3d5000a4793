// What a line of the listing's script does to the device, and the line printed of it: specs/Listing.antt.
#![tactic(auto)]

ghost use Rattle.std.specs.Prelude.{◌≡◌};
ghost use Rattle.sheet.specs.Listing.{played};

use device_states::Device;
use script::Line;
use texts::Text;

// The number of a line that is neither `t M` nor `r M E`.
const MISSHAPEN: u8 = 10;

// The device after a line, and the line to print.
#[derive(Clone, Copy)]
pub struct Played {
    pub device: Device,
    pub line: Text,
}

// Does what a line asks.
pub fn play(image: &[u8], d: Device, line: Line) -> Played
    ensures { result ≡ played image.now d line }
{
    match line {
        Line::Turn(m) => {
            let t = device::turn(image, d, m);
            let a = t.answer;
            let after = t.device;
            Played {
                device: after,
                line: script::turn_line(m, a),
            }
        }
        Line::Response(m, e) => {
            let c = device::respond(image, d, m, e);
            let a = c.answer;
            let after = c.device;
            Played {
                device: after,
                line: script::response_line(m, e, a),
            }
        }
        Line::Misshapen => Played {
            device: d,
            line: script::refused_line(MISSHAPEN),
        },
    }
}
