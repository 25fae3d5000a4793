// A message in a Modbus RTU frame over lent bytes: specs/Frames.antt.
#![tactic(auto)]

ghost use Rattle.std.specs.Prelude.{◌≡◌, []};
ghost use Rattle.packing.specs.Answer.{Answered, length_answer};
ghost use Rattle.frame_interface.specs.Frames.{write_frame_bytes, unframed_answer, read_frame_bytes};

use refusal::Refusal;

// Writes the frame of a message from the buffer's start.
pub fn write_frame(address: u8, message: &[u8], buffer: &mut [u8]) -> u64
    ensures { Answered (write_frame_bytes address message.now buffer.old) result [] buffer.new }
{
    packing::written(frames::write(address, message, buffer))
}

fn unframed(r: Result<(u8, usize), Refusal>) -> u64
    ensures { result ≡ unframed_answer r }
{
    match r {
        Ok((a, n)) => packing::pack(0, 0, a, n),
        Err(e) => packing::pack(e.number, 0, 0, e.offset),
    }
}

// Reads a frame: its message goes to the buffer's start, its address into the answer.
pub fn read_frame(frame: &[u8], buffer: &mut [u8]) -> u64
    ensures { Answered (read_frame_bytes frame.now buffer.old) result [] buffer.new }
{
    unframed(frames::read(frame, buffer))
}
