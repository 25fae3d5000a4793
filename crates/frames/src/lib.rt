// Messages in Modbus RTU frames: specs/Frame.antt and specs/Calls.antt.
#![tactic(auto)]

ghost use Rattle.std.specs.Prelude.{◌≡◌, ◌+◌, ◌≤◌, length};
ghost use Rattle.words.specs.Word.{written};
ghost use Rattle.messages.specs.Message.{parse, parsed_number};
ghost use Rattle.crc.specs.Crc.{crc_of};
ghost use Rattle.frames.specs.Frame.{is_address, body_of, frame_of, is_frame, is_intact, message_in, write_number, read_number};
ghost use Rattle.frames.specs.Calls.{FramedAs, UnframedAs};

use refusal::Refusal;

fn is_address(a: u8) -> bool
    ensures { result ≡ is_address a }
{
    (1 <= a) & (a <= 247)
}

fn message_number(message: &[u8]) -> u8
    ensures { result ≡ parsed_number (parse message.now) }
{
    match messages::read(message) {
        Some(_) => 0,
        None => 10,
    }
}

// ---- writing

fn write_number(address: u8, message: &[u8]) -> u8
    ensures { result ≡ write_number address message.now }
{
    if is_address(address) {
        message_number(message)
    } else {
        18
    }
}

// The CRC of address, function and message.
fn crc_of(address: u8, message: &[u8]) -> u16
    ensures { result ≡ crc_of (body_of address message.now) }
{
    crc::with_bytes(crc::with_byte(crc::with_byte(0xFFFF, address), 65), message)
}

fn put_frame(address: u8, message: &[u8], buffer: &mut [u8])
    requires { length message.now + 4 ≤ length buffer.old }
    ensures { buffer.new ≡ written (frame_of address message.now) buffer.old }
{
    let n = message.len();
    let c = crc_of(address, message);
    let low = (c % 256) as u8;
    let high = (c / 256) as u8;
    words::put_bytes(&mut *buffer, 0, &[address, 65]);
    words::put_bytes(&mut *buffer, 2, message);
    words::put_bytes(&mut *buffer, n + 2, &[low, high]);
}

// Writes the frame of a message to an address from the buffer's start: the frame's length, or the number and the offset.
pub fn write(address: u8, message: &[u8], buffer: &mut [u8]) -> Result<usize, Refusal>
    ensures { FramedAs address message.now buffer.old result buffer.new }
{
    let number = write_number(address, message);
    if number != 0 {
        return Err(Refusal { number, offset: 0 });
    }
    let n = message.len();
    if buffer.len() < 4 {
        return Err(Refusal {
            number: 15,
            offset: 0,
        });
    }
    if buffer.len() - 4 < n {
        return Err(Refusal {
            number: 15,
            offset: 0,
        });
    }
    put_frame(address, message, &mut *buffer);
    Ok(n + 4)
}

// ---- reading

fn is_frame(frame: &[u8]) -> bool
    ensures { result ≡ is_frame frame.now }
{
    let n = frame.len();
    let a = words::byte_at(frame, 0);
    let f = words::byte_at(frame, 1);
    (5 <= n) & (n <= 256) & is_address(a) & (f == 65)
}

fn is_intact(frame: &[u8]) -> bool
    ensures { result ≡ is_intact frame.now }
{
    if frame.len() < 2 {
        return false;
    }
    let e = frame.len() - 2;
    let c = crc::of(&frame[..e]);
    let low = (c % 256) as u8;
    let high = (c / 256) as u8;
    (frame[e] == low) & (frame[e + 1] == high)
}

fn message_in(frame: &[u8]) -> &[u8]
    requires { 4 ≤ length frame.now }
    ensures { result.now ≡ message_in frame.now }
{
    let e = frame.len() - 2;
    &frame[2..e]
}

fn read_number(frame: &[u8]) -> u8
    ensures { result ≡ read_number frame.now }
{
    if !is_frame(frame) {
        return 18;
    }
    if !is_intact(frame) {
        return 19;
    }
    message_number(message_in(frame))
}

// Reads a frame, whose message goes to the buffer's start: the address and the length of the message, or the number and the offset.
pub fn read(frame: &[u8], buffer: &mut [u8]) -> Result<(u8, usize), Refusal>
    ensures { UnframedAs frame.now buffer.old result buffer.new }
{
    let number = read_number(frame);
    if number != 0 {
        return Err(Refusal { number, offset: 0 });
    }
    let address = words::byte_at(frame, 0);
    let message = message_in(frame);
    let n = message.len();
    if buffer.len() < n {
        return Err(Refusal {
            number: 15,
            offset: 0,
        });
    }
    words::put_bytes(&mut *buffer, 0, message);
    Ok((address, n))
}
