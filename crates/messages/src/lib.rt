// Messages between modules and supervisors: specs/Message.antt.
#![tactic(auto)]

ghost use Rattle.std.specs.Prelude.{◌≡◌, ◌+◌, ◌≤◌, length};
ghost use Rattle.std.proofs.lemmas.List.Edits.{sets};
ghost use Rattle.messages.specs.Message.{message_bytes, ParsedAs};
ghost use Rattle.messages.specs.Write.{Wrote};

// The bytes of each message, and of the buffer that a step is lent: `bid_size`, `permit_size`, `release_size` and `buffer_length` of the specs.
pub const BID_SIZE: usize = 3;

pub const PERMIT_SIZE: usize = 11;

pub const RELEASE_SIZE: usize = 4;

pub const BUFFER_LENGTH: usize = 32 * RELEASE_SIZE;

// Document 01's terms: a bid of a module to a supervisor, the supervisor's permit with its shown mask, and the module's release with the event
// that fired, or 255 for no event.
#[derive(Clone, Copy)]
pub enum Message {
    Bid {
        owner: u8,
        supervisor: u8,
    },
    Permit {
        supervisor: u8,
        owner: u8,
        mask: u64,
    },
    Release {
        owner: u8,
        supervisor: u8,
        event: u8,
    },
}

// The message that the bytes are, or None if they are misshapen.
pub fn read(bytes: &[u8]) -> Option<Message>
    ensures { ParsedAs bytes.now result }
{
    let n = bytes.len();
    let kind = words::byte_at(bytes, 0);
    let f1 = words::byte_at(bytes, 1);
    let f2 = words::byte_at(bytes, 2);
    if (kind == 0x01) & (n == BID_SIZE) {
        return Some(Message::Bid {
            owner: f1,
            supervisor: f2,
        });
    }
    if (kind == 0x02) & (n == PERMIT_SIZE) {
        let mask = words::word_at(bytes, 3);
        return Some(Message::Permit {
            supervisor: f1,
            owner: f2,
            mask,
        });
    }
    if (kind == 0x03) & (n == RELEASE_SIZE) {
        let f3 = words::byte_at(bytes, 3);
        return Some(Message::Release {
            owner: f1,
            supervisor: f2,
            event: f3,
        });
    }
    None
}

// How many bytes a message is.
pub fn length_of(g: Message) -> usize
    ensures { result ≡ length (message_bytes g) }
{
    match g {
        Message::Bid { .. } => BID_SIZE,
        Message::Permit { .. } => PERMIT_SIZE,
        Message::Release { .. } => RELEASE_SIZE,
    }
}

// The message's bytes at an offset.
fn put_message(g: Message, s: &mut [u8], at: usize)
    requires { at + length (message_bytes g) ≤ length s.old }
    ensures { s.new ≡ sets s.old at (message_bytes g) }
{
    match g {
        Message::Bid { owner, supervisor } => {
            words::put_bytes(s, at, &[0x01, owner, supervisor]);
        }
        Message::Permit {
            supervisor,
            owner,
            mask,
        } => {
            words::put_bytes(&mut *s, at, &[0x02, supervisor, owner]);
            words::put_word(&mut *s, at + 3, mask);
        }
        Message::Release {
            owner,
            supervisor,
            event,
        } => {
            words::put_bytes(s, at, &[0x03, owner, supervisor, event]);
        }
    }
}

// Writes a message at an offset of the buffer, if there is room for it; else the buffer stays.
pub fn write(g: Message, buffer: &mut [u8], at: usize) -> bool
    ensures { Wrote g at buffer.old result buffer.new }
{
    let n = length_of(g);
    if n <= buffer.len() {
        if at <= buffer.len() - n {
            put_message(g, &mut *buffer, at);
            return true;
        }
        false
    } else {
        false
    }
}
