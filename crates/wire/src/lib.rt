// The messages under way, in the order sent: specs/Wire.antt.
#![tactic(auto)]

ghost use Rattle.std.specs.Prelude.{◌≡◌, ◌+◌, leb, take, drop};
ghost use Rattle.wire.specs.Wire.{under, empty, with_message, with_messages, nth_of, without};

use messages::Message;

// A message under way.
#[derive(Clone, Copy)]
pub struct Sent {
    pub message: Message,
}

// At most 48 messages are under way: one bid of each module, and one message for each permit, which carries it or brings it home (`few` of
// crate simulation_laws). A step is lent room for all that it may write, so there is room for 32 more, and some is left.
#[derive(Clone, Copy)]
pub struct Wire {
    pub messages: [Sent; 96],
    pub count: usize,
}

// No message.
pub fn empty() -> Wire
    ensures { result ≡ empty }
{
    let message = Message::Bid {
        owner: 0,
        supervisor: 0,
    };
    let none = Sent { message };
    Wire {
        messages: [none; 96],
        count: 0,
    }
}

// Whether there is room for n messages more.
pub fn has_room(w: Wire, n: usize) -> bool
    ensures { result ≡ leb (w.count + n) 96 }
{
    let count = w.count;
    if count <= 96 { n <= 96 - count } else { false }
}

// The messages with one more behind them.
pub fn with_message(w: Wire, g: Message) -> Wire
    ensures { result ≡ with_message w g }
{
    let at = w.count;
    let sent = Sent { message: g };
    if at < 96 {
        let mut next = w;
        next.messages[at] = sent;
        next.count = at + 1;
        next
    } else {
        w
    }
}

// The k-th message under way, or None.
pub fn message_at(w: Wire, k: usize) -> Option<Message>
    ensures { result ≡ nth_of (under w) k }
{
    if w.count <= k {
        return None;
    }
    if k < 96 {
        let sent = w.messages[k];
        Some(sent.message)
    } else {
        None
    }
}

// The messages `onto`, and behind them those from the index `from` to before `to`.
fn copied(w: Wire, onto: Wire, from: usize, to: usize) -> Wire
    ensures { result ≡ with_messages onto (drop from (take to w.messages)) }
{
    let mut next = onto;
    for i in from..to {
        if 96 <= i {
            return next;
        }
        let sent = w.messages[i];
        next = with_message(next, sent.message);
    }
    next
}

// The messages without the k-th.
pub fn without(w: Wire, k: usize) -> Wire
    ensures { result ≡ without w k }
{
    let count = w.count;
    if k < count {
        let before = copied(w, empty(), 0, k);
        copied(w, before, k + 1, count)
    } else {
        copied(w, empty(), 0, count)
    }
}
