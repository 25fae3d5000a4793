// What the simulation prints of what a line of its script got, and the rows of events: specs/AnswerLines.antt.
#![tactic(auto)]

ghost use Rattle.std.specs.Prelude.{◌≡◌};
ghost use Rattle.places.specs.Places.{records_by};
ghost use Rattle.messages.specs.Message.{message_bytes};
ghost use Rattle.texts.specs.Text.{text_of};
ghost use Rattle.script.specs.SimulationLines.{sent_line, delivered_line};
ghost use Rattle.answers.specs.AnswerLines.{delivery_line, PrintedAs, fired, command, no_row, row_full, with_number};

use messages::Message;
use permits::Stepped;
use places::Places;
use refusal::Refusal;
use simulation::Answer;
use texts::Text;

// The numbers of a row that is still to be printed.
#[derive(Clone, Copy)]
pub struct Row {
    pub numbers: [u8; 1024],
    pub count: usize,
}

// ---- lines

// `sent BYTES`; a permit is the longest message.
pub fn sent_line(g: Message) -> Text
    ensures { result ≡ text_of (sent_line (message_bytes g)) }
{
    let mut bytes = [0u8; messages::PERMIT_SIZE];
    messages::write(g, &mut bytes, 0);
    let n = messages::length_of(g);
    script::sent_line(&bytes[..n])
}

fn delivered_line(g: Message) -> Text
    ensures { result ≡ text_of (delivered_line (message_bytes g)) }
{
    let mut bytes = [0u8; messages::PERMIT_SIZE];
    messages::write(g, &mut bytes, 0);
    let n = messages::length_of(g);
    script::delivered_line(&bytes[..n])
}

fn delivery_line(g: Message, a: Result<(), Refusal>) -> Text
    ensures { result ≡ text_of (delivery_line g a) }
{
    match a {
        Ok(()) => delivered_line(g),
        Err(e) => script::refused_line(e.number),
    }
}

// The line for what a line of the script got.
pub fn answer_line(a: Answer) -> Text
    ensures { PrintedAs a result }
{
    match a {
        Answer::Module(m, s) => script::stepped_line(m, s),
        Answer::Supervisor(v, s) => script::served_line(v, s),
        Answer::Delivery(g, c) => delivery_line(g, c),
        Answer::NoMessage => script::nothing_line(),
        Answer::Response(m, e, c) => script::response_line(m, e, c),
        Answer::Tick(m, c) => script::tick_line(m, c),
        Answer::Misshapen => script::refused_line(10),
    }
}

// The event that fired, if one did.
pub fn fired(a: Answer) -> Option<u8>
    ensures { result ≡ fired a }
{
    let Answer::Module(_, s) = a else {
        return None;
    };
    match s {
        Ok(Stepped::Turns(event, _)) => event,
        Ok(Stepped::Bids(_, _)) => None,
        Ok(Stepped::Waits) => None,
        Err(_) => None,
    }
}

// The command, if the event that fired is one.
pub fn command(image: &[u8], places: Places, a: Answer) -> Option<u8>
    ensures { result ≡ command (records_by image.now places) a }
{
    let e = fired(a)?;
    if plan::controllable(image, places, e) {
        Some(e)
    } else {
        None
    }
}

// ---- rows of events

pub fn no_row() -> Row
    ensures { result ≡ no_row }
{
    Row {
        numbers: [0; 1024],
        count: 0,
    }
}

pub fn is_full(r: Row) -> bool
    ensures { result ≡ row_full r }
{
    1024 <= r.count
}

// The row with a number more; a full one stays.
pub fn with_number(r: Row, n: u8) -> Row
    ensures { result ≡ with_number r n }
{
    let at = r.count;
    if at < 1024 {
        let mut next = r;
        next.numbers[at] = n;
        next.count = at + 1;
        next
    } else {
        r
    }
}
