// The supervisor's calls on many devices but for its step: definitions in permits/specs/Supervisor.antt.
#![tactic(auto)]

ghost use Rattle.std.specs.Prelude.{◌≡◌, true, cond, ◌≤◌, ◌<◌, Ok};
ghost use Rattle.places.specs.Places.{records_by};
ghost use Rattle.rules.specs.LookUp.{modules_of};
ghost use Rattle.permits.specs.Names.{named};
ghost use Rattle.permits.specs.Supervisor.{supervisor_fits, after_note, after_release, call_refused, applied, held_by, taken_by, deliver_in, absent, supervisor_deliver, supervisor_start};

use messages::Message;
use permits::{Holder, Supervisor, SupervisorCalled};
use places::Places;
use refusal::Refusal;

fn refused(y: Supervisor, n: u8, at: usize) -> SupervisorCalled
    ensures { result ≡ call_refused y n at }
{
    SupervisorCalled {
        answer: Err(Refusal {
            number: n,
            offset: at,
        }),
        state: y,
    }
}

// ---- the start

// The supervisor's starting state.
pub fn start(image: &[u8], v: u8) -> SupervisorCalled
    ensures { result ≡ supervisor_start image.now v }
{
    match checker::examine(image) {
        Ok(places) => {
            if v < plan::supervisors_of(image, places) {
                let mut state = permits::empty_supervisor();
                state.state = plan::supervisor_initial(image, places, v);
                state.last = 15;
                SupervisorCalled {
                    answer: Ok(()),
                    state,
                }
            } else {
                refused(permits::empty_supervisor(), 11, 0)
            }
        }
        Err(e) => refused(permits::empty_supervisor(), e.number, e.offset),
    }
}

// ---- a message delivered

// The state after a message that is due; 12 for one out of turn.
fn done_if(due: bool, after: Supervisor, y: Supervisor) -> SupervisorCalled
    ensures { result ≡ cond due (record { answer = Ok tt; state = after }) (call_refused y 12 0) }
{
    if due {
        SupervisorCalled {
            answer: Ok(()),
            state: after,
        }
    } else {
        refused(y, 12, 0)
    }
}

fn after_note(y: Supervisor, m: u8) -> Supervisor
    requires { m < 16 }
    ensures { result ≡ after_note y m }
{
    let mut next = y;
    next.noted = noting::put_note(y.noted, m, true);
    next
}

// The state after a release's event. One that is named is in the alphabet, so that it is not asked for again.
fn apply(image: &[u8], places: Places, v: u8, st: u8, e: u8) -> u8
    ensures { result ≡ applied (records_by image.now places) v st e }
{
    if e == 255 {
        st
    } else {
        plan::supervisor_moved(image, places, v, st, e)
    }
}

fn after_release(image: &[u8], places: Places, v: u8, y: Supervisor, e: u8) -> Supervisor
    ensures { result ≡ after_release (records_by image.now places) v y e }
{
    let mut next = y;
    next.state = apply(image, places, v, y.state, e);
    permits::with_holder(next, Holder::Home)
}

fn held_by(holder: Holder, m: u8) -> bool
    ensures { result ≡ held_by holder m }
{
    match holder {
        Holder::Home => false,
        Holder::Out(n) => n == m,
    }
}

// A message whose names are the plan's.
fn take(image: &[u8], places: Places, v: u8, y: Supervisor, g: Message) -> SupervisorCalled
    requires { (modules_of (records_by image.now places) ≤ 16) × (named (records_by image.now places) g ≡ true) }
    ensures { result ≡ taken_by (records_by image.now places) v y g }
{
    let holder = y.holder;
    let mask = y.noted as u64;
    match g {
        Message::Bid { owner, supervisor } => {
            let after = after_note(y, owner);
            done_if((supervisor == v) & !bits::has(mask, owner), after, y)
        }
        Message::Permit { .. } => refused(y, 12, 0),
        Message::Release {
            owner,
            supervisor,
            event,
        } => {
            let after = after_release(image, places, supervisor, y, event);
            done_if((supervisor == v) & held_by(holder, owner), after, y)
        }
    }
}

// Whether the plan has what a message names. Holder and supervisor are neighbours where the state fits, so that of the holder's release only the
// event is asked for.
fn is_named(image: &[u8], places: Places, v: u8, y: Supervisor, g: Message) -> bool
    requires { supervisor_fits (records_by image.now places) v y ≡ true }
    ensures { result ≡ named (records_by image.now places) g }
{
    let Message::Release {
        owner,
        supervisor,
        event,
    } = g
    else {
        return permits::named(image, places, g);
    };
    let holder = y.holder;
    if (supervisor == v) & held_by(holder, owner) {
        return (event == 255) | permits::event_named(image, places, owner, supervisor, event);
    }
    permits::named(image, places, g)
}

fn deliver_in(
    image: &[u8],
    places: Places,
    v: u8,
    y: Supervisor,
    p: Option<Message>,
) -> SupervisorCalled
    requires { (modules_of (records_by image.now places) ≤ 16) × (supervisor_fits (records_by image.now places) v y ≡ true) }
    ensures { result ≡ deliver_in (records_by image.now places) v y p }
{
    let Some(g) = p else {
        return refused(y, 10, 0);
    };
    if is_named(image, places, v, y, g) {
        take(image, places, v, y, g)
    } else {
        refused(y, 11, 0)
    }
}

// A supervisor that the plan lacks.
fn absent(y: Supervisor, p: Option<Message>) -> SupervisorCalled
    ensures { result ≡ absent y p }
{
    match p {
        Some(_) => refused(y, 11, 0),
        None => refused(y, 10, 0),
    }
}

// Takes a message: a bid or a release.
pub fn deliver(image: &[u8], v: u8, y: Supervisor, bytes: &[u8]) -> SupervisorCalled
    ensures { result ≡ supervisor_deliver image.now v y bytes.now }
{
    let p = messages::read(bytes);
    match checker::examine(image) {
        Ok(places) => {
            if v < plan::supervisors_of(image, places) {
                if noting::fits(image, places, v, y) {
                    deliver_in(image, places, v, y, p)
                } else {
                    refused(y, 9, 0)
                }
            } else {
                absent(y, p)
            }
        }
        Err(e) => refused(y, e.number, e.offset),
    }
}
