// The supervisor's step on many devices: definitions in permits/specs/Supervisor.antt.
#![tactic(auto)]

ghost use Rattle.std.specs.Prelude.{◌≡◌, ◌<◌, Err, Some};
ghost use Rattle.places.specs.Places.{records_by};
ghost use Rattle.permits.specs.Supervisor.{served, after_send, step_in, supervisor_step};
ghost use Rattle.permits.specs.Step.{Gave};
ghost use Rattle.refusal.specs.Refusal.{refusal};

use messages::Message;
use permits::{Holder, Served, Supervisor, SupervisorStepped};
use places::Places;
use refusal::Refusal;

fn step_refused(y: Supervisor, n: u8, at: usize) -> SupervisorStepped
    ensures { result ≡ record { answer = Err (refusal n at); state = y } }
{
    SupervisorStepped {
        answer: Err(Refusal {
            number: n,
            offset: at,
        }),
        state: y,
    }
}

fn after_send(y: Supervisor, m: u8) -> Supervisor
    requires { m < 16 }
    ensures { result ≡ after_send y m }
{
    let mut next = y;
    next.noted = noting::put_note(y.noted, m, false);
    next.last = m;
    permits::with_holder(next, Holder::Out(m))
}

// The permit, with the mask that the supervisor shows now.
fn send(
    image: &[u8],
    places: Places,
    v: u8,
    y: Supervisor,
    m: u8,
    buffer: &mut [u8],
) -> SupervisorStepped
    requires { m < 16 }
    ensures { Gave (step_in (records_by image.now places) v y buffer.old (Some m)) result.answer result.state buffer.new }
{
    let mask = plan::shown(image, places, v, y.state);
    let g = Message::Permit {
        supervisor: v,
        owner: m,
        mask,
    };
    if messages::write(g, &mut *buffer, 0) {
        let state = after_send(y, m);
        SupervisorStepped {
            answer: Ok(Served::Sends(m, messages::length_of(g))),
            state,
        }
    } else {
        step_refused(y, 15, 0)
    }
}

fn serve(image: &[u8], places: Places, v: u8, y: Supervisor, buffer: &mut [u8]) -> SupervisorStepped
    ensures { Gave (step_in (records_by image.now places) v y buffer.old (served y)) result.answer result.state buffer.new }
{
    let Some(m) = noting::served(y) else {
        return SupervisorStepped {
            answer: Ok(Served::Waits),
            state: y,
        };
    };
    send(image, places, v, y, m, buffer)
}

// A supervisor step: sends its permit, or waits.
pub fn step(image: &[u8], v: u8, y: Supervisor, buffer: &mut [u8]) -> SupervisorStepped
    ensures { Gave (supervisor_step image.now v y buffer.old) result.answer result.state buffer.new }
{
    match checker::examine(image) {
        Ok(places) => {
            if v < plan::supervisors_of(image, places) {
                if noting::fits(image, places, v, y) {
                    serve(image, places, v, y, buffer)
                } else {
                    step_refused(y, 9, 0)
                }
            } else {
                step_refused(y, 11, 0)
            }
        }
        Err(e) => step_refused(y, e.number, e.offset),
    }
}
