// The calls of a supervisor on its own device over lent bytes: specs/Calls.antt.
#![tactic(auto)]

ghost use Rattle.std.specs.Prelude.{[]};
ghost use Rattle.party_bytes.specs.Supervisor.{supervisor_size, supervisor_bytes};
ghost use Rattle.packing.specs.Answer.{Answered, start_answer};
ghost use Rattle.supervisor_interface.specs.Calls.{called_on, stepped_on, start_bytes, step_bytes, deliver_bytes};

use permits::{SupervisorCalled, SupervisorStepped};

// The answer, and the state if the call is accepted.
fn keep(state: &mut [u8], c: SupervisorCalled) -> u64
    ensures { Answered (called_on c state.old) result state.new [] }
{
    let answer = c.answer;
    let y = c.state;
    if packing::is_accepted(answer) {
        party_bytes::put_supervisor(&mut *state, y);
        return packing::called(answer);
    }
    packing::called(answer)
}

fn keep_step(state: &mut [u8], c: SupervisorStepped) -> u64
    ensures { Answered (stepped_on c.answer c.state state.old []) result state.new [] }
{
    let answer = c.answer;
    let y = c.state;
    if packing::is_accepted(answer) {
        party_bytes::put_supervisor(&mut *state, y);
        return packing::served(answer);
    }
    packing::served(answer)
}

// The state at a start.
fn give(buffer: &mut [u8], c: SupervisorCalled) -> u64
    ensures { Answered (start_answer supervisor_size c.answer (supervisor_bytes c.state) buffer.old) result [] buffer.new }
{
    let answer = c.answer;
    let y = c.state;
    match answer {
        Ok(()) => {
            if buffer.len() < party_bytes::SUPERVISOR_SIZE {
                return packing::pack(15, 0, 0, 0);
            }
            party_bytes::put_supervisor(&mut *buffer, y);
            packing::pack(0, 0, 0, party_bytes::SUPERVISOR_SIZE)
        }
        Err(e) => packing::pack(e.number, 0, 0, e.offset),
    }
}

pub fn start(image: &[u8], v: u8, buffer: &mut [u8]) -> u64
    ensures { Answered (start_bytes image.now v buffer.old) result [] buffer.new }
{
    let c = supervisor_calls::start(image, v);
    give(buffer, c)
}

pub fn step(image: &[u8], state: &mut [u8], v: u8, buffer: &mut [u8]) -> u64
    ensures { Answered (step_bytes image.now state.old v buffer.old) result state.new buffer.new }
{
    let y = party_bytes::read_supervisor(&state[..]);
    let c = supervisor_steps::step(image, v, y, &mut *buffer);
    keep_step(&mut *state, c)
}

pub fn deliver(image: &[u8], state: &mut [u8], v: u8, message: &[u8]) -> u64
    ensures { Answered (deliver_bytes image.now state.old v message.now) result state.new [] }
{
    let y = party_bytes::read_supervisor(&state[..]);
    let c = supervisor_calls::deliver(image, v, y, message);
    keep(&mut *state, c)
}
