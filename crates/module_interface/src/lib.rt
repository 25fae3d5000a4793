// The calls of a module on its own device over lent bytes: specs/Calls.antt.
#![tactic(auto)]

ghost use Rattle.std.specs.Prelude.{[]};
ghost use Rattle.party_bytes.specs.Module.{module_size, module_bytes};
ghost use Rattle.packing.specs.Answer.{Answered, start_answer};
ghost use Rattle.module_interface.specs.Calls.{called_on, stepped_on, start_bytes, step_bytes, deliver_bytes, respond_bytes, tick_bytes};

use permits::{ModuleCalled, ModuleStepped};

// The answer, and the state if the call is accepted.
fn keep(state: &mut [u8], c: ModuleCalled) -> u64
    ensures { Answered (called_on c state.old) result state.new [] }
{
    let answer = c.answer;
    let x = c.state;
    if packing::is_accepted(answer) {
        party_bytes::put_module(&mut *state, x);
        return packing::called(answer);
    }
    packing::called(answer)
}

fn keep_step(state: &mut [u8], c: ModuleStepped) -> u64
    ensures { Answered (stepped_on c.answer c.state state.old []) result state.new [] }
{
    let answer = c.answer;
    let x = c.state;
    if packing::is_accepted(answer) {
        party_bytes::put_module(&mut *state, x);
        return packing::stepped(answer);
    }
    packing::stepped(answer)
}

// The state at a start.
fn give(buffer: &mut [u8], c: ModuleCalled) -> u64
    ensures { Answered (start_answer module_size c.answer (module_bytes c.state) buffer.old) result [] buffer.new }
{
    let answer = c.answer;
    let x = c.state;
    match answer {
        Ok(()) => {
            if buffer.len() < party_bytes::MODULE_SIZE {
                return packing::pack(15, 0, 0, 0);
            }
            party_bytes::put_module(&mut *buffer, x);
            packing::pack(0, 0, 0, party_bytes::MODULE_SIZE)
        }
        Err(e) => packing::pack(e.number, 0, 0, e.offset),
    }
}

pub fn start(image: &[u8], m: u8, buffer: &mut [u8]) -> u64
    ensures { Answered (start_bytes image.now m buffer.old) result [] buffer.new }
{
    let c = module_calls::start(image, m);
    give(buffer, c)
}

pub fn step(image: &[u8], state: &mut [u8], m: u8, buffer: &mut [u8]) -> u64
    ensures { Answered (step_bytes image.now state.old m buffer.old) result state.new buffer.new }
{
    let x = party_bytes::read_module(&state[..]);
    let c = module_steps::step(image, m, x, &mut *buffer);
    keep_step(&mut *state, c)
}

pub fn deliver(image: &[u8], state: &mut [u8], m: u8, message: &[u8]) -> u64
    ensures { Answered (deliver_bytes image.now state.old m message.now) result state.new [] }
{
    let x = party_bytes::read_module(&state[..]);
    let c = module_deliveries::deliver(image, m, x, message);
    keep(&mut *state, c)
}

pub fn respond(image: &[u8], state: &mut [u8], m: u8, e: u8) -> u64
    ensures { Answered (respond_bytes image.now state.old m e) result state.new [] }
{
    let x = party_bytes::read_module(&state[..]);
    let c = module_calls::respond(image, m, x, e);
    keep(&mut *state, c)
}

// A tick with its flow reading: none if sensor is 0.
pub fn tick(image: &[u8], state: &mut [u8], m: u8, sensor: u8, litres: f64) -> u64
    ensures { Answered (tick_bytes image.now state.old m sensor litres) result state.new [] }
{
    let x = party_bytes::read_module(&state[..]);
    let f = packing::flow(sensor, litres);
    let c = module_calls::tick(image, m, x, f);
    keep(&mut *state, c)
}
