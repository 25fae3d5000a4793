// The C interface: include/pewterslug.h. Each function but the version is the one of the crate below it under the name that the header declares.
#![tactic(auto)]

ghost use Rattle.std.specs.Prelude.{◌≡◌, []};
ghost use Rattle.packing.specs.Answer.{Answered};
ghost use Rattle.analysis_interface.specs.Analysis.{FoundBytes};
ghost use Rattle.analysis_interface.specs.Counts.{CountedBytes};
ghost use Rattle.plan_interface.specs.Records.{check_answer, read_answer, write_bytes};
ghost use Rattle.plan_interface.specs.Pages.{print_bytes};
ghost use Rattle.plan_interface.specs.Messages.{read_message_answer, write_message_bytes};
ghost use Rattle.piece_interface.specs.Calls.{check_start_bytes, check_piece_bytes, check_answer_bytes};
ghost use Rattle.frame_interface.specs.Frames.{write_frame_bytes, read_frame_bytes};
ghost use Rattle.device_interface.specs.Calls as Device;
ghost use Rattle.module_interface.specs.Calls as Module;
ghost use Rattle.supervisor_interface.specs.Calls as Supervisor;
ghost use Rattle.pewterslug.specs.Version.{version};

// PEWTERSLUG_VERSION of the header.
const VERSION: u32 = 1;

// So that a program can tell that its archive is of the layout of its header.
#[unsafe(no_mangle)]
pub extern "C" fn pewterslug_version() -> u32
    ensures { result ≡ version }
{
    VERSION
}

// ---- plans

#[unsafe(no_mangle)]
pub extern "C" fn pewterslug_check(image: &[u8]) -> u64
    ensures { result ≡ check_answer image.now }
{
    plan_interface::check(image)
}

#[unsafe(no_mangle)]
pub extern "C" fn pewterslug_check_start(state: &mut [u8]) -> u64
    ensures { Answered (check_start_bytes state.old) result [] state.new }
{
    piece_interface::check_start(state)
}

#[unsafe(no_mangle)]
pub extern "C" fn pewterslug_check_piece(state: &mut [u8], piece: &[u8]) -> u64
    ensures { Answered (check_piece_bytes state.old piece.now) result state.new [] }
{
    piece_interface::check_piece(state, piece)
}

#[unsafe(no_mangle)]
pub extern "C" fn pewterslug_check_answer(state: &[u8]) -> u64
    ensures { result ≡ check_answer_bytes state.now }
{
    piece_interface::check_answer(state)
}

#[unsafe(no_mangle)]
pub extern "C" fn pewterslug_read_record(image: &[u8], offset: usize) -> u64
    ensures { result ≡ read_answer image.now offset }
{
    plan_interface::read_record(image, offset)
}

#[unsafe(no_mangle)]
pub extern "C" fn pewterslug_write_record(
    kind: u8,
    first: u8,
    second: u8,
    third: u8,
    fourth: u8,
    word: u64,
    buffer: &mut [u8],
) -> u64
    ensures { Answered (write_bytes kind first second third fourth word buffer.old) result [] buffer.new }
{
    plan_interface::write_record(kind, first, second, third, fourth, word, buffer)
}

#[unsafe(no_mangle)]
pub extern "C" fn pewterslug_print_plan(image: &[u8], buffer: &mut [u8]) -> u64
    ensures { Answered (print_bytes image.now buffer.old) result [] buffer.new }
{
    plan_interface::print_plan(image, buffer)
}

#[unsafe(no_mangle)]
pub extern "C" fn pewterslug_find_stuck(image: &[u8], buffer: &mut [u8]) -> u64
    ensures { FoundBytes image.now buffer.old result buffer.new }
{
    analysis_interface::find_stuck(image, buffer)
}

#[unsafe(no_mangle)]
pub extern "C" fn pewterslug_count_words(image: &[u8], length: u64, buffer: &mut [u8]) -> u64
    ensures { CountedBytes image.now length buffer.old result buffer.new }
{
    analysis_interface::count_words(image, length, buffer)
}

// ---- one device

#[unsafe(no_mangle)]
pub extern "C" fn pewterslug_device_start(image: &[u8], buffer: &mut [u8]) -> u64
    ensures { Answered (Device.start_bytes image.now buffer.old) result [] buffer.new }
{
    device_interface::start(image, buffer)
}

#[unsafe(no_mangle)]
pub extern "C" fn pewterslug_device_turn(image: &[u8], state: &mut [u8], m: u8) -> u64
    ensures { Answered (Device.turn_bytes image.now state.old m) result state.new [] }
{
    device_interface::turn(image, state, m)
}

#[unsafe(no_mangle)]
pub extern "C" fn pewterslug_device_respond(image: &[u8], state: &mut [u8], m: u8, event: u8) -> u64
    ensures { Answered (Device.respond_bytes image.now state.old m event) result state.new [] }
{
    device_interface::respond(image, state, m, event)
}

#[unsafe(no_mangle)]
pub extern "C" fn pewterslug_device_tick(
    image: &[u8],
    state: &mut [u8],
    m: u8,
    sensor: u8,
    litres: f64,
) -> u64
    ensures { Answered (Device.tick_bytes image.now state.old m sensor litres) result state.new [] }
{
    device_interface::tick(image, state, m, sensor, litres)
}

// ---- many devices: a module

#[unsafe(no_mangle)]
pub extern "C" fn pewterslug_module_start(image: &[u8], m: u8, buffer: &mut [u8]) -> u64
    ensures { Answered (Module.start_bytes image.now m buffer.old) result [] buffer.new }
{
    module_interface::start(image, m, buffer)
}

#[unsafe(no_mangle)]
pub extern "C" fn pewterslug_module_step(
    image: &[u8],
    state: &mut [u8],
    m: u8,
    buffer: &mut [u8],
) -> u64
    ensures { Answered (Module.step_bytes image.now state.old m buffer.old) result state.new buffer.new }
{
    module_interface::step(image, state, m, buffer)
}

#[unsafe(no_mangle)]
pub extern "C" fn pewterslug_module_deliver(
    image: &[u8],
    state: &mut [u8],
    m: u8,
    message: &[u8],
) -> u64
    ensures { Answered (Module.deliver_bytes image.now state.old m message.now) result state.new [] }
{
    module_interface::deliver(image, state, m, message)
}

#[unsafe(no_mangle)]
pub extern "C" fn pewterslug_module_respond(image: &[u8], state: &mut [u8], m: u8, event: u8) -> u64
    ensures { Answered (Module.respond_bytes image.now state.old m event) result state.new [] }
{
    module_interface::respond(image, state, m, event)
}

#[unsafe(no_mangle)]
pub extern "C" fn pewterslug_module_tick(
    image: &[u8],
    state: &mut [u8],
    m: u8,
    sensor: u8,
    litres: f64,
) -> u64
    ensures { Answered (Module.tick_bytes image.now state.old m sensor litres) result state.new [] }
{
    module_interface::tick(image, state, m, sensor, litres)
}

// ---- many devices: a supervisor

#[unsafe(no_mangle)]
pub extern "C" fn pewterslug_supervisor_start(image: &[u8], v: u8, buffer: &mut [u8]) -> u64
    ensures { Answered (Supervisor.start_bytes image.now v buffer.old) result [] buffer.new }
{
    supervisor_interface::start(image, v, buffer)
}

#[unsafe(no_mangle)]
pub extern "C" fn pewterslug_supervisor_step(
    image: &[u8],
    state: &mut [u8],
    v: u8,
    buffer: &mut [u8],
) -> u64
    ensures { Answered (Supervisor.step_bytes image.now state.old v buffer.old) result state.new buffer.new }
{
    supervisor_interface::step(image, state, v, buffer)
}

#[unsafe(no_mangle)]
pub extern "C" fn pewterslug_supervisor_deliver(
    image: &[u8],
    state: &mut [u8],
    v: u8,
    message: &[u8],
) -> u64
    ensures { Answered (Supervisor.deliver_bytes image.now state.old v message.now) result state.new [] }
{
    supervisor_interface::deliver(image, state, v, message)
}

// ---- messages

#[unsafe(no_mangle)]
pub extern "C" fn pewterslug_read_message(message: &[u8]) -> u64
    ensures { result ≡ read_message_answer message.now }
{
    plan_interface::read_message(message)
}

#[unsafe(no_mangle)]
pub extern "C" fn pewterslug_write_message(
    kind: u8,
    first: u8,
    second: u8,
    event: u8,
    mask: u64,
    buffer: &mut [u8],
) -> u64
    ensures { Answered (write_message_bytes kind first second event mask buffer.old) result [] buffer.new }
{
    plan_interface::write_message(kind, first, second, event, mask, buffer)
}

// ---- frames

#[unsafe(no_mangle)]
pub extern "C" fn pewterslug_write_frame(address: u8, message: &[u8], buffer: &mut [u8]) -> u64
    ensures { Answered (write_frame_bytes address message.now buffer.old) result [] buffer.new }
{
    frame_interface::write_frame(address, message, buffer)
}

#[unsafe(no_mangle)]
pub extern "C" fn pewterslug_read_frame(frame: &[u8], buffer: &mut [u8]) -> u64
    ensures { Answered (read_frame_bytes frame.now buffer.old) result [] buffer.new }
{
    frame_interface::read_frame(frame, buffer)
}
