// The states and answers of the distributed controller: specs/Module.antt and specs/Supervisor.antt. What a message names:
// specs/Names.antt.
#![tactic(auto)]

ghost use Rattle.std.specs.Prelude.{◌≡◌};
ghost use Rattle.places.specs.Places.{records_by};
ghost use Rattle.plan.specs.Plan.{neighbour};
ghost use Rattle.permits.specs.Names.{neighbours?, event_named, named};
ghost use Rattle.permits.specs.Module.{with_permits, with_bid, empty_module};
ghost use Rattle.permits.specs.Supervisor.{with_holder, empty_supervisor};

use messages::Message;
use modules::Own;
use places::Places;
use refusal::Refusal;

// A module on its own device: its own part, the supervisors whose permits it holds, the union of the masks received with them, and whether
// a bid is outstanding, which is always with its lowest neighbour not held.
#[derive(Clone, Copy)]
pub struct Module {
    pub own: Own,
    pub held: u32,
    pub received: u64,
    pub bid: bool,
}

// Where a supervisor's permit is, in document 01's terms: home, or out, here with the module that it was sent to.
#[derive(Clone, Copy)]
pub enum Holder {
    Home,
    Out(u8),
}

// A supervisor on its own device: its state, the modules whose bids are noted, its permit's holder and the module last served. Noted and last
// served are document 01's terms.
#[derive(Clone, Copy)]
pub struct Supervisor {
    pub state: u8,
    pub noted: u16,
    pub holder: Holder,
    pub last: u8,
}

// What a module step did, with the bytes written: a turn, the event that fired or nothing, and its releases; a bid; or nothing.
#[derive(Clone, Copy)]
pub enum Stepped {
    Turns(Option<u8>, usize),
    Bids(u8, usize),
    Waits,
}

// What a supervisor step did: sent its permit to a module, with the bytes written, or nothing.
#[derive(Clone, Copy)]
pub enum Served {
    Sends(u8, usize),
    Waits,
}

// The answers, or the number and the offset, with the states after them. The buffer lent to a step is the caller's.
#[derive(Clone, Copy)]
pub struct ModuleStepped {
    pub answer: Result<Stepped, Refusal>,
    pub state: Module,
}

#[derive(Clone, Copy)]
pub struct ModuleCalled {
    pub answer: Result<(), Refusal>,
    pub state: Module,
}

#[derive(Clone, Copy)]
pub struct SupervisorStepped {
    pub answer: Result<Served, Refusal>,
    pub state: Supervisor,
}

#[derive(Clone, Copy)]
pub struct SupervisorCalled {
    pub answer: Result<(), Refusal>,
    pub state: Supervisor,
}

// The states with every number 0, which a refused start gives.
pub fn empty_module() -> Module
    ensures { result ≡ empty_module }
{
    let own = modules::empty();
    Module {
        own,
        held: 0,
        received: 0,
        bid: false,
    }
}

pub fn empty_supervisor() -> Supervisor
    ensures { result ≡ empty_supervisor }
{
    let holder = Holder::Home;
    Supervisor {
        state: 0,
        noted: 0,
        holder,
        last: 0,
    }
}

// The module with other permits held and masks received, and a bid outstanding or none. All fields are written at once: stored one by one into a copy,
// they would cost a delivery some nanoseconds more.
pub fn with_permits(x: Module, held: u32, received: u64, bid: bool) -> Module
    ensures { result ≡ with_bid (with_permits x held received) bid }
{
    let own = x.own;
    Module {
        own,
        held,
        received,
        bid,
    }
}

// The supervisor with another holder of its permit.
pub fn with_holder(y: Supervisor, holder: Holder) -> Supervisor
    ensures { result ≡ with_holder y holder }
{
    Supervisor {
        state: y.state,
        noted: y.noted,
        holder,
        last: y.last,
    }
}

// Whether a supervisor's alphabet has an event of a module.
fn is_neighbour(image: &[u8], places: Places, m: u8, v: u8) -> bool
    ensures { result ≡ neighbour (records_by image.now places) m v }
{
    let own = masks::own_events(image, places, m);
    let alphabet = plan::alphabet_of(image, places, v);
    alphabet & own != 0
}

// Whether a module and a supervisor are the plan's, and neighbours.
pub fn are_neighbours(image: &[u8], places: Places, m: u8, v: u8) -> bool
    ensures { result ≡ neighbours? (records_by image.now places) m v }
{
    (m < plan::modules_of(image, places))
        & (v < plan::supervisors_of(image, places))
        & is_neighbour(image, places, m, v)
}

// Whether an event is the module's and in the supervisor's alphabet.
pub fn event_named(image: &[u8], places: Places, m: u8, v: u8, e: u8) -> bool
    ensures { result ≡ event_named (records_by image.now places) m v e }
{
    plan::own_event(image, places, m, e) & plan::in_alphabet(image, places, v, e)
}

// Whether what a message names is in the plan.
pub fn named(image: &[u8], places: Places, g: Message) -> bool
    ensures { result ≡ named (records_by image.now places) g }
{
    match g {
        Message::Bid { owner, supervisor } => are_neighbours(image, places, owner, supervisor),
        Message::Permit {
            supervisor,
            owner,
            mask: _,
        } => are_neighbours(image, places, owner, supervisor),
        Message::Release {
            owner,
            supervisor,
            event,
        } => {
            are_neighbours(image, places, owner, supervisor)
                & ((event == 255) | event_named(image, places, owner, supervisor, event))
        }
    }
}
