// Every party of a plan with its state, the messages under way, and one device beside them: specs/Parties.antt.
#![tactic(auto)]

ghost use Rattle.std.specs.Prelude.{◌≡◌};
ghost use Rattle.permits.specs.Module.{module_start};
ghost use Rattle.permits.specs.Supervisor.{supervisor_start};
ghost use Rattle.parties.specs.Parties.{module_at, supervisor_at, with_module, with_supervisor, with_device, with_wire, start_modules, start_supervisors, start, states_seen};

use device_states::Device;
use modules::Own;
use permits::{Module, Supervisor};
use std::array;
use wire::Wire;

// Every party's state, the messages under way, and the one device.
#[derive(Clone, Copy)]
pub struct Parties {
    pub modules: [Module; 16],
    pub supervisors: [Supervisor; 32],
    pub wire: Wire,
    pub device: Device,
}

// ---- the parties

// The state of a module; of a number past the last the empty state.
pub fn module_of(p: Parties, m: u8) -> Module
    ensures { result ≡ module_at p m }
{
    if m < 16 {
        p.modules[words::wide(m)]
    } else {
        permits::empty_module()
    }
}

pub fn supervisor_of(p: Parties, v: u8) -> Supervisor
    ensures { result ≡ supervisor_at p v }
{
    if v < 32 {
        p.supervisors[words::wide(v)]
    } else {
        permits::empty_supervisor()
    }
}

pub fn with_module(p: Parties, m: u8, x: Module) -> Parties
    ensures { result ≡ with_module p m x }
{
    if m < 16 {
        let mut next = p;
        next.modules[words::wide(m)] = x;
        next
    } else {
        p
    }
}

pub fn with_supervisor(p: Parties, v: u8, y: Supervisor) -> Parties
    ensures { result ≡ with_supervisor p v y }
{
    if v < 32 {
        let mut next = p;
        next.supervisors[words::wide(v)] = y;
        next
    } else {
        p
    }
}

pub fn with_device(p: Parties, d: Device) -> Parties
    ensures { result ≡ with_device p d }
{
    Parties { device: d, ..p }
}

pub fn with_wire(p: Parties, w: Wire) -> Parties
    ensures { result ≡ with_wire p w }
{
    Parties { wire: w, ..p }
}

// ---- the start

fn start_modules(image: &[u8]) -> [Module; 16]
    ensures { result ≡ start_modules image.now }
{
    array::from_fn(|m| module_calls::start(image, m as u8).state)
}

fn start_supervisors(image: &[u8]) -> [Supervisor; 32]
    ensures { result ≡ start_supervisors image.now }
{
    array::from_fn(|v| supervisor_calls::start(image, v as u8).state)
}

// Every party at its start, nothing under way.
pub fn start(image: &[u8]) -> Parties
    ensures { result ≡ start image.now }
{
    Parties {
        modules: start_modules(image),
        supervisors: start_supervisors(image),
        wire: wire::empty(),
        device: device::start(image).device,
    }
}

// ---- the states of all parties

fn owns_of(p: Parties) -> [Own; 16]
    ensures { result ≡ (states_seen p).modules }
{
    array::from_fn(|m| module_of(p, m as u8).own)
}

fn states_of(p: Parties) -> [u8; 32]
    ensures { result ≡ (states_seen p).supervisors }
{
    array::from_fn(|v| supervisor_of(p, v as u8).state)
}

// The states of all parties, as those of one device.
pub fn seen(p: Parties) -> Device
    ensures { result ≡ states_seen p }
{
    Device {
        modules: owns_of(p),
        supervisors: states_of(p),
    }
}
