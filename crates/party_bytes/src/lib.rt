// The states of a module and of a supervisor on their own devices as bytes: specs/Module.antt and specs/Supervisor.antt.
#![tactic(auto)]

ghost use Rattle.std.specs.Prelude.{◌≡◌, length};
ghost use Rattle.messages.specs.Message.{put_at};
ghost use Rattle.party_bytes.specs.Module.{module_size, module_bytes, module_at, is_module, unfit_module, module_of};
ghost use Rattle.party_bytes.specs.Supervisor.{is_out, holder_byte, holder_of, supervisor_bytes, supervisor_at, is_supervisor, unfit_supervisor, supervisor_of};

use modules::Own;
use permits::{Holder, Module, Supervisor};

// The bytes of each: `module_size` and `supervisor_size` of the specs.
pub const MODULE_SIZE: usize = own_bytes::OWN_SIZE + 13;

pub const SUPERVISOR_SIZE: usize = 6;

// What stands behind a module's own part.
const HELD: usize = own_bytes::OWN_SIZE;

const RECEIVED: usize = own_bytes::OWN_SIZE + 4;

const BID: usize = own_bytes::OWN_SIZE + 12;

// ---- a module

fn is_module(s: &[u8]) -> bool
    ensures { result ≡ is_module s.now }
{
    if s.len() != MODULE_SIZE {
        return false;
    }
    own_bytes::is_own(s) & (words::byte_at(s, BID) < 2)
}

fn module_at(s: &[u8]) -> Module
    requires { length s.now ≡ module_size }
    ensures { result ≡ module_at s.now }
{
    let own = own_bytes::own_of(s);
    let held = words::quad_at(s, HELD);
    let received = words::word_at(s, RECEIVED);
    let flag = words::byte_at(s, BID);
    Module {
        own,
        held,
        received,
        bid: flag == 1,
    }
}

fn unfit_module() -> Module
    ensures { result ≡ unfit_module }
{
    let own = own_bytes::unfit();
    let mut x = permits::empty_module();
    x.own = own;
    x
}

// The module that the bytes are; one that fits no plan, if they stand for none.
pub fn read_module(s: &[u8]) -> Module
    ensures { result ≡ module_of s.now }
{
    if is_module(s) {
        module_at(s)
    } else {
        unfit_module()
    }
}

// Puts the bytes of a module at the start, if there is room for all; else the slice stays.
pub fn put_module(s: &mut [u8], x: Module)
    ensures { s.new ≡ put_at (module_bytes x) 0 s.old }
{
    if MODULE_SIZE <= s.len() {
        let own = x.own;
        own_bytes::put_own(&mut *s, 0, own);
        words::put_quad(&mut *s, HELD, x.held);
        words::put_word(&mut *s, RECEIVED, x.received);
        s[BID] = fields::flag_of(x.bid);
    }
}

// ---- a supervisor

fn is_supervisor(s: &[u8]) -> bool
    ensures { result ≡ is_supervisor s.now }
{
    let flag = words::byte_at(s, 3);
    let holder = words::byte_at(s, 4);
    (s.len() == SUPERVISOR_SIZE) & (flag < 2) & ((flag == 1) | (holder == 0))
}

fn holder_of(out: bool, m: u8) -> Holder
    ensures { result ≡ holder_of out m }
{
    if out { Holder::Out(m) } else { Holder::Home }
}

fn supervisor_at(s: &[u8]) -> Supervisor
    ensures { result ≡ supervisor_at s.now }
{
    let state = words::byte_at(s, 0);
    let noted = fields::half_at(s, 1);
    let holder = holder_of(words::byte_at(s, 3) == 1, words::byte_at(s, 4));
    let last = words::byte_at(s, 5);
    Supervisor {
        state,
        noted,
        holder,
        last,
    }
}

fn unfit_supervisor() -> Supervisor
    ensures { result ≡ unfit_supervisor }
{
    let mut y = permits::empty_supervisor();
    y.last = 255;
    y
}

// The supervisor that the bytes are; one that fits no plan, if they stand for none.
pub fn read_supervisor(s: &[u8]) -> Supervisor
    ensures { result ≡ supervisor_of s.now }
{
    if is_supervisor(s) {
        supervisor_at(s)
    } else {
        unfit_supervisor()
    }
}

fn is_out(h: Holder) -> bool
    ensures { result ≡ is_out h }
{
    match h {
        Holder::Home => false,
        Holder::Out(_) => true,
    }
}

fn holder_byte(h: Holder) -> u8
    ensures { result ≡ holder_byte h }
{
    match h {
        Holder::Home => 0,
        Holder::Out(m) => m,
    }
}

// Puts the bytes of a supervisor at the start, if there is room for all; else the slice stays.
pub fn put_supervisor(s: &mut [u8], y: Supervisor)
    ensures { s.new ≡ put_at (supervisor_bytes y) 0 s.old }
{
    let holder = y.holder;
    let flag = fields::flag_of(is_out(holder));
    let out = holder_byte(holder);
    let high = (y.noted / 0x100 % 256) as u8;
    let low = (y.noted % 256) as u8;
    words::put_bytes(s, 0, &[y.state, high, low, flag, out, y.last]);
}
