// What the check of a plan remembers as bytes of a check's state: specs/Encoding.antt. The length is tested once, and parts of constant length are
// copied, which the compiler does in blocks.
#![tactic(auto)]

ghost use Rattle.std.specs.Prelude.{◌≡◌, ◌+◌, ◌≤◌, length};
ghost use Rattle.std.proofs.lemmas.List.Edits.{sets};
ghost use Rattle.words.specs.Word.{put_at};
ghost use Rattle.fields.specs.Fields.{bytes_from};
ghost use Rattle.context_bytes.specs.Encoding.{key_at, counts_at, events_at, modules_at, alphabets, supervisors_at, context_at};
ghost use Rattle.context_bytes.specs.Encoding.{events_bytes, modules_bytes, words_bytes, supervisors_bytes, context_bytes};

use context::{Context, Counts, Events, Modules, Supervisors};
use records::RecordKey;

// How many bytes a state has, what is remembered being the last part of it.
const SIZE: usize = 495;

// ---- read

// The alphabets of 32 supervisors, 8 bytes each, from the start of a slice; bytes past the end count as 0.
pub fn alphabets_of(s: &[u8]) -> [u64; 32]
    ensures { result ≡ alphabets s.now }
{
    std::array::from_fn(|i| words::word_at(s, i * 8))
}

// So many bytes from an offset on; those past the end are 0. Where all are there, the copy has a constant length.
pub fn bytes_at<const N: usize>(s: &[u8], o: usize) -> [u8; N]
    ensures { result ≡ bytes_from s.now o N }
{
    let Some(rest) = s.get(o..) else {
        return [0; N];
    };
    if let Some(bytes) = rest.first_chunk::<N>() {
        return *bytes;
    }
    let mut bytes = [0; N];
    bytes[..rest.len()].copy_from_slice(rest);
    bytes
}

// The last record's kind and key; bytes past the end count as 0.
pub fn last_at(s: &[u8]) -> RecordKey
    ensures { result ≡ key_at s.now 24 }
{
    RecordKey {
        kind: words::byte_at(s, 24),
        first: words::byte_at(s, 25),
        second: words::byte_at(s, 26),
        third: words::byte_at(s, 27),
    }
}

// The head's counts likewise.
pub fn counts_at(s: &[u8]) -> Counts
    ensures { result ≡ counts_at s.now 28 }
{
    Counts {
        modules: words::byte_at(s, 28),
        supervisors: words::byte_at(s, 29),
        events: words::byte_at(s, 30),
    }
}

fn events_in(s: &[u8]) -> Events
    requires { 495 ≤ length s.now }
    ensures { result ≡ events_at s.now }
{
    let known = words::word_at(s, 31);
    let controllable = words::word_at(s, 39);
    let owner = bytes_at(s, 47);
    let steps = bytes_at(s, 111);
    Events {
        known,
        controllable,
        owner,
        steps,
    }
}

fn modules_in(s: &[u8]) -> Modules
    requires { 495 ≤ length s.now }
    ensures { result ≡ modules_at s.now }
{
    let known = words::word_at(s, 175);
    let states = bytes_at(s, 183);
    Modules { known, states }
}

fn supervisors_in(s: &[u8]) -> Supervisors
    requires { 495 ≤ length s.now }
    ensures { result ≡ supervisors_at s.now }
{
    let known = words::word_at(s, 199);
    let states = bytes_at(s, 207);
    let alphabet = alphabets_of(&s[239..495]);
    Supervisors {
        known,
        states,
        alphabet,
    }
}

fn context_in(s: &[u8]) -> Context
    requires { 495 ≤ length s.now }
    ensures { result ≡ context_at s.now }
{
    let flag = s[23];
    let last = last_at(s);
    let counts = counts_at(s);
    let events = events_in(s);
    let modules = modules_in(s);
    let supervisors = supervisors_in(s);
    Context {
        begun: flag == 1,
        last,
        counts,
        events,
        modules,
        supervisors,
    }
}

// Bytes past the end count as 0.
fn context_short(s: &[u8]) -> Context
    requires { length s.now ≤ 495 }
    ensures { result ≡ context_at s.now }
{
    let mut all = [0u8; SIZE];
    words::put_bytes(&mut all, 0, s);
    context_in(&all)
}

// What is remembered, by its places.
pub fn context_at(s: &[u8]) -> Context
    ensures { result ≡ context_at s.now }
{
    if SIZE <= s.len() {
        context_in(s)
    } else {
        context_short(s)
    }
}

// ---- written

fn put_words(s: &mut [u8], o: usize, a: [u64; 32])
    requires { o + 256 ≤ length s.old }
    ensures { (s.new ≡ sets s.old o (words_bytes a)) × (length (words_bytes a) ≡ 256) }
{
    for (i, x) in a.iter().enumerate() {
        words::put_word(&mut *s, o + i * 8, *x);
    }
}

fn put_events(s: &mut [u8], ev: Events)
    requires { 495 ≤ length s.old }
    ensures { (s.new ≡ sets s.old 31 (events_bytes ev)) × (length (events_bytes ev) ≡ 144) }
{
    let owner = ev.owner;
    let steps = ev.steps;
    words::put_word(&mut *s, 31, ev.known);
    words::put_word(&mut *s, 39, ev.controllable);
    words::put_bytes(&mut *s, 47, &owner);
    words::put_bytes(&mut *s, 111, &steps);
}

fn put_modules(s: &mut [u8], ms: Modules)
    requires { 495 ≤ length s.old }
    ensures { (s.new ≡ sets s.old 175 (modules_bytes ms)) × (length (modules_bytes ms) ≡ 24) }
{
    let states = ms.states;
    words::put_word(&mut *s, 175, ms.known);
    words::put_bytes(&mut *s, 183, &states);
}

fn put_supervisors(s: &mut [u8], vs: Supervisors)
    requires { 495 ≤ length s.old }
    ensures { (s.new ≡ sets s.old 199 (supervisors_bytes vs)) × (length (supervisors_bytes vs) ≡ 296) }
{
    let states = vs.states;
    let alphabet = vs.alphabet;
    words::put_word(&mut *s, 199, vs.known);
    words::put_bytes(&mut *s, 207, &states);
    put_words(&mut *s, 239, alphabet);
}

fn put_whole(s: &mut [u8], c: Context)
    requires { 495 ≤ length s.old }
    ensures { (s.new ≡ sets s.old 23 (context_bytes c)) × (length (context_bytes c) ≡ 472) }
{
    let p = c.last;
    let n = c.counts;
    let events = c.events;
    let modules = c.modules;
    let supervisors = c.supervisors;
    let flag = fields::flag_of(c.begun);
    let head = [
        flag,
        p.kind,
        p.first,
        p.second,
        p.third,
        n.modules,
        n.supervisors,
        n.events,
    ];
    words::put_bytes(&mut *s, 23, &head);
    put_events(&mut *s, events);
    put_modules(&mut *s, modules);
    put_supervisors(&mut *s, supervisors);
}

// Puts what is remembered at its place, if there is room for all; else the slice stays.
pub fn put_context(s: &mut [u8], c: Context)
    ensures { s.new ≡ put_at (context_bytes c) 23 s.old }
{
    if SIZE <= s.len() {
        put_whole(&mut *s, c);
    }
}
