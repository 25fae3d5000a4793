// The check of a plan image, in one pass over its records: those of each kind in a loop of their own, and the judge where these stop. `pass` goes by the
// same loops from any offset, with what the bytes of a check's state remember.
#![tactic(auto)]

ghost use Rattle.std.specs.Prelude.{◌≡◌, ◌+◌, ◌%◌, ◌<◌, ◌≤◌, length, replicate, ◌==◌, slice_index, Ok};
ghost use Rattle.rules.specs.Check.{verdict_of, end_at};
ghost use Rattle.places.specs.Places.{nowhere};
ghost use Rattle.checker.specs.Examined.{examined_by, examined_of, ExaminedAs};
ghost use Rattle.checker.specs.InPlace.{past_in, past_bytes};
ghost use Rattle.checker.specs.Stretch.{AfterRecord, OnwardIn};
ghost use Rattle.words.specs.Word.{put_at, word_at};
ghost use Rattle.reader.specs.Read.{read_at};
ghost use Rattle.context_bytes.specs.Encoding.{key_bytes};
ghost use Rattle.checker.specs.Stretch.{Reached, Passed, noted_past, context_by, events_by, modules_by, supervisors_by, headed};
ghost use Rattle.checker.specs.Stretch.{at_events, at_modules, at_module_moves, at_supervisors, at_disablings, at_steps};
ghost use Rattle.checker.specs.Stretch.{Below};
ghost use Rattle.context_bytes.specs.Encoding.{alphabets};
ghost use Rattle.record_tests.specs.Tests.{fields_at};

use context::{Context, Counts, Events, Modules, Supervisors};
use places::Places;
use record_tests::Fields;
use records::{Record, RecordKey};
use refusal::Refusal;

// The longest image, in bytes.
pub const LIMIT: usize = 49152;

// Where a stretch of records ends: the last record's kind and key, and the next offset.
#[derive(Clone, Copy)]
struct Place {
    last: RecordKey,
    next: usize,
}

// The same after modules or supervisors, and the numbers declared.
#[derive(Clone, Copy)]
struct PlaceOfNumbers {
    known: u64,
    last: RecordKey,
    next: usize,
}

// The same after events, and those of them that are controllable.
#[derive(Clone, Copy)]
struct PlaceOfEvents {
    known: u64,
    controllable: u64,
    last: RecordKey,
    next: usize,
}

// The first fields of the record at an offset.
fn fields_at(image: &[u8], at: usize) -> Fields
    requires { at + 4 ≤ length image.now }
    ensures { result ≡ fields_at image.now at }
{
    Fields {
        first: image[at + 1],
        second: image[at + 2],
        third: image[at + 3],
        fourth: words::byte_at(image, at + 4),
    }
}

// The bits of a mask that are below n.
fn below(m: u64, n: u8) -> u64
    ensures { Below m n result }
{
    if n < 64 {
        let b = 1u64 << n;
        m & (b - 1)
    } else {
        m
    }
}

// The eight bytes at an index as a number. All of them are there, and no test stands between them, so that the compiler can read them as one word.
fn word_in(s: &[u8], o: usize) -> u64
    requires { o + 8 ≤ length s.now }
    ensures { result ≡ word_at s.now o }
{
    words::word_of([
        s[o],
        s[o + 1],
        s[o + 2],
        s[o + 3],
        s[o + 4],
        s[o + 5],
        s[o + 6],
        s[o + 7],
    ])
}

// Whether the event that a respond step names is of the same module.
fn same_module(owner: &[u8], event: u8, operand: u64) -> bool
    requires { (length owner.now ≡ 64) × (event < 64) }
    ensures { result ≡ (slice_index owner.now (operand % 64) == slice_index owner.now event) }
{
    let k = words::wide(event);
    let j = (operand % 64) as usize;
    owner[j] == owner[k]
}

// Passes the events from an offset on, up to a faulty one or a record of another kind, and notes the module of each.
// No `for` over chunks_exact, here and in the seven loops below: where the records stop is the result, which would be counted beside the chunks.
fn events(
    image: &[u8],
    from: usize,
    before: RecordKey,
    n: Counts,
    known: u64,
    controllable: u64,
    owner: &mut [u8],
) -> PlaceOfEvents
    requires { length owner.old ≡ 64 }
    ensures { Passed image.now 0x11 (at_events before n known controllable owner.old) from (at_events result.last n result.known result.controllable owner.new) result.next }
{
    let mut declared = known;
    let mut commands = controllable;
    let mut last = before;
    let mut i = from;
    let size = records::size_by(0x11);
    while record_tests::stands(image, i, 0x11, size) {
        let f = fields_at(image, i);
        let e = f.first;
        let key = RecordKey {
            kind: 0x11,
            first: e,
            second: 0,
            third: 0,
        };
        let kept = (f.third <= 1) & ((e < n.events) & (f.second < n.modules));
        if !(records::precedes(last, key) & (e < 64) & kept) {
            break;
        }
        let k = words::wide(e);
        declared = bits::put(declared, e, true);
        commands = bits::put(commands, e, f.third == 1);
        owner[k] = f.second;
        last = key;
        i += size;
    }
    PlaceOfEvents {
        known: declared,
        controllable: commands,
        last,
        next: i,
    }
}

// Passes the modules from an offset on, in the same way, and notes how many states each has.
fn modules(
    image: &[u8],
    from: usize,
    before: RecordKey,
    n: Counts,
    known: u64,
    states: &mut [u8],
) -> PlaceOfNumbers
    requires { length states.old ≡ 16 }
    ensures { Passed image.now 0x12 (at_modules before n known states.old) from (at_modules result.last n result.known states.new) result.next }
{
    let mut declared = known;
    let mut last = before;
    let mut i = from;
    let size = records::size_by(0x12);
    while record_tests::stands(image, i, 0x12, size) {
        let f = fields_at(image, i);
        let m = f.first;
        let key = RecordKey {
            kind: 0x12,
            first: m,
            second: 0,
            third: 0,
        };
        let kept = ((1 <= f.second) & (f.second <= 32)) & ((m < n.modules) & (f.third < f.second));
        if !(records::precedes(last, key) & (m < 16) & kept) {
            break;
        }
        let k = words::wide(m);
        declared = bits::put(declared, m, true);
        states[k] = f.second;
        last = key;
        i += size;
    }
    PlaceOfNumbers {
        known: declared,
        last,
        next: i,
    }
}

// Passes the module moves from an offset on, in the same way.
fn module_moves(
    image: &[u8],
    from: usize,
    before: RecordKey,
    n: Counts,
    events: u64,
    owner: &[u8],
    known: u64,
    states: &[u8],
) -> Place
    requires { (length owner.now ≡ 64) × (length states.now ≡ 16) }
    ensures { Passed image.now 0x13 (at_module_moves before n events owner.now known states.now) from (at_module_moves result.last n events owner.now known states.now) result.next }
{
    let mut last = before;
    let mut i = from;
    let size = records::size_by(0x13);
    while record_tests::stands(image, i, 0x13, size) {
        let f = fields_at(image, i);
        let m = f.first;
        let e = f.third;
        if 16 <= m || 64 <= e {
            break;
        }
        let k = words::wide(m);
        let count = states[k];
        let j = words::wide(e);
        let of = owner[j];
        let key = RecordKey {
            kind: 0x13,
            first: m,
            second: f.second,
            third: e,
        };
        let numbers = below(known, n.modules);
        let names = below(events, n.events);
        let named = record_tests::move_named(f, numbers, count, names);
        if !(records::precedes(last, key) & named & (of == m)) {
            break;
        }
        last = key;
        i += size;
    }
    Place { last, next: i }
}

// Passes the supervisors from an offset on, in the same way, and notes the states and the alphabet of each.
fn supervisors(
    image: &[u8],
    from: usize,
    before: RecordKey,
    n: Counts,
    events: u64,
    known: u64,
    states: &mut [u8],
    alphabet: &mut [u8],
) -> PlaceOfNumbers
    requires { (length states.old ≡ 32) × (length alphabet.old ≡ 256) }
    ensures { Passed image.now 0x14 (at_supervisors before n events known states.old (alphabets alphabet.old)) from (at_supervisors result.last n events result.known states.new (alphabets alphabet.new)) result.next }
{
    let mut declared = known;
    let mut last = before;
    let mut i = from;
    let size = records::size_by(0x14);
    while record_tests::stands(image, i, 0x14, size) {
        let f = fields_at(image, i);
        let x = word_in(image, i + 4);
        let v = f.first;
        let key = RecordKey {
            kind: 0x14,
            first: v,
            second: 0,
            third: 0,
        };
        let kept = record_tests::supervisor_kept(f, x, n, events);
        if !(records::precedes(last, key) & (v < 32) & kept) {
            break;
        }
        let k = words::wide(v);
        declared = bits::put(declared, v, true);
        states[k] = f.second;
        words::put_word(&mut *alphabet, k * 8, x);
        last = key;
        i += size;
    }
    PlaceOfNumbers {
        known: declared,
        last,
        next: i,
    }
}

// Passes the supervisor moves from an offset on, in the same way.
fn supervisor_moves(
    image: &[u8],
    from: usize,
    before: RecordKey,
    n: Counts,
    events: u64,
    known: u64,
    states: &[u8],
    alphabet: &[u8],
) -> Place
    requires { (length states.now ≡ 32) × (length alphabet.now ≡ 256) }
    ensures { Passed image.now 0x15 (at_supervisors before n events known states.now (alphabets alphabet.now)) from (at_supervisors result.last n events known states.now (alphabets alphabet.now)) result.next }
{
    let mut last = before;
    let mut i = from;
    let size = records::size_by(0x15);
    while record_tests::stands(image, i, 0x15, size) {
        let f = fields_at(image, i);
        let v = f.first;
        if 32 <= v {
            break;
        }
        let k = words::wide(v);
        let count = states[k];
        let own = word_in(alphabet, k * 8);
        let key = RecordKey {
            kind: 0x15,
            first: v,
            second: f.second,
            third: f.third,
        };
        let numbers = below(known, n.supervisors);
        let names = below(events, n.events);
        let named = record_tests::move_named(f, numbers, count, names & own);
        if !(records::precedes(last, key) & named) {
            break;
        }
        last = key;
        i += size;
    }
    Place { last, next: i }
}

// Passes the disablings from an offset on, in the same way.
fn disablings(
    image: &[u8],
    from: usize,
    before: RecordKey,
    n: Counts,
    events: u64,
    controllable: u64,
    known: u64,
    states: &[u8],
    alphabet: &[u8],
) -> Place
    requires { (length states.now ≡ 32) × (length alphabet.now ≡ 256) }
    ensures { Passed image.now 0x16 (at_disablings before n events controllable known states.now (alphabets alphabet.now)) from (at_disablings result.last n events controllable known states.now (alphabets alphabet.now)) result.next }
{
    let mut last = before;
    let mut i = from;
    let size = records::size_by(0x16);
    while record_tests::stands(image, i, 0x16, size) {
        let f = fields_at(image, i);
        let mask = word_in(image, i + 3);
        let v = f.first;
        if 32 <= v {
            break;
        }
        let k = words::wide(v);
        let count = states[k];
        let own = word_in(alphabet, k * 8);
        let key = RecordKey {
            kind: 0x16,
            first: v,
            second: f.second,
            third: 0,
        };
        let named = record_tests::disabling_named(f, mask, n.supervisors, known, count, events);
        let kept = bits::within(mask, controllable & own);
        if !(records::precedes(last, key) & (mask != 0) & named & kept) {
            break;
        }
        last = key;
        i += size;
    }
    Place { last, next: i }
}

// Passes the steps from an offset on, in the same way, and counts those of each event.
fn steps(
    image: &[u8],
    from: usize,
    before: RecordKey,
    n: Counts,
    known: u64,
    controllable: u64,
    owner: &[u8],
    counts: &mut [u8],
) -> Place
    requires { (length owner.now ≡ 64) × (length counts.old ≡ 64) }
    ensures { Passed image.now 0x17 (at_steps before n known controllable owner.now counts.old) from (at_steps result.last n known controllable owner.now counts.new) result.next }
{
    let mut last = before;
    let mut i = from;
    let size = records::size_by(0x17);
    while record_tests::stands(image, i, 0x17, size) {
        let f = fields_at(image, i);
        let x = word_in(image, i + 4);
        let e = f.first;
        if 64 <= e {
            break;
        }
        let k = words::wide(e);
        let count = counts[k];
        let same = same_module(owner, e, x);
        let key = RecordKey {
            kind: 0x17,
            first: e,
            second: f.second,
            third: 0,
        };
        let kept = record_tests::step_kept(f, x, n.events, known, controllable, same);
        if !(records::precedes(last, key) & (f.second == count) & kept) {
            break;
        }
        counts[k] = std::num::wrapping_add_u8(f.second, 1);
        last = key;
        i += size;
    }
    Place { last, next: i }
}

// Passes the markings from an offset on, in the same way.
fn markings(
    image: &[u8],
    from: usize,
    before: RecordKey,
    n: Counts,
    known: u64,
    states: &[u8],
) -> Place
    requires { length states.now ≡ 16 }
    ensures { Passed image.now 0x18 (at_modules before n known states.now) from (at_modules result.last n known states.now) result.next }
{
    let mut last = before;
    let mut i = from;
    let size = records::size_by(0x18);
    while record_tests::stands(image, i, 0x18, size) {
        let m = image[i + 1];
        let st = image[i + 2];
        if 16 <= m {
            break;
        }
        let k = words::wide(m);
        let count = states[k];
        let key = RecordKey {
            kind: 0x18,
            first: m,
            second: st,
            third: 0,
        };
        let named = (m < n.modules) & bits::has(known, m) & (st < count);
        if !(records::precedes(last, key) & named) {
            break;
        }
        last = key;
        i += size;
    }
    Place { last, next: i }
}

// A faultless end record at an offset: nothing may follow it.
fn end_at(image: &[u8], at: usize, p: Places) -> Result<Places, Refusal>
    requires { at < length image.now }
    ensures { result ≡ examined_by p (end_at (length image.now) at) }
{
    let after = at + records::size_by(0x1f);
    if after == image.len() {
        Ok(p)
    } else {
        Err(Refusal {
            number: 4,
            offset: after,
        })
    }
}

// Judges the records one by one, from an offset on.
fn judged(image: &[u8], from: usize, before: Context, found: Places) -> Result<Places, Refusal>
    requires { Reached image.now before from found }
    ensures { result ≡ examined_of image.now }
{
    let mut c = before;
    let mut p = found;
    let mut i = from;
    // No `while let`: what is no record is answered with its number.
    loop {
        match reader::read_at(image, i) {
            Err(why) => {
                let number = reader::number_of(why);
                return Err(Refusal { number, offset: i });
            }
            Ok((r, next)) => {
                let n = judge::judge(c, r);
                if n != 0 {
                    return Err(Refusal {
                        number: n,
                        offset: i,
                    });
                }
                let k = records::kind_of(r);
                let last = c.last;
                p = places::noted(p, last.kind, k, i);
                if k == 0x1f {
                    return end_at(image, i, p);
                }
                c = context::with_record(c, r);
                i = next;
            }
        }
    }
}

// The places after a stretch of records of a kind.
fn noted_past(p: Places, last: u8, kind: u8, from: usize, next: usize) -> Places
    ensures { result ≡ noted_past p last kind from next }
{
    if next == from {
        p
    } else {
        places::noted(p, last, kind, from)
    }
}

// After the module moves: the records from the supervisors on. `sizes` has the states of each module.
fn after_modules(
    image: &[u8],
    from: usize,
    before: RecordKey,
    n: Counts,
    found: Places,
    known: u64,
    controllable: u64,
    owner: &[u8; 64],
    modules: u64,
    sizes: &[u8; 16],
) -> Result<Places, Refusal>
    requires { Reached image.now (context_by before n (events_by known controllable owner.now (replicate 64 0)) (modules_by modules sizes.now) (supervisors_by 0 (replicate 32 0) (replicate 32 0))) from found }
    ensures { result ≡ examined_of image.now }
{
    let mut states = [0u8; 32];
    let mut alphabet = [0u8; 256];
    let mut counts = [0u8; 64];
    let v = supervisors(image, from, before, n, known, 0, &mut states, &mut alphabet);
    let vq = v.last;
    let vp = noted_past(found, before.kind, 0x14, from, v.next);
    let m = supervisor_moves(image, v.next, vq, n, known, v.known, &states, &alphabet);
    let mq = m.last;
    let mp = noted_past(vp, vq.kind, 0x15, v.next, m.next);
    let d = disablings(
        image,
        m.next,
        mq,
        n,
        known,
        controllable,
        v.known,
        &states,
        &alphabet,
    );
    let dq = d.last;
    let dp = noted_past(mp, mq.kind, 0x16, m.next, d.next);
    let s = steps(
        image,
        d.next,
        dq,
        n,
        known,
        controllable,
        owner,
        &mut counts,
    );
    let sq = s.last;
    let sp = noted_past(dp, dq.kind, 0x17, d.next, s.next);
    let t = markings(image, s.next, sq, n, modules, sizes);
    let tq = t.last;
    let tp = noted_past(sp, sq.kind, 0x18, s.next, t.next);
    if record_tests::end_kept(image, t.next, tq, n, modules, v.known, known) {
        let p = places::noted(tp, tq.kind, 0x1f, t.next);
        return end_at(image, t.next, p);
    }
    let own = context_bytes::alphabets_of(&alphabet);
    let c = Context {
        begun: true,
        last: tq,
        counts: n,
        events: Events {
            known,
            controllable,
            owner: *owner,
            steps: counts,
        },
        modules: Modules {
            known: modules,
            states: *sizes,
        },
        supervisors: Supervisors {
            known: v.known,
            states,
            alphabet: own,
        },
    };
    judged(image, t.next, c, tp)
}

// After the head: the records from the events on.
fn after_head(image: &[u8], from: usize, n: Counts) -> Result<Places, Refusal>
    requires { Reached image.now (headed n) from nowhere }
    ensures { result ≡ examined_of image.now }
{
    let head = RecordKey {
        kind: 0x10,
        first: 0,
        second: 0,
        third: 0,
    };
    let mut owner = [0u8; 64];
    let mut states = [0u8; 16];
    let e = events(image, from, head, n, 0, 0, &mut owner);
    let eq = e.last;
    let ep = noted_past(places::nowhere(), 0x10, 0x11, from, e.next);
    let m = modules(image, e.next, eq, n, 0, &mut states);
    let mq = m.last;
    let mp = noted_past(ep, eq.kind, 0x12, e.next, m.next);
    let v = module_moves(image, m.next, mq, n, e.known, &owner, m.known, &states);
    let vq = v.last;
    let vp = noted_past(mp, mq.kind, 0x13, m.next, v.next);
    after_modules(
        image,
        v.next,
        vq,
        n,
        vp,
        e.known,
        e.controllable,
        &owner,
        m.known,
        &states,
    )
}

// Accepted, with the places of the records, or the number and the offset.
pub fn examine(image: &[u8]) -> Result<Places, Refusal>
    ensures { ExaminedAs image.now result }
{
    if LIMIT < image.len() {
        return Err(Refusal {
            number: 1,
            offset: 0,
        });
    }
    let size = records::size_by(0x10);
    if record_tests::stands(image, 0, 0x10, size) {
        let f = fields_at(image, 0);
        let r = Record::Head {
            modules: f.first,
            supervisors: f.second,
            events: f.third,
        };
        if records::in_range(r) {
            let n = Counts {
                modules: f.first,
                supervisors: f.second,
                events: f.third,
            };
            return after_head(image, size, n);
        }
    }
    judged(image, 0, context::started(), places::nowhere())
}

// Accepted, or the number and the offset.
pub fn check(image: &[u8]) -> Result<(), Refusal>
    ensures { result ≡ verdict_of image.now }
{
    examine(image)?;
    Ok(())
}

// ---- how far the check goes without an answer, from any offset, in the bytes of a state

// The last record's kind and key.
fn put_last(state: &mut [u8], q: RecordKey)
    ensures { state.new ≡ put_at (key_bytes q) 24 state.old }
{
    words::put_bytes(state, 24, &[q.kind, q.first, q.second, q.third]);
}

// The loops over a stretch, each if a record of its kind stands at the offset: what it needs is read where it is in the state, and what it changes put
// there.
fn past_events(image: &[u8], from: usize, state: &mut [u8]) -> usize
    requires { AfterRecord state.old }
    ensures { OnwardIn image.now state.old from state.new result }
{
    if words::byte_at(image, from) != 0x11 {
        return from;
    }
    let before = context_bytes::last_at(&state[..]);
    let n = context_bytes::counts_at(&state[..]);
    let known = words::word_at(&state[..], 31);
    let controllable = words::word_at(&state[..], 39);
    let e = events(
        image,
        from,
        before,
        n,
        known,
        controllable,
        &mut state[47..111],
    );
    let last = e.last;
    let declared = e.known;
    let commands = e.controllable;
    put_last(&mut *state, last);
    words::put_word(&mut *state, 31, declared);
    words::put_word(&mut *state, 39, commands);
    e.next
}

fn past_modules(image: &[u8], from: usize, state: &mut [u8]) -> usize
    requires { AfterRecord state.old }
    ensures { OnwardIn image.now state.old from state.new result }
{
    if words::byte_at(image, from) != 0x12 {
        return from;
    }
    let before = context_bytes::last_at(&state[..]);
    let n = context_bytes::counts_at(&state[..]);
    let known = words::word_at(&state[..], 175);
    let m = modules(image, from, before, n, known, &mut state[183..199]);
    let last = m.last;
    let declared = m.known;
    put_last(&mut *state, last);
    words::put_word(&mut *state, 175, declared);
    m.next
}

fn past_module_moves(image: &[u8], from: usize, state: &mut [u8]) -> usize
    requires { AfterRecord state.old }
    ensures { OnwardIn image.now state.old from state.new result }
{
    if words::byte_at(image, from) != 0x13 {
        return from;
    }
    let before = context_bytes::last_at(&state[..]);
    let n = context_bytes::counts_at(&state[..]);
    let events = words::word_at(&state[..], 31);
    let known = words::word_at(&state[..], 175);
    let v = module_moves(
        image,
        from,
        before,
        n,
        events,
        &state[47..111],
        known,
        &state[183..199],
    );
    let last = v.last;
    put_last(&mut *state, last);
    v.next
}

// Two tables change. They stand side by side, but the loop need not know it: they are copied, since a plan has 32 such records at most.
fn past_supervisors(image: &[u8], from: usize, state: &mut [u8]) -> usize
    requires { AfterRecord state.old }
    ensures { OnwardIn image.now state.old from state.new result }
{
    if words::byte_at(image, from) != 0x14 {
        return from;
    }
    let before = context_bytes::last_at(&state[..]);
    let n = context_bytes::counts_at(&state[..]);
    let events = words::word_at(&state[..], 31);
    let known = words::word_at(&state[..], 199);
    let mut states: [u8; 32] = context_bytes::bytes_at(&state[..], 207);
    let mut alphabet: [u8; 256] = context_bytes::bytes_at(&state[..], 239);
    let v = supervisors(
        image,
        from,
        before,
        n,
        events,
        known,
        &mut states,
        &mut alphabet,
    );
    let last = v.last;
    let declared = v.known;
    words::put_bytes(&mut *state, 207, &states);
    words::put_bytes(&mut *state, 239, &alphabet);
    put_last(&mut *state, last);
    words::put_word(&mut *state, 199, declared);
    v.next
}

fn past_supervisor_moves(image: &[u8], from: usize, state: &mut [u8]) -> usize
    requires { AfterRecord state.old }
    ensures { OnwardIn image.now state.old from state.new result }
{
    if words::byte_at(image, from) != 0x15 {
        return from;
    }
    let before = context_bytes::last_at(&state[..]);
    let n = context_bytes::counts_at(&state[..]);
    let events = words::word_at(&state[..], 31);
    let known = words::word_at(&state[..], 199);
    let m = supervisor_moves(
        image,
        from,
        before,
        n,
        events,
        known,
        &state[207..239],
        &state[239..495],
    );
    let last = m.last;
    put_last(&mut *state, last);
    m.next
}

fn past_disablings(image: &[u8], from: usize, state: &mut [u8]) -> usize
    requires { AfterRecord state.old }
    ensures { OnwardIn image.now state.old from state.new result }
{
    if words::byte_at(image, from) != 0x16 {
        return from;
    }
    let before = context_bytes::last_at(&state[..]);
    let n = context_bytes::counts_at(&state[..]);
    let events = words::word_at(&state[..], 31);
    let all = words::word_at(&state[..], 39);
    let known = words::word_at(&state[..], 199);
    let d = disablings(
        image,
        from,
        before,
        n,
        events,
        all,
        known,
        &state[207..239],
        &state[239..495],
    );
    let last = d.last;
    put_last(&mut *state, last);
    d.next
}

// The modules of the events are copied, 64 bytes, since the steps beside them are lent to be changed.
fn past_steps(image: &[u8], from: usize, state: &mut [u8]) -> usize
    requires { AfterRecord state.old }
    ensures { OnwardIn image.now state.old from state.new result }
{
    if words::byte_at(image, from) != 0x17 {
        return from;
    }
    let before = context_bytes::last_at(&state[..]);
    let n = context_bytes::counts_at(&state[..]);
    let known = words::word_at(&state[..], 31);
    let all = words::word_at(&state[..], 39);
    let owner: [u8; 64] = context_bytes::bytes_at(&state[..], 47);
    let s = steps(
        image,
        from,
        before,
        n,
        known,
        all,
        &owner,
        &mut state[111..175],
    );
    let last = s.last;
    put_last(&mut *state, last);
    s.next
}

fn past_markings(image: &[u8], from: usize, state: &mut [u8]) -> usize
    requires { AfterRecord state.old }
    ensures { OnwardIn image.now state.old from state.new result }
{
    if words::byte_at(image, from) != 0x18 {
        return from;
    }
    let before = context_bytes::last_at(&state[..]);
    let n = context_bytes::counts_at(&state[..]);
    let known = words::word_at(&state[..], 175);
    let t = markings(image, from, before, n, known, &state[183..199]);
    let last = t.last;
    put_last(&mut *state, last);
    t.next
}

// From the events to the module moves.
fn past_early(image: &[u8], from: usize, state: &mut [u8]) -> usize
    requires { AfterRecord state.old }
    ensures { OnwardIn image.now state.old from state.new result }
{
    let e = past_events(image, from, &mut *state);
    let m = past_modules(image, e, &mut *state);
    past_module_moves(image, m, &mut *state)
}

// From the supervisors to the markings.
fn past_late(image: &[u8], from: usize, state: &mut [u8]) -> usize
    requires { AfterRecord state.old }
    ensures { OnwardIn image.now state.old from state.new result }
{
    let v = past_supervisors(image, from, &mut *state);
    let m = past_supervisor_moves(image, v, &mut *state);
    let d = past_disablings(image, m, &mut *state);
    let s = past_steps(image, d, &mut *state);
    past_markings(image, s, &mut *state)
}

// One by one, by value.
fn past_by_value(image: &[u8], from: usize, state: &mut [u8]) -> usize
    ensures { (state.new ≡ past_bytes image.now from state.old) × (result ≡ (past_in image.now from state.old).next) }
{
    let c = context_bytes::context_at(&state[..]);
    let p = judge::pass(image, from, c);
    let d = p.context;
    context_bytes::put_context(state, d);
    p.next
}

// After a record: by stretches, and then one by one where they stop at a whole record.
fn past_after(image: &[u8], from: usize, state: &mut [u8]) -> usize
    requires { AfterRecord state.old }
    ensures { (state.new ≡ past_bytes image.now from state.old) × (result ≡ (past_in image.now from state.old).next) }
{
    let m = past_early(image, from, &mut *state);
    let i = past_late(image, m, &mut *state);
    match reader::read_at(image, i) {
        Err(_) => i,
        Ok(_) => past_by_value(image, i, state),
    }
}

// Before any record: past the whole one at an offset by value, and on.
fn past_record(image: &[u8], from: usize, r: Record, next: usize, state: &mut [u8]) -> usize
    requires { (length state.old ≡ 495) × (Ok (r, next) ≡ read_at image.now from) }
    ensures { (state.new ≡ past_bytes image.now from state.old) × (result ≡ (past_in image.now from state.old).next) }
{
    let c = context_bytes::context_at(&state[..]);
    if judge::judge(c, r) != 0 {
        return past_by_value(image, from, state);
    }
    if records::kind_of(r) == 0x1f {
        return past_by_value(image, from, state);
    }
    let d = context::with_record(c, r);
    context_bytes::put_context(&mut *state, d);
    past_after(image, next, state)
}

fn past_first(image: &[u8], from: usize, state: &mut [u8]) -> usize
    requires { length state.old ≡ 495 }
    ensures { (state.new ≡ past_bytes image.now from state.old) × (result ≡ (past_in image.now from state.old).next) }
{
    match reader::read_at(image, from) {
        Err(_) => past_by_value(image, from, state),
        Ok((r, next)) => past_record(image, from, r, next, state),
    }
}

// Past all whole records from an offset on that are faultless and no end record; what is remembered stands in the bytes of a check's state.
pub fn pass(image: &[u8], from: usize, state: &mut [u8]) -> usize
    ensures { (state.new ≡ past_bytes image.now from state.old) × (result ≡ (past_in image.now from state.old).next) }
{
    if state.len() != 495 {
        return past_by_value(image, from, state);
    }
    if state[23] == 1 {
        return past_after(image, from, state);
    }
    past_first(image, from, state)
}
