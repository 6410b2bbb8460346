// The readers: get, get_stale, ttl, bytes_at and show. A name that ends in `_in` is for a caller whose memory is known to be sound.
#![tactic(auto)]

ghost use Rattle.std.specs.Prelude.{◌≡◌, true, ◌+◌, length};
ghost use Rattle.rules.specs.Layout.{memory_of};
ghost use Rattle.rules.specs.LookUp.{look_up};
ghost use Rattle.rules.specs.Soundness.{sound};
ghost use Rattle.rules.specs.Checks.{key_checks};
ghost use Rattle.rules.specs.Calls.{Does, gave, shown, get_found, get_work, get_call, stale_found, get_stale_call, ttl_found, ttl_call, bytes_start, bytes_at_call, show_found, show_call, show_start};
ghost use Rattle.reading.specs.Readable.{Readable};

use rules::{Answer, Entry, Found, Outcome};

// What a reader answers of an entry: its kind, flags and value, and where the value stands in the pool.
fn shown(pool: &[u8], e: Entry) -> Outcome
    requires { Readable pool.now e }
    ensures { result ≡ shown pool.now e }
{
    let flags = e.flags as u32;
    let offset = 32 * e.start as usize + e.klen as usize;
    match e.kind {
        1 => Outcome::Boolean {
            flags,
            on: pool[offset] != 0,
            offset,
        },
        3 => Outcome::Number {
            flags,
            number: values::number_at(pool, e),
            offset,
        },
        _ => Outcome::Text {
            flags,
            offset,
            size: e.vlen as usize,
        },
    }
}

// get behind its sweep: a live entry is answered and moved to the front; else 8.
fn get_swept(dir: &mut [u64], pool: &[u8], clock: u64, key: &[u8], removed: usize) -> Answer
    requires { sound dir.old pool.now ≡ true }
    ensures { Does (get_found removed (memory_of dir.old pool.now) (look_up clock key.now (memory_of dir.old pool.now))) (length dir.old) result dir.new pool.now }
{
    let Found::Live(i) = memory::look_up(dir, pool, clock, key) else {
        return Answer::plain(Outcome::NotFound, removed);
    };
    let e = directory::record_at(dir, i);
    let outcome = shown(pool, e);
    directory::put_front(dir, i, e);
    Answer::plain(outcome, removed)
}

// get on a sound memory.
pub fn get_in(dir: &mut [u64], pool: &mut [u8], clock: u64, key: &[u8]) -> Answer
    requires { sound dir.old pool.old ≡ true }
    ensures { Does (get_work clock key.now (memory_of dir.old pool.old)) (length dir.old) result dir.new pool.new }
{
    let removed = eviction::sweep(dir, pool, clock);
    get_swept(dir, pool, clock, key, removed)
}

// get: up to two dead entries leave at the long-unused end; a live entry under the key is answered and moved to the front, else 8.
pub fn get(dir: &mut [u64], pool: &mut [u8], clock: u64, key: &[u8]) -> Answer
    ensures { gave result dir.new pool.new ≡ get_call dir.old pool.old clock key.now }
{
    if let Err(refusal) = checks::of_key(dir, pool, clock, key) {
        return Answer::plain(refusal, 0); // before the sweep
    }
    get_in(dir, pool, clock, key)
}

// get_stale on a sound memory.
pub fn get_stale_in(dir: &[u64], pool: &[u8], clock: u64, key: &[u8]) -> Answer
    requires { sound dir.now pool.now ≡ true }
    ensures { result ≡ stale_found (memory_of dir.now pool.now) (look_up clock key.now (memory_of dir.now pool.now)) }
{
    match memory::look_up(dir, pool, clock, key) {
        Found::Live(i) => Answer::marked(shown(pool, directory::record_at(dir, i)), false),
        Found::Dead(i) => Answer::marked(shown(pool, directory::record_at(dir, i)), true),
        Found::Missing => Answer::plain(Outcome::NotFound, 0),
    }
}

// get_stale: the entry under the key, live or dead, with a stale mark exactly if it is dead; else 8. Nothing changes.
pub fn get_stale(dir: &[u64], pool: &[u8], clock: u64, key: &[u8]) -> Answer
    ensures { result ≡ get_stale_call dir.now pool.now clock key.now }
{
    if let Err(refusal) = checks::of_key(dir, pool, clock, key) {
        return Answer::plain(refusal, 0); // nothing is looked up
    }
    get_stale_in(dir, pool, clock, key)
}

// ttl on a sound memory.
pub fn ttl_in(dir: &[u64], pool: &[u8], clock: u64, key: &[u8]) -> Answer
    requires { sound dir.now pool.now ≡ true }
    ensures { result ≡ ttl_found clock (memory_of dir.now pool.now) (look_up clock key.now (memory_of dir.now pool.now)) }
{
    let Found::Live(i) = memory::look_up(dir, pool, clock, key) else { // live or dead by this clock
        return Answer::plain(Outcome::NotFound, 0);
    };
    let left = time::time_left(directory::record_at(dir, i), clock);
    Answer::plain(Outcome::Count(left), 0)
}

// ttl: what is left of a live entry's life, 0 if it never expires; missing or dead gives 8. Nothing changes.
pub fn ttl(dir: &[u64], pool: &[u8], clock: u64, key: &[u8]) -> Answer
    ensures { result ≡ ttl_call dir.now pool.now clock key.now }
{
    if let Err(refusal) = checks::of_key(dir, pool, clock, key) {
        return Answer::plain(refusal, 0); // no time is told
    }
    ttl_in(dir, pool, clock, key)
}

// bytes_at: the part of the caller's own pool from `offset` on, `size` bytes long; a sum past its end gives the empty part at its start.
pub fn bytes_at(pool: &[u8], offset: u64, size: u64) -> &[u8]
    ensures result_value { result.now ≡ bytes_at_call pool.now offset size }
    ensures ref_ptr_value { result.ref_ptr ≡ (pool.entry.ref_ptr.0, bytes_start pool.now offset size + pool.entry.ref_ptr.1) }
{
    let n = pool.len() as u64;
    if n < offset || n - offset < size {
        return &pool[0..0];
    }
    let start = offset as usize;
    let end = start + size as usize;
    &pool[start..end]
}

// The live text under the key, if a get of it would be answered.
pub fn find_text(dir: &[u64], pool: &[u8], clock: u64, key: &[u8]) -> Found
    ensures { result ≡ show_found (key_checks dir.now pool.now clock key.now) clock key.now (memory_of dir.now pool.now) }
{
    if let Err(_) = checks::of_key(dir, pool, clock, key) {
        return Found::Missing;
    }
    let Found::Live(i) = memory::look_up(dir, pool, clock, key) else { // no sweep: nothing changes
        return Found::Missing;
    };
    let e = directory::record_at(dir, i);
    if e.kind == 4 {
        return Found::Live(i);
    }
    Found::Missing
}

// show: the live text under the key, lent out of the pool, or else the caller's own notice. Nothing changes.
pub fn show<'a>(dir: &[u64], pool: &'a [u8], clock: u64, key: &[u8], notice: &'a [u8]) -> &'a [u8]
    ensures result_value { result.now ≡ show_call dir.now pool.now clock key.now notice.now }
    ensures ref_ptr_value { result.ref_ptr ≡ show_start dir.now pool.now clock key.now pool.entry.ref_ptr notice.entry.ref_ptr }
{
    let Found::Live(i) = find_text(dir, pool, clock, key) else {
        return notice;
    };
    let e = directory::record_at(dir, i);
    let start = 32 * e.start as usize + e.klen as usize;
    let end = start + e.vlen as usize;
    &pool[start..end]
}
