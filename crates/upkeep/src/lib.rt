// Upkeep: delete, expire, flush_all and flush_expired. A name that ends in `_in` is for a caller whose memory is known to be sound.
#![tactic(auto)]

ghost use Rattle.std.specs.Prelude.{◌≡◌, true, false, ◌≤◌, ◌<◌, length, Ok};
ghost use Rattle.rules.specs.Layout.{entries_of, Dir, memory_of, remove};
ghost use Rattle.rules.specs.declared.Outcome.TheVariants.{Done};
ghost use Rattle.rules.specs.Time.{expiry_of, too_late};
ghost use Rattle.rules.specs.LookUp.{look_up};
ghost use Rattle.rules.specs.Soundness.{sound};
ghost use Rattle.rules.specs.Calls.{Does, gave, did, delete_found, delete_work, delete_call, expire_found, expire_call, flush_all_work, flush_all_call, flush_expired_work, flush_expired_call};
ghost use Rattle.upkeep.specs.Flushing.{GoFrom};
ghost use Rattle.upkeep.specs.Dropping.{Dropped};

use rules::{Answer, Entry, Found, Outcome};

// The entry at i goes, and the delete is done.
fn delete_at(dir: &mut [u64], pool: &mut [u8], i: usize, removed: usize) -> Answer
    requires pool_value { sound dir.old pool.old ≡ true }
    requires i_in_bounds { i < length (entries_of dir.old) }
    ensures { Does (did Done removed (remove i (memory_of dir.old pool.old))) (length dir.old) result dir.new pool.new }
{
    memory::remove(dir, pool, i);
    Answer::plain(Outcome::Done, removed)
}

// delete behind its sweep: the entry under the key goes, live or dead.
pub fn delete_swept(
    dir: &mut [u64],
    pool: &mut [u8],
    clock: u64,
    key: &[u8],
    removed: usize,
) -> Answer
    requires { sound dir.old pool.old ≡ true }
    ensures { Does (delete_found removed (memory_of dir.old pool.old) (look_up clock key.now (memory_of dir.old pool.old))) (length dir.old) result dir.new pool.new }
{
    match memory::look_up(dir, pool, clock, key) {
        Found::Live(i) | Found::Dead(i) => delete_at(dir, pool, i, removed),
        Found::Missing => Answer::plain(Outcome::Done, removed), // nothing was there
    }
}

// delete on a sound memory.
pub fn delete_in(dir: &mut [u64], pool: &mut [u8], clock: u64, key: &[u8]) -> Answer
    requires { sound dir.old pool.old ≡ true }
    ensures { Does (delete_work clock key.now (memory_of dir.old pool.old)) (length dir.old) result dir.new pool.new }
{
    let removed = eviction::sweep(dir, pool, clock);
    delete_swept(dir, pool, clock, key, removed)
}

// delete: sweeps, then the entry under the key goes, live or dead; 0 also where nothing was there.
pub fn delete(dir: &mut [u64], pool: &mut [u8], clock: u64, key: &[u8]) -> Answer
    ensures { gave result dir.new pool.new ≡ delete_call dir.old pool.old clock key.now }
{
    if let Err(refusal) = checks::of_key(dir, pool, clock, key) {
        return Answer::plain(refusal, 0);
    }
    delete_in(dir, pool, clock, key)
}

// expire on a sound memory.
pub fn expire_in(dir: &mut [u64], pool: &[u8], clock: u64, key: &[u8], lifetime: u64) -> Answer
    requires pool_value { sound dir.old pool.now ≡ true }
    requires lifetime_value { too_late clock lifetime ≡ false }
    ensures { Does (expire_found (expiry_of clock lifetime) (memory_of dir.old pool.now) (look_up clock key.now (memory_of dir.old pool.now))) (length dir.old) result dir.new pool.now }
{
    let Found::Live(i) = memory::look_up(dir, pool, clock, key) else {
        return Answer::plain(Outcome::NotFound, 0);
    };
    let e = directory::record_at(dir, i);
    let after = Entry {
        expiry: time::expiry_of(clock, lifetime),
        ..e
    };
    directory::replace_at(dir, i, after);
    Answer::plain(Outcome::Done, 0)
}

// expire: gives a live entry another expiry, 0 (never) for a lifetime of 0; else 8. Neither sweeps nor moves.
pub fn expire(dir: &mut [u64], pool: &[u8], clock: u64, key: &[u8], lifetime: u64) -> Answer
    ensures { gave result dir.new pool.now ≡ expire_call dir.old pool.now clock key.now lifetime }
{
    if let Err(refusal) = checks::of_expire(dir, pool, clock, key, lifetime) {
        return Answer::plain(refusal, 0);
    }
    expire_in(dir, pool, clock, key, lifetime)
}

// flush_all on a sound memory.
pub fn flush_all_in(dir: &mut [u64], pool: &[u8]) -> Answer
    requires { sound dir.old pool.now ≡ true }
    ensures { Does (flush_all_work (memory_of dir.old pool.now)) (length dir.old) result dir.new pool.now }
{
    directory::expire_all(dir, 1);
    Answer::plain(Outcome::Done, 0)
}

// flush_all: every expiry becomes 1. It takes no clock.
pub fn flush_all(dir: &mut [u64], pool: &[u8]) -> Answer
    ensures { gave result dir.new pool.now ≡ flush_all_call dir.old pool.now }
{
    if !soundness::is_sound(dir, pool) {
        return Answer::plain(Outcome::NotSound, 0);
    }
    flush_all_in(dir, pool)
}

// Wipes the dead entries that go, `most` at most, longest unused first. Answers the first of them, behind which every dead one goes; the number of entries if none goes.
fn wipe_dead(dir: &[u64], pool: &mut [u8], clock: u64, most: usize) -> usize
    requires { sound dir.now pool.old ≡ true }
    ensures { GoFrom clock most (memory_of dir.now pool.old) result pool.new }
{
    let n = directory::count(dir);
    let mut first = n;
    let mut gone = 0;
    for i in (0..n).rev() {
        if gone == most {
            return first;
        }
        let last = directory::record_at(dir, i);
        if time::is_dead(last, clock) {
            memory::wipe(pool, last);
            first = i;
            gone += 1;
        }
    }
    first
}

// The records of the dead entries from `first` on leave, and those of the live ones move down, each once. Answers how many entries are left.
fn drop_dead(dir: &mut [u64], clock: u64, first: usize) -> usize
    requires dir { Dir dir.old }
    requires first_in_bounds { first ≤ length (entries_of dir.old) }
    ensures { Dropped clock first dir.old result dir.new }
{
    let n = directory::count(dir);
    let mut kept = first;
    for i in first..n {
        let e = directory::record_at(dir, i);
        if !time::is_dead(e, clock) {
            directory::replace_at(dir, kept, e);
            kept += 1;
        }
    }
    directory::truncate(dir, kept);
    kept
}

// flush_expired on a sound memory: one pass finds and wipes what goes, and one moves the others down.
pub fn flush_expired_in(dir: &mut [u64], pool: &mut [u8], clock: u64, maximum: u64) -> Answer
    requires { sound dir.old pool.old ≡ true }
    ensures { Does (flush_expired_work clock maximum (memory_of dir.old pool.old)) (length dir.old) result dir.new pool.new }
{
    let n = directory::count(dir);
    let most = values::up_to(maximum, n);
    let first = wipe_dead(dir, pool, clock, most);
    let kept = drop_dead(dir, clock, first);
    Answer::plain(Outcome::Done, n - kept)
}

// flush_expired: dead entries go, longest unused first, up to a maximum (0 for all); removed tells how many.
pub fn flush_expired(dir: &mut [u64], pool: &mut [u8], clock: u64, maximum: u64) -> Answer
    ensures { gave result dir.new pool.new ≡ flush_expired_call dir.old pool.old clock maximum }
{
    if let Err(refusal) = checks::of_clock(dir, pool, clock) {
        return Answer::plain(refusal, 0);
    }
    flush_expired_in(dir, pool, clock, maximum)
}
