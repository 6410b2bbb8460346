// The calls for other languages, under C's names: numbers and slices only. A call writes its answer as ten words: outcome, rounds, removed, forced, stale, kind, flags, number (its bits), offset, length.
#![tactic(auto)]

ghost use Rattle.std.specs.Prelude.{◌≡◌};
ghost use Rattle.rules.specs.Answer.{answer_words};
ghost use Rattle.rules.specs.Soundness.{audit};
ghost use Rattle.rules.specs.declared.Operation.TheVariants.{Set, SafeSet, Add, SafeAdd, Replace};
ghost use Rattle.rules.specs.Calls.{fresh_call, get_call, get_stale_call, ttl_call, store_call, delete_call, incr_call, expire_call, flush_all_call, flush_expired_call, get_keys_flat_call};
ghost use Rattle.rules.specs.Exports.{Exported, ExportedListing, initial_of, bytes_place, show_place};

use rules::{Answer, Found, Initial};
use storing::Value;

// ---- an answer as words

// The ten words of an answer.
fn answer_words(a: Answer) -> [u64; 10]
    ensures { result ≡ answer_words a }
{
    let t = telling::tell(a.outcome);
    [
        t.answer,
        a.rounds as u64,
        a.removed as u64,
        u64::from(a.forced),
        u64::from(a.stale),
        t.kind,
        t.flags,
        t.bits,
        t.offset,
        t.size,
    ]
}

// ---- make fresh, audit

// Make fresh: the empty directory, in buffers of the right lengths; else 1.
#[unsafe(no_mangle)]
pub extern "C" fn reefcandor_make_fresh(dir: &mut [u64], pool: &mut [u8], answer: &mut [u64; 10])
    ensures { Exported (fresh_call dir.old pool.old) answer.new dir.new pool.new }
{
    *answer = answer_words(memory::make_fresh(dir, pool));
}

// Audit: the memory is sound and all keys differ.
#[unsafe(no_mangle)]
pub extern "C" fn reefcandor_audit(dir: &[u64], pool: &[u8]) -> bool
    ensures { result ≡ audit dir.now pool.now }
{
    memory::audit(dir, pool)
}

// ---- readers

// get: a live entry is answered and moved to the front; else 8. Sweeps first.
#[unsafe(no_mangle)]
pub extern "C" fn reefcandor_get(
    dir: &mut [u64],
    pool: &mut [u8],
    clock: u64,
    key: &[u8],
    answer: &mut [u64; 10],
)
    ensures { Exported (get_call dir.old pool.old clock key.now) answer.new dir.new pool.new }
{
    *answer = answer_words(reading::get(dir, pool, clock, key));
}

// get_stale: the entry, live or dead, with a stale mark exactly if it is dead; else 8. Nothing changes.
#[unsafe(no_mangle)]
pub extern "C" fn reefcandor_get_stale(
    dir: &[u64],
    pool: &[u8],
    clock: u64,
    key: &[u8],
    answer: &mut [u64; 10],
)
    ensures { answer.new ≡ answer_words (get_stale_call dir.now pool.now clock key.now) }
{
    *answer = answer_words(reading::get_stale(dir, pool, clock, key));
}

// ttl: what is left of a live entry's life, 0 if it never expires; else 8. Nothing changes.
#[unsafe(no_mangle)]
pub extern "C" fn reefcandor_ttl(
    dir: &[u64],
    pool: &[u8],
    clock: u64,
    key: &[u8],
    answer: &mut [u64; 10],
)
    ensures { answer.new ≡ answer_words (ttl_call dir.now pool.now clock key.now) }
{
    *answer = answer_words(reading::ttl(dir, pool, clock, key));
}

// bytes_at: where the part of the pool begins, and its length; 0 and 0 for a sum past the pool's end.
#[unsafe(no_mangle)]
pub extern "C" fn reefcandor_bytes_at(pool: &[u8], offset: u64, length: u64, place: &mut [u64; 2])
    ensures { place.new ≡ bytes_place pool.now offset length }
{
    let n = pool.len() as u64;
    if n < offset {
        *place = [0, 0];
        return;
    }
    if n - offset < length {
        *place = [0, 0];
        return;
    }
    *place = [offset, length];
}

// show: 1, where the live text begins in the pool and its length; or three times 0 where the caller's notice is to be shown. Nothing changes.
#[unsafe(no_mangle)]
pub extern "C" fn reefcandor_show(
    dir: &[u64],
    pool: &[u8],
    clock: u64,
    key: &[u8],
    place: &mut [u64; 3],
)
    ensures { place.new ≡ show_place dir.now pool.now clock key.now }
{
    let found = reading::find_text(dir, pool, clock, key);
    let Found::Live(i) = found else {
        *place = [0, 0, 0];
        return;
    };
    let e = directory::record_at(dir, i);
    *place = [1, 32 * e.start + e.klen, e.vlen];
}

// ---- stores

// set: stores a value under a key, over an entry of that key or anew; nil deletes. Where there is no place it runs the fewest rounds that make one; if 30 would not, it runs none and answers 12.
#[unsafe(no_mangle)]
pub extern "C" fn reefcandor_set(
    dir: &mut [u64],
    pool: &mut [u8],
    clock: u64,
    key: &[u8],
    kind: u8,
    number: i64,
    text: &[u8],
    lifetime: u64,
    flags: u32,
    answer: &mut [u64; 10],
)
    ensures { Exported (store_call Set dir.old pool.old clock key.now kind number text.now lifetime flags) answer.new dir.new pool.new }
{
    let value = Value {
        kind,
        number,
        text,
        lifetime,
        flags,
    };
    *answer = answer_words(storing::set(dir, pool, clock, key, value));
}

// safe_set: as set, but runs no rounds: without a free place it answers 12.
#[unsafe(no_mangle)]
pub extern "C" fn reefcandor_safe_set(
    dir: &mut [u64],
    pool: &mut [u8],
    clock: u64,
    key: &[u8],
    kind: u8,
    number: i64,
    text: &[u8],
    lifetime: u64,
    flags: u32,
    answer: &mut [u64; 10],
)
    ensures { Exported (store_call SafeSet dir.old pool.old clock key.now kind number text.now lifetime flags) answer.new dir.new pool.new }
{
    let value = Value {
        kind,
        number,
        text,
        lifetime,
        flags,
    };
    *answer = answer_words(storing::safe_set(dir, pool, clock, key, value));
}

// add: as set, but a live entry under the key gives 9, and nil 6.
#[unsafe(no_mangle)]
pub extern "C" fn reefcandor_add(
    dir: &mut [u64],
    pool: &mut [u8],
    clock: u64,
    key: &[u8],
    kind: u8,
    number: i64,
    text: &[u8],
    lifetime: u64,
    flags: u32,
    answer: &mut [u64; 10],
)
    ensures { Exported (store_call Add dir.old pool.old clock key.now kind number text.now lifetime flags) answer.new dir.new pool.new }
{
    let value = Value {
        kind,
        number,
        text,
        lifetime,
        flags,
    };
    *answer = answer_words(storing::add(dir, pool, clock, key, value));
}

// safe_add: as add, but runs no rounds.
#[unsafe(no_mangle)]
pub extern "C" fn reefcandor_safe_add(
    dir: &mut [u64],
    pool: &mut [u8],
    clock: u64,
    key: &[u8],
    kind: u8,
    number: i64,
    text: &[u8],
    lifetime: u64,
    flags: u32,
    answer: &mut [u64; 10],
)
    ensures { Exported (store_call SafeAdd dir.old pool.old clock key.now kind number text.now lifetime flags) answer.new dir.new pool.new }
{
    let value = Value {
        kind,
        number,
        text,
        lifetime,
        flags,
    };
    *answer = answer_words(storing::safe_add(dir, pool, clock, key, value));
}

// replace: as set, but a missing or dead entry gives 8, and nil 6.
#[unsafe(no_mangle)]
pub extern "C" fn reefcandor_replace(
    dir: &mut [u64],
    pool: &mut [u8],
    clock: u64,
    key: &[u8],
    kind: u8,
    number: i64,
    text: &[u8],
    lifetime: u64,
    flags: u32,
    answer: &mut [u64; 10],
)
    ensures { Exported (store_call Replace dir.old pool.old clock key.now kind number text.now lifetime flags) answer.new dir.new pool.new }
{
    let value = Value {
        kind,
        number,
        text,
        lifetime,
        flags,
    };
    *answer = answer_words(storing::replace(dir, pool, clock, key, value));
}

// ---- incr

// The initial number of an incr, if it has one, and its lifetime.
fn initial_of(has_initial: bool, number: i64, lifetime: u64) -> Option<Initial>
    ensures { result ≡ initial_of has_initial number lifetime }
{
    if has_initial {
        return Some(Initial { number, lifetime });
    }
    None
}

// incr: adds the step to a live number; a missing or dead one begins with the initial number where has_initial is set, else 8. Sweeps first.
#[unsafe(no_mangle)]
pub extern "C" fn reefcandor_incr(
    dir: &mut [u64],
    pool: &mut [u8],
    clock: u64,
    key: &[u8],
    step: i64,
    has_initial: bool,
    initial: i64,
    lifetime: u64,
    answer: &mut [u64; 10],
)
    ensures { Exported (incr_call dir.old pool.old clock key.now step (initial_of has_initial initial lifetime)) answer.new dir.new pool.new }
{
    let begin = initial_of(has_initial, initial, lifetime);
    *answer = answer_words(counting::incr(dir, pool, clock, key, step, begin));
}

// ---- upkeep

// delete: the entry under the key goes, live or dead; 0 also where nothing was there. Sweeps first.
#[unsafe(no_mangle)]
pub extern "C" fn reefcandor_delete(
    dir: &mut [u64],
    pool: &mut [u8],
    clock: u64,
    key: &[u8],
    answer: &mut [u64; 10],
)
    ensures { Exported (delete_call dir.old pool.old clock key.now) answer.new dir.new pool.new }
{
    *answer = answer_words(upkeep::delete(dir, pool, clock, key));
}

// expire: gives a live entry another expiry, never for a lifetime of 0; else 8. Neither sweeps nor moves.
#[unsafe(no_mangle)]
pub extern "C" fn reefcandor_expire(
    dir: &mut [u64],
    pool: &[u8],
    clock: u64,
    key: &[u8],
    lifetime: u64,
    answer: &mut [u64; 10],
)
    ensures { Exported (expire_call dir.old pool.now clock key.now lifetime) answer.new dir.new pool.now }
{
    *answer = answer_words(upkeep::expire(dir, pool, clock, key, lifetime));
}

// flush_all: every expiry becomes 1.
#[unsafe(no_mangle)]
pub extern "C" fn reefcandor_flush_all(dir: &mut [u64], pool: &[u8], answer: &mut [u64; 10])
    ensures { Exported (flush_all_call dir.old pool.now) answer.new dir.new pool.now }
{
    *answer = answer_words(upkeep::flush_all(dir, pool));
}

// flush_expired: dead entries go, longest unused first, up to a maximum (0 for all); removed tells how many.
#[unsafe(no_mangle)]
pub extern "C" fn reefcandor_flush_expired(
    dir: &mut [u64],
    pool: &mut [u8],
    clock: u64,
    maximum: u64,
    answer: &mut [u64; 10],
)
    ensures { Exported (flush_expired_call dir.old pool.old clock maximum) answer.new dir.new pool.new }
{
    *answer = answer_words(upkeep::flush_expired(dir, pool, clock, maximum));
}

// ---- get_keys

// get_keys: three numbers for each live entry, most recent first: start cell, key length and kind. It answers how many rows. Later rows stay, and on a refusal all do.
#[unsafe(no_mangle)]
pub extern "C" fn reefcandor_get_keys(
    dir: &[u64],
    pool: &[u8],
    clock: u64,
    maximum: u64,
    table: &mut [u64],
    answer: &mut [u64; 10],
)
    ensures { ExportedListing (get_keys_flat_call dir.now pool.now clock maximum table.old) answer.new table.new }
{
    *answer = answer_words(listing::get_keys_flat(dir, pool, clock, maximum, table));
}
