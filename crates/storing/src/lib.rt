// The stores: set, safe_set, add, safe_add and replace. A name that ends in `_in` is for a caller whose memory is known to be sound.
#![tactic(auto)]

ghost use Rattle.std.specs.Prelude.{◌≡◌, true, ◌+◌, ◌*◌, ◌<◌, length, get_or, Ok};
ghost use Rattle.rules.specs.Layout.{entries_of, none, memory_of};
ghost use Rattle.rules.specs.LookUp.{look_up};
ghost use Rattle.rules.specs.Soundness.{sound};
ghost use Rattle.rules.specs.Calls.{Holds, Does, rewrite_at, place_at, place_anew, store_item, store_over, admits, most_rounds, store_found, store_work, item_of, gave, store_call};
ghost use Rattle.rules.specs.Checks.{store_checks};
ghost use Rattle.rules.specs.LeastLoss.{StoreLoses};
ghost use Rattle.rules.specs.declared.Outcome.TheVariants.{Done};
ghost use Rattle.rules.specs.declared.Operation.TheVariants.{Set, SafeSet, Add, SafeAdd, Replace};
ghost use Rattle.storing.specs.Order.{item_from, Storable};
ghost use Rattle.storing.specs.Placing.{Fits};

use rules::{Answer, Entry, Found, Operation, Outcome};

// What a store is to store: a value of a kind, how long it lives, and its flags. Kinds 1 and 3 read the number, and kind 4 the text.
#[derive(Clone, Copy)]
pub struct Value<'a> {
    pub kind: u8,
    pub number: i64,
    pub text: &'a [u8],
    pub lifetime: u64,
    pub flags: u32,
}

// How bytes are to be stored under a key: their expiry, kind and flags; the rounds that may run; what to tell where they are stored; and what the sweep has removed.
#[derive(Clone, Copy)]
pub struct Order<'a> {
    pub key: &'a [u8],
    pub bytes: &'a [u8],
    pub expiry: u64,
    pub kind: u64,
    pub flags: u64,
    pub most: usize,
    pub told: Outcome,
    pub removed: usize,
}

// Writes another value of the same length into the entry at i, whose record becomes e and goes to the front.
pub fn rewrite_at(dir: &mut [u64], pool: &mut [u8], i: usize, e: Entry, value: &[u8])
    requires pool_value { sound dir.old pool.old ≡ true }
    requires i_in_bounds { i < length (entries_of dir.old) }
    requires value_len { length value.now ≡ (get_or (entries_of dir.old) i none).vlen }
    ensures { Holds (length dir.old) (rewrite_at i e value.now (memory_of dir.old pool.old)) dir.new pool.new }
{
    let old = directory::record_at(dir, i);
    let at = 32 * old.start as usize + old.klen as usize;
    words::copy_in(pool, at, value);
    directory::put_front(dir, i, e);
}

// Writes key and bytes from the start's cell on, and puts the record in front of the others.
fn place_at(dir: &mut [u64], pool: &mut [u8], start: usize, order: Order)
    requires pool_value { sound dir.old pool.old ≡ true }
    requires storable { Storable order }
    requires fits { Fits (item_from order) start (memory_of dir.old pool.old) }
    ensures { Holds (length dir.old) (place_at (item_from order.entry) start (memory_of dir.old pool.old)) dir.new pool.new }
{
    let at = 32 * start;
    let key = order.key;
    let bytes = order.bytes;
    words::copy_in(pool, at, key);
    words::copy_in(pool, at + key.len(), bytes);
    let e = Entry {
        expiry: order.expiry,
        kind: order.kind,
        flags: order.flags,
        start: start as u64,
        klen: key.len() as u64,
        vlen: bytes.len() as u64,
    };
    directory::push_front(dir, e);
}

// Places an entry anew: the place of fewest rounds and lowest start is chosen, just those rounds go, and it is stored there; 12 if there is none.
fn place_anew(dir: &mut [u64], pool: &mut [u8], clock: u64, order: Order) -> Answer
    requires pool_value { sound dir.old pool.old ≡ true }
    requires storable { Storable order }
    ensures { Does (place_anew order.entry.most clock (item_from order.entry) order.entry.told order.entry.removed (memory_of dir.old pool.old)) (length dir.old) result dir.new pool.new }
{
    let need = values::need(order.key.len(), order.bytes.len());
    let Some(choice) = eviction::choose(dir, pool, clock, need, order.most) else {
        return Answer::plain(Outcome::NoMemory, order.removed);
    };
    memory::remove_oldest(dir, pool, choice.gone);
    place_at(dir, pool, choice.start, order);
    Answer {
        rounds: choice.ran, // those that went
        removed: order.removed + choice.gone,
        forced: choice.live, // a live entry went
        stale: false,
        outcome: order.told,
    }
}

// Stores over the entry at i, the key's own: in place where the value is as long, and else that entry goes first.
fn store_over(dir: &mut [u64], pool: &mut [u8], clock: u64, order: Order, i: usize) -> Answer
    requires pool_value { sound dir.old pool.old ≡ true }
    requires storable { Storable order }
    requires i_in_bounds { i < length (entries_of dir.old) }
    ensures { Does (store_over order.entry.most clock (item_from order.entry) order.entry.told order.entry.removed (memory_of dir.old pool.old) i) (length dir.old) result dir.new pool.new }
{
    let old = directory::record_at(dir, i);
    let bytes = order.bytes;
    if old.vlen != bytes.len() as u64 {
        memory::remove(dir, pool, i); // also where 12 follows
        return place_anew(dir, pool, clock, order);
    }
    let e = Entry {
        expiry: order.expiry, // none of the old ones stays
        kind: order.kind, // nor the kind
        flags: order.flags, // nor the flags
        start: old.start,
        klen: order.key.len() as u64,
        vlen: bytes.len() as u64,
    };
    rewrite_at(dir, pool, i, e, bytes);
    Answer::plain(order.told, order.removed)
}

// Stores bytes under a key, of which the look-up has found what it found.
pub fn store_item(
    dir: &mut [u64],
    pool: &mut [u8],
    clock: u64,
    order: Order,
    found: Found,
) -> Answer
    requires pool_value { sound dir.old pool.old ≡ true }
    requires storable { Storable order }
    requires found_value { found ≡ look_up clock order.key.now (memory_of dir.old pool.old) }
    ensures { Does (store_item order.entry.most clock (item_from order.entry) order.entry.told order.entry.removed (memory_of dir.old pool.old) found) (length dir.old) result dir.new pool.new }
{
    match found {
        Found::Live(i) | Found::Dead(i) => store_over(dir, pool, clock, order, i),
        Found::Missing => place_anew(dir, pool, clock, order),
    }
}

// replace wants a live entry, add none.
fn admits(op: Operation, found: Found) -> Result<(), Outcome>
    ensures { result ≡ admits op found }
{
    match (op, found) {
        (Operation::Add | Operation::SafeAdd, Found::Live(_)) => Err(Outcome::Exists),
        (Operation::Replace, Found::Dead(_) | Found::Missing) => Err(Outcome::NotFound),
        _ => Ok(()),
    }
}

// The rounds that may run: 30, and none for a safe form.
fn most_rounds(op: Operation) -> usize
    ensures { result ≡ most_rounds op }
{
    match op {
        Operation::Set | Operation::Add | Operation::Replace => 30,
        Operation::SafeSet | Operation::SafeAdd => 0,
    }
}

// A store of a value that is not nil, behind its sweep.
fn store_swept(op: Operation, dir: &mut [u64], pool: &mut [u8], clock: u64, order: Order) -> Answer
    requires pool_value { sound dir.old pool.old ≡ true }
    requires storable { Storable order }
    requires most_value { (order.most ≡ most_rounds op) × (order.told ≡ Done) }
    ensures { Does (store_found op clock (item_from order.entry) order.entry.removed (memory_of dir.old pool.old) (look_up clock order.entry.key.now (memory_of dir.old pool.old))) (length dir.old) result dir.new pool.new }
{
    let found = memory::look_up(dir, pool, clock, order.key);
    if let Err(refusal) = admits(op, found) {
        return Answer::plain(refusal, order.removed);
    }
    store_item(dir, pool, clock, order, found)
}

// A store on a sound memory, past its checks: nil deletes, and any other value is stored by its kind.
pub fn store_in(
    op: Operation,
    dir: &mut [u64],
    pool: &mut [u8],
    clock: u64,
    key: &[u8],
    value: Value,
) -> Answer
    requires { (Ok tt) ≡ store_checks op dir.old pool.old clock key.now value.kind value.lifetime }
    ensures { Does (store_work op clock (item_of clock key.now value.entry.kind value.entry.number value.entry.text.now value.entry.lifetime value.entry.flags) (memory_of dir.old pool.old)) (length dir.old) result dir.new pool.new }
{
    let removed = eviction::sweep(dir, pool, clock);
    if value.kind == 0 {
        return upkeep::delete_swept(dir, pool, clock, key, removed);
    }
    let number = values::number_bytes(value.number);
    let boolean = [values::boolean_byte(value.number)];
    let order = Order {
        key,
        bytes: match value.kind {
            4 => value.text,
            3 => &number,
            _ => &boolean,
        },
        expiry: time::expiry_of(clock, value.lifetime),
        kind: u64::from(value.kind),
        flags: u64::from(value.flags),
        most: most_rounds(op),
        told: Outcome::Done,
        removed,
    };
    store_swept(op, dir, pool, clock, order)
}

// A store: the checks, and then its work.
pub fn store(
    op: Operation,
    dir: &mut [u64],
    pool: &mut [u8],
    clock: u64,
    key: &[u8],
    value: Value,
) -> Answer
    ensures result { gave result dir.new pool.new ≡ store_call op dir.old pool.old clock key.now value.entry.kind value.entry.number value.entry.text.now value.entry.lifetime value.entry.flags }
    ensures loss { StoreLoses op dir.old pool.old clock key.now value.entry.kind value.entry.number value.entry.text.now value.entry.lifetime value.entry.flags (gave result dir.new pool.new) }
{
    if let Err(refusal) = checks::of_store(op, dir, pool, clock, key, value.kind, value.lifetime) {
        return Answer::plain(refusal, 0);
    }
    store_in(op, dir, pool, clock, key, value)
}

// set: stores a value under a key, over an entry of that key or anew; nil deletes. Where there is no place it runs the fewest rounds that make one; if 30 would not, it runs none and answers 12.
pub fn set(dir: &mut [u64], pool: &mut [u8], clock: u64, key: &[u8], value: Value) -> Answer
    ensures result { gave result dir.new pool.new ≡ store_call Set dir.old pool.old clock key.now value.entry.kind value.entry.number value.entry.text.now value.entry.lifetime value.entry.flags }
    ensures loss { StoreLoses Set dir.old pool.old clock key.now value.entry.kind value.entry.number value.entry.text.now value.entry.lifetime value.entry.flags (gave result dir.new pool.new) }
{
    store(Operation::Set, dir, pool, clock, key, value)
}

// safe_set: as set, but runs no rounds: without a free place it answers 12.
pub fn safe_set(dir: &mut [u64], pool: &mut [u8], clock: u64, key: &[u8], value: Value) -> Answer
    ensures result { gave result dir.new pool.new ≡ store_call SafeSet dir.old pool.old clock key.now value.entry.kind value.entry.number value.entry.text.now value.entry.lifetime value.entry.flags }
    ensures loss { StoreLoses SafeSet dir.old pool.old clock key.now value.entry.kind value.entry.number value.entry.text.now value.entry.lifetime value.entry.flags (gave result dir.new pool.new) }
{
    store(Operation::SafeSet, dir, pool, clock, key, value)
}

// add: as set, but a live entry under the key gives 9, and nil 6.
pub fn add(dir: &mut [u64], pool: &mut [u8], clock: u64, key: &[u8], value: Value) -> Answer
    ensures result { gave result dir.new pool.new ≡ store_call Add dir.old pool.old clock key.now value.entry.kind value.entry.number value.entry.text.now value.entry.lifetime value.entry.flags }
    ensures loss { StoreLoses Add dir.old pool.old clock key.now value.entry.kind value.entry.number value.entry.text.now value.entry.lifetime value.entry.flags (gave result dir.new pool.new) }
{
    store(Operation::Add, dir, pool, clock, key, value)
}

// safe_add: as add, but runs no rounds.
pub fn safe_add(dir: &mut [u64], pool: &mut [u8], clock: u64, key: &[u8], value: Value) -> Answer
    ensures result { gave result dir.new pool.new ≡ store_call SafeAdd dir.old pool.old clock key.now value.entry.kind value.entry.number value.entry.text.now value.entry.lifetime value.entry.flags }
    ensures loss { StoreLoses SafeAdd dir.old pool.old clock key.now value.entry.kind value.entry.number value.entry.text.now value.entry.lifetime value.entry.flags (gave result dir.new pool.new) }
{
    store(Operation::SafeAdd, dir, pool, clock, key, value)
}

// replace: as set, but a missing or dead entry gives 8, and nil 6.
pub fn replace(dir: &mut [u64], pool: &mut [u8], clock: u64, key: &[u8], value: Value) -> Answer
    ensures result { gave result dir.new pool.new ≡ store_call Replace dir.old pool.old clock key.now value.entry.kind value.entry.number value.entry.text.now value.entry.lifetime value.entry.flags }
    ensures loss { StoreLoses Replace dir.old pool.old clock key.now value.entry.kind value.entry.number value.entry.text.now value.entry.lifetime value.entry.flags (gave result dir.new pool.new) }
{
    store(Operation::Replace, dir, pool, clock, key, value)
}
