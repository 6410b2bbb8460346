// Checks 1 to 7, in the order of their numbers, those that a call's arguments allow. The first that fails refuses the call.
#![tactic(auto)]

ghost use Rattle.std.specs.Prelude.{◌≡◌};
ghost use Rattle.rules.specs.Checks.{◌then◌, check_sound, check_clock, check_key, clock_checks, key_checks, expire_checks, check_lifetime, check_kind, check_nil, store_checks, check_initial, incr_checks};

use rules::{Initial, Operation, Outcome};

// Check 1: a sound memory.
fn memory_argument(dir: &[u64], pool: &[u8]) -> Result<(), Outcome>
    ensures { result ≡ check_sound dir.now pool.now }
{
    if !soundness::is_sound(dir, pool) {
        return Err(Outcome::NotSound);
    }
    Ok(())
}

// Check 2: a clock.
fn clock_argument(clock: u64) -> Result<(), Outcome>
    ensures { result ≡ check_clock clock }
{
    if clock == 0 {
        return Err(Outcome::ClockZero);
    }
    Ok(())
}

// Checks 1 and 2: a sound memory, and a clock.
pub fn of_clock(dir: &[u64], pool: &[u8], clock: u64) -> Result<(), Outcome>
    ensures { result ≡ clock_checks dir.now pool.now clock }
{
    memory_argument(dir, pool)?;
    clock_argument(clock)
}

// Checks 2 to 4, where the memory is known to be sound: a clock, and a key of 1 to 65,535 bytes.
pub fn key_arguments(clock: u64, key: &[u8]) -> Result<(), Outcome>
    ensures { result ≡ (check_clock clock then check_key key.now) }
{
    clock_argument(clock)?;
    if key.is_empty() {
        return Err(Outcome::KeyEmpty);
    }
    if 65535 < key.len() {
        return Err(Outcome::KeyTooLong);
    }
    Ok(())
}

// Checks 1 to 4.
pub fn of_key(dir: &[u64], pool: &[u8], clock: u64, key: &[u8]) -> Result<(), Outcome>
    ensures { result ≡ key_checks dir.now pool.now clock key.now }
{
    memory_argument(dir, pool)?;
    key_arguments(clock, key)
}

// Check 7: an expiry that 64 bits hold.
fn of_lifetime(clock: u64, lifetime: u64) -> Result<(), Outcome>
    ensures { result ≡ check_lifetime clock lifetime }
{
    if time::is_too_late(clock, lifetime) {
        return Err(Outcome::ExpiryTooLate);
    }
    Ok(())
}

// Checks 1 to 4 and 7.
pub fn of_expire(
    dir: &[u64],
    pool: &[u8],
    clock: u64,
    key: &[u8],
    lifetime: u64,
) -> Result<(), Outcome>
    ensures { result ≡ expire_checks dir.now pool.now clock key.now lifetime }
{
    of_key(dir, pool, clock, key)?;
    of_lifetime(clock, lifetime)
}

// Check 5: a kind of 0, 1, 3 or 4.
fn of_kind(kind: u8) -> Result<(), Outcome>
    ensures { result ≡ check_kind kind }
{
    match kind {
        0 | 1 | 3 | 4 => Ok(()),
        _ => Err(Outcome::KindUnknown),
    }
}

// Check 6: nil only in set and safe_set.
fn of_nil(op: Operation, kind: u8) -> Result<(), Outcome>
    ensures { result ≡ check_nil op kind }
{
    if kind != 0 {
        return Ok(());
    }
    match op {
        Operation::Set | Operation::SafeSet => Ok(()),
        Operation::Add | Operation::SafeAdd | Operation::Replace => Err(Outcome::NilRefused),
    }
}

// Checks 2 to 7, where the memory is known to be sound.
pub fn store_arguments(
    op: Operation,
    clock: u64,
    key: &[u8],
    kind: u8,
    lifetime: u64,
) -> Result<(), Outcome>
    ensures { result ≡ (check_clock clock then check_key key.now then check_kind kind then check_nil op kind then check_lifetime clock lifetime) }
{
    key_arguments(clock, key)?;
    of_kind(kind)?;
    of_nil(op, kind)?;
    of_lifetime(clock, lifetime)
}

// Checks 1 to 7.
pub fn of_store(
    op: Operation,
    dir: &[u64],
    pool: &[u8],
    clock: u64,
    key: &[u8],
    kind: u8,
    lifetime: u64,
) -> Result<(), Outcome>
    ensures { result ≡ store_checks op dir.now pool.now clock key.now kind lifetime }
{
    memory_argument(dir, pool)?;
    store_arguments(op, clock, key, kind, lifetime)
}

// Check 7 of an incr: the lifetime is read only with an initial number.
fn of_initial(clock: u64, initial: Option<Initial>) -> Result<(), Outcome>
    ensures { result ≡ check_initial clock initial }
{
    match initial {
        Some(Initial { lifetime, .. }) => of_lifetime(clock, lifetime),
        None => Ok(()),
    }
}

// Checks 1 to 4, and 7 with an initial number.
pub fn of_incr(
    dir: &[u64],
    pool: &[u8],
    clock: u64,
    key: &[u8],
    initial: Option<Initial>,
) -> Result<(), Outcome>
    ensures { result ≡ incr_checks dir.now pool.now clock key.now initial }
{
    of_key(dir, pool, clock, key)?;
    of_initial(clock, initial)
}
