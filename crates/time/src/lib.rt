// Chapter "Time": dead entries, expiries, and what is left of a life.
#![tactic(auto)]

ghost use Rattle.std.specs.Prelude.{◌≡◌, false};
ghost use Rattle.rules.specs.Time.{dead, expiry_of, too_late, time_left};

use rules::Entry;

// The entry is dead by the clock.
#[tactic(auto, unfolding(rules::specs::Time::dead))]
pub fn is_dead(e: Entry, clock: u64) -> bool
    ensures { result ≡ dead clock e }
{
    e.expiry != 0 && e.expiry <= clock
}

// The clock plus the lifetime is above 2^64 − 1.
#[tactic(auto, unfolding(rules::specs::Time::too_late))]
pub fn is_too_late(clock: u64, lifetime: u64) -> bool
    ensures { result ≡ too_late clock lifetime }
{
    clock.checked_add(lifetime).is_none()
}

// The expiry that a lifetime gives: 0, never, for a lifetime of 0.
#[tactic(auto, unfolding(rules::specs::Time::expiry_of, rules::specs::Time::too_late))]
pub fn expiry_of(clock: u64, lifetime: u64) -> u64
    requires { too_late clock lifetime ≡ false }
    ensures { result ≡ expiry_of clock lifetime }
{
    if lifetime == 0 {
        return 0; // never
    }
    clock + lifetime
}

// The milliseconds that are left of a live entry: 0 if it never expires.
#[tactic(auto, unfolding(rules::specs::Time::time_left))]
pub fn time_left(e: Entry, clock: u64) -> u64
    requires { dead clock e ≡ false }
    ensures { result ≡ time_left clock e }
{
    e.expiry.saturating_sub(clock)
}
