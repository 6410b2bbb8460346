// Numbers and keys: a signed number as eight bytes, sums, the boolean byte, the cells that an entry needs, a number up to a maximum, and key equality in the pool.
#![tactic(auto)]

ghost use Rattle.std.specs.Prelude.{◌≡◌, ◌+◌, ◌*◌, ◌<◌, ◌≤◌, length, ◌+ℤ◌};
ghost use Rattle.std.specs.Int.{w64};
ghost use Rattle.std.proofs.Common.{to_z, of_z};
ghost use Rattle.rules.specs.Layout.{need, number_bytes, number_at, key_of, key_offset, value_offset};
ghost use Rattle.rules.specs.LookUp.{key_is};
ghost use Rattle.rules.specs.Calls.{boolean_byte, up_to};
ghost use Rattle.values.specs.Sum.{sum_of};

use rules::Entry;

// The cells that a key and a value of these lengths need. No sum wraps, however long the value.
pub fn need(klen: usize, vlen: usize) -> usize
    requires { klen ≤ 65535 }
    ensures { result ≡ need (klen + vlen) }
{
    vlen / 32 + (klen + vlen % 32 + 31) / 32
}

// n, or the maximum if that is less; a maximum of 0 is none.
pub fn up_to(maximum: u64, n: usize) -> usize
    ensures { result ≡ up_to maximum n }
{
    if maximum == 0 {
        return n; // for all
    }
    maximum.min(n as u64) as usize
}

// The bits of x, two's complement.
pub fn to_bits(x: i64) -> u64
    ensures { result ≡ of_z w64 x }
{
    x.cast_unsigned()
}

// The number that bits stand for.
pub fn from_bits(bits: u64) -> i64
    ensures { result ≡ to_z w64 bits }
{
    bits.cast_signed()
}

// The eight bytes of a number, lowest first.
pub fn number_bytes(x: i64) -> [u8; 8]
    ensures { result ≡ number_bytes x }
{
    x.to_le_bytes()
}

// The number that an entry of kind 3 holds.
pub fn number_at(pool: &[u8], e: Entry) -> i64
    requires { value_offset e + 8 ≤ length pool.now }
    ensures { result ≡ number_at pool.now e }
{
    let at = 32 * e.start as usize + e.klen as usize;
    words::load8(pool, at).cast_signed()
}

// The sum, or none where 64 bits do not hold it.
pub fn add(a: i64, b: i64) -> Option<i64>
    ensures { result ≡ sum_of (a +ℤ b) }
{
    a.checked_add(b)
}

// A boolean's byte: 1 for any number but 0.
pub fn boolean_byte(number: i64) -> u8
    ensures { result ≡ boolean_byte number }
{
    u8::from(number != 0)
}

// The bytes of an entry's key.
pub fn key_of(pool: &[u8], e: Entry) -> &[u8]
    requires { key_offset e + e.klen ≤ length pool.now }
    ensures { result.now ≡ key_of pool.now e }
{
    let at = 32 * e.start as usize;
    &pool[at..at + e.klen as usize]
}

// The entry is under that key.
pub fn key_is(pool: &[u8], e: Entry, key: &[u8]) -> bool
    requires { key_offset e + e.klen ≤ length pool.now }
    ensures { result ≡ key_is pool.now key.now e }
{
    words::equal(key_of(pool, e), key)
}
