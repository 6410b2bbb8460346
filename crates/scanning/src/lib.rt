// A byte looked for.
#![tactic(auto)]

ghost use Rattle.std.specs.Prelude.{◌≡◌, ◌≤◌, ◌<◌, length, get_or};
ghost use Rattle.scanning.specs.Until.{Until};
ghost use Rattle.scanning.specs.UntilLaws.{Passed};

use memchr::memchr;

// So many bytes are looked at one by one, which is faster than a search by memchr for the short fields that lines mostly have.
const NEAR: usize = 16;

// Where the byte stands next, from `from` on; the end where it stands nowhere. It stays a call: in a caller that goes from field to field the loops would cost more.
#[inline(never)]
pub fn find(bytes: &[u8], from: usize, byte: u8) -> usize
    requires { from ≤ length bytes.now }
    ensures { Until byte bytes.now from result }
{
    if bytes.len() - from <= NEAR {
        return find_before(bytes, from, bytes.len(), byte);
    }
    let near = find_before(bytes, from, from + NEAR, byte);
    if near < from + NEAR {
        return near;
    }
    find_far(bytes, near, byte)
}

// Where the byte stands next, from `from` on, if that is before `to`; else `to`.
#[inline]
fn find_before(bytes: &[u8], from: usize, to: usize, byte: u8) -> usize
    requires from_bound { from ≤ to }
    requires to_bound { to ≤ length bytes.now }
    ensures result_bound { result ≤ to }
    ensures passed { Passed byte bytes.now from result }
    ensures there { result < to → get_or bytes.now result 0 ≡ byte }
{
    for i in from..to {
        if bytes[i] == byte {
            return i;
        }
    }
    to
}

// Where a byte stands next that stands farther off: by memchr, in a call of its own, so that `find` saves no registers for it.
#[inline(never)]
fn find_far(bytes: &[u8], from: usize, byte: u8) -> usize
    requires { from ≤ length bytes.now }
    ensures { Until byte bytes.now from result }
{
    match memchr(byte, &bytes[from..]) {
        Some(i) => from + i,
        None => bytes.len(),
    }
}
