// Decimal numbers of replay lines: read from a field, and written.
#![tactic(auto)]

ghost use Rattle.std.specs.Prelude.{◌≡◌, ◌+◌, ◌≤◌, length};
ghost use Rattle.rules.specs.Layout.{put};
ghost use Rattle.rules.specs.Replay.{number_said, weight_said, decimal, signed};
ghost use Rattle.decimals.specs.Reading.{run_said};

// The number that digits are, where all are digits and it is no more than `most`.
fn run(field: &[u8], most: u64) -> Option<u64>
    ensures { result ≡ run_said most 0 field.now }
{
    let mut n: u64 = 0;
    for &b in field {
        if !b.is_ascii_digit() {
            return None;
        }
        n = n.checked_mul(10)?.checked_add(u64::from(b - b'0'))?;
    }
    if most < n {
        return None;
    }
    Some(n)
}

// A number from 0 to `most`: decimal digits without needless zeros.
pub fn read_number(field: &[u8], most: u64) -> Option<u64>
    ensures { result ≡ number_said most field.now }
{
    if field.is_empty() {
        return None;
    }
    if 1 < field.len() && field[0] == b'0' {
        return None;
    }
    run(field, most)
}

// A signed number of 64 bits: only here a minus may stand, and not before 0.
pub fn read_weight(field: &[u8]) -> Option<i64>
    ensures { result ≡ weight_said field.now }
{
    if let Some(digits) = field.strip_prefix(b"-") {
        let n = read_number(digits, i64::MIN.unsigned_abs())?;
        if n == 0 {
            return None;
        }
        return Some(n.wrapping_neg().cast_signed());
    }
    let n = read_number(field, i64::MAX.unsigned_abs())?;
    Some(n.cast_signed())
}

// How many digits a number has.
fn size(n: u64) -> usize
    ensures { result ≡ length (decimal n) }
{
    let mut count = 1;
    let mut rest = n;
    while 10 <= rest {
        rest /= 10;
        count += 1;
    }
    count
}

// Writes a number's digits at `at`, the last first, where there is room for just these, and answers where they end.
fn write_digits(out: &mut [u8], at: usize, n: u64) -> usize
    requires { at + length (decimal n) ≤ length out.old }
    ensures { (out.new ≡ put out.old at (decimal n)) × (result ≡ at + length (decimal n)) }
{
    let count = size(n);
    let mut rest = n;
    for j in (0..count).rev() {
        out[at + j] = b'0' + (rest % 10) as u8;
        rest /= 10;
    }
    at + count
}

// Writes a number in decimal at `at`, and answers where it ends.
pub fn write_number(out: &mut [u8], at: usize, n: u64) -> usize
    requires { at + 20 ≤ length out.old }
    ensures { (out.new ≡ put out.old at (decimal n)) × (result ≡ at + length (decimal n)) }
{
    write_digits(out, at, n)
}

// Writes a signed number in decimal at `at`, and answers where it ends.
pub fn write_signed(out: &mut [u8], at: usize, n: i64) -> usize
    requires { at + 20 ≤ length out.old }
    ensures { (out.new ≡ put out.old at (signed n)) × (result ≡ at + length (signed n)) }
{
    if n < 0 {
        out[at] = b'-';
        return write_digits(out, at + 1, n.unsigned_abs());
    }
    write_digits(out, at, n.unsigned_abs())
}
