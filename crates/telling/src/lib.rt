// What an outcome tells, as plain numbers: the paper's fields, a signed number by its bits.
#![tactic(auto)]

ghost use Rattle.std.specs.Prelude.{◌≡◌};
ghost use Rattle.telling.specs.Told.{only_told, value_told, told_of, ReadBack};

use rules::Outcome;
use values::to_bits;

// An answer number, and what stands beside it: 0 where there is nothing to tell.
#[derive(Clone, Copy, Debug, PartialEq, Eq)]
pub struct Told {
    pub answer: u64,
    pub kind: u64,
    pub flags: u64,
    pub bits: u64,
    pub offset: u64,
    pub size: u64,
}

// An outcome that tells nothing but its number.
fn only(answer: u64) -> Told
    ensures { result ≡ only_told answer }
{
    Told {
        answer,
        kind: 0,
        flags: 0,
        bits: 0,
        offset: 0,
        size: 0,
    }
}

// Done, with a value.
fn value(kind: u64, flags: u32, bits: u64, offset: usize, size: usize) -> Told
    ensures { result ≡ value_told kind flags bits offset size }
{
    Told {
        answer: 0,
        kind,
        flags: u64::from(flags),
        bits,
        offset: offset as u64,
        size: size as u64,
    }
}

// What an outcome tells: a refusal its number alone. Where a kind is told, its number can be read back from the bits.
pub fn tell(outcome: Outcome) -> Told
    ensures value { result ≡ told_of outcome }
    ensures read_back { ReadBack outcome result }
{
    match outcome {
        Outcome::Done => only(0),
        Outcome::Number {
            flags,
            number,
            offset,
        } => value(3, flags, to_bits(number), offset, 8),
        Outcome::Boolean { flags, on, offset } => value(1, flags, u64::from(on), offset, 1),
        Outcome::Text {
            flags,
            offset,
            size,
        } => value(4, flags, 0, offset, size),
        Outcome::Count(n) => value(0, 0, n, 0, 0),
        Outcome::Sum(number) => value(3, 0, to_bits(number), 0, 0),
        Outcome::NotSound => only(1),
        Outcome::ClockZero => only(2),
        Outcome::KeyEmpty => only(3),
        Outcome::KeyTooLong => only(4),
        Outcome::KindUnknown => only(5),
        Outcome::NilRefused => only(6),
        Outcome::ExpiryTooLate => only(7),
        Outcome::NotFound => only(8),
        Outcome::Exists => only(9),
        Outcome::NotNumber => only(10),
        Outcome::SumTooLarge => only(11),
        Outcome::NoMemory => only(12),
        Outcome::LineUnreadable => only(13),
    }
}
