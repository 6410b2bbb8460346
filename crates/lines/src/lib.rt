// What a replay line says: its fields, and the call that they make.
#![tactic(auto)]

ghost use Rattle.std.specs.Prelude.{◌≡◌, List, [], ◌∷◌};
ghost use Rattle.rules.specs.Replay.{number_said, value_said, kind_said, parts_of, parts_say, call_of};
ghost use Rattle.lines.specs.Saying.{said, Cut, value, Fine};

use decimals::{read_number, read_weight};

// A call that a line makes. Keys and texts stand in the line.
#[derive(Clone, Copy, Debug, PartialEq, Eq)]
pub enum Call<'a> {
    Fresh {
        cells: usize,
    },
    Set {
        clock: u64,
        key: &'a [u8],
        kind: u8,
        number: i64,
        text: &'a [u8],
        lifetime: u64,
        flags: u32,
    },
    Get {
        clock: u64,
        key: &'a [u8],
    },
    Delete {
        clock: u64,
        key: &'a [u8],
    },
}

// The first field of some that are parted by tabs, and the others; None where it is the only one.
fn cut(fields: &[u8]) -> Option<(&[u8], &[u8])>
    ensures { Cut fields.now result }
{
    let end = scanning::find(fields, 0, b'\t');
    if end == fields.len() {
        return None;
    }
    Some((&fields[..end], &fields[end + 1..]))
}

// Two fields: `fresh` and P.
fn read_fresh<'a>(word: &[u8], count: &[u8]) -> Option<Call<'a>>
    ensures call { said result ≡ parts_say (word.now ∷ count.now ∷ []) }
    ensures fine { Fine result }
{
    if !words::equal(word, b"fresh") {
        return None;
    }
    let cells = read_number(count, 1024)?;
    if cells == 0 {
        return None;
    }
    Some(Call::Fresh {
        cells: cells as usize,
    })
}

// Three fields: the clock, `get` or `delete`, and the key.
fn read_key<'a>(clock: &[u8], word: &[u8], key: &'a [u8]) -> Option<Call<'a>>
    ensures call { said result ≡ parts_say (clock.now ∷ word.now ∷ key.now ∷ []) }
    ensures fine { Fine result }
{
    let clock = read_number(clock, u64::MAX)?;
    if words::equal(word, b"get") {
        return Some(Call::Get { clock, key });
    }
    if words::equal(word, b"delete") {
        return Some(Call::Delete { clock, key });
    }
    None
}

// The number and the text that a value's field says, by its kind. For other kinds than 1, 3 and 4 the field is not read.
fn read_value(field: &[u8], kind: u64) -> Option<(i64, &[u8])>
    ensures { value result ≡ value_said kind field.now }
{
    match kind {
        1 => Some((read_number(field, 1)? as i64, &[])),
        3 => Some((read_weight(field)?, &[])),
        4 => Some((0, field)),
        _ => Some((0, &[])),
    }
}

// A `set` by its other six fields.
fn read_set<'a>(
    clock: &[u8],
    key: &'a [u8],
    kind: &[u8],
    value: &'a [u8],
    lifetime: &[u8],
    flags: &[u8],
) -> Option<Call<'a>>
    ensures call { said result ≡ kind_said clock.now key.now (number_said 255 kind.now) value.now lifetime.now flags.now }
    ensures fine { Fine result }
{
    let kind = read_number(kind, 255)?;
    let clock = read_number(clock, u64::MAX)?;
    let (number, text) = read_value(value, kind)?;
    let lifetime = read_number(lifetime, u64::MAX)?;
    let flags = read_number(flags, u64::from(u32::MAX))?;
    Some(Call::Set {
        clock,
        key,
        kind: kind as u8,
        number,
        text,
        lifetime,
        flags: flags as u32,
    })
}

// Three fields, and more behind them: it takes `set` for the second, and four more.
fn read_long<'a>(clock: &[u8], word: &[u8], key: &'a [u8], more: &'a [u8]) -> Option<Call<'a>>
    ensures call { said result ≡ parts_say (clock.now ∷ word.now ∷ key.now ∷ parts_of more.now) }
    ensures fine { Fine result }
{
    let (kind, more) = cut(more)?;
    let (value, more) = cut(more)?;
    let (lifetime, flags) = cut(more)?;
    if cut(flags).is_some() {
        return None;
    }
    if !words::equal(word, b"set") {
        return None;
    }
    read_set(clock, key, kind, value, lifetime, flags)
}

// The call that a line makes; None if it is not understood.
pub fn parse(line: &[u8]) -> Option<Call<'_>>
    ensures call { said result ≡ call_of line.now }
    ensures fine { Fine result }
{
    if 4096 < line.len() {
        return None;
    }
    let (first, more) = cut(line)?;
    let Some((second, more)) = cut(more) else {
        return read_fresh(first, more);
    };
    let Some((third, more)) = cut(more) else {
        return read_key(first, second, more);
    };
    read_long(first, second, third, more)
}
