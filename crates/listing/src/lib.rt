// get_keys: a row for each live entry, most recent first; as plain numbers, and as rows.
#![tactic(auto)]

ghost use Rattle.std.specs.Prelude.{◌≡◌, true, [], ◌∷◌, ◌+◌, ◌*◌, ◌≤◌, length, Ok};
ghost use Rattle.rules.specs.Layout.{entries_of, Dir, put, memory_of};
ghost use Rattle.rules.specs.declared.Outcome.TheVariants.{Count};
ghost use Rattle.rules.specs.Answer.{plain};
ghost use Rattle.rules.specs.Soundness.{sound};
ghost use Rattle.rules.specs.Calls.{row_of, row_words, flat_listing, listed_flat, get_keys_flat_call, listing, get_keys_call};
ghost use Rattle.listing.specs.Rows.{Listed};
ghost use Rattle.listing.specs.Filling.{row_at, Fits, filled};
ghost use Rattle.listing.specs.Told.{rows_told, answer_told, Told};

use rules::{Answer, Entry, Outcome, Row};

// The three numbers of an entry's row, from p on.
fn write_row(table: &mut [u64], p: usize, e: Entry)
    requires { p + 3 ≤ length table.old }
    ensures { table.new ≡ put table.old p (row_words (row_of e ∷ [])) }
{
    table[p] = e.start;
    table[p + 1] = e.klen;
    table[p + 2] = e.kind;
}

// The rows of the live entries, most recent first, so many at most. It answers how many.
fn write_rows(dir: &[u64], clock: u64, most: usize, table: &mut [u64]) -> usize
    requires dir { Dir dir.now }
    requires most_in_bounds { 3 * most ≤ length table.old }
    ensures { Listed clock most (entries_of dir.now) table.old result table.new }
{
    let mut k = 0;
    for i in 0..directory::count(dir) {
        if k == most {
            return k;
        }
        let e = directory::record_at(dir, i);
        if !time::is_dead(e, clock) {
            write_row(table, 3 * k, e);
            k += 1;
        }
    }
    k
}

// The rows of the live entries of a sound memory, so many as fit and as the maximum allows (0 for all). It answers how many.
fn list_rows(dir: &[u64], pool: &[u8], clock: u64, maximum: u64, table: &mut [u64]) -> usize
    requires { sound dir.now pool.now ≡ true }
    ensures { flat_listing (plain (Count result) 0) table.new ≡ listed_flat clock maximum table.old (memory_of dir.now pool.now) }
{
    let most = values::up_to(maximum, table.len() / 3);
    write_rows(dir, clock, most, table)
}

// get_keys on a sound memory, into a table of plain numbers: start cell, key length and kind for each live entry.
pub fn get_keys_flat_in(
    dir: &[u64],
    pool: &[u8],
    clock: u64,
    maximum: u64,
    table: &mut [u64],
) -> Answer
    requires { sound dir.now pool.now ≡ true }
    ensures { flat_listing result table.new ≡ listed_flat clock maximum table.old (memory_of dir.now pool.now) }
{
    let n = list_rows(dir, pool, clock, maximum, table);
    Answer::plain(Outcome::Count(n as u64), 0)
}

// get_keys into a table of plain numbers, three a row. It answers how many rows: the least of the maximum (0 for none), the rows that fit and the live entries. Later rows stay, and on a refusal all do.
pub fn get_keys_flat(
    dir: &[u64],
    pool: &[u8],
    clock: u64,
    maximum: u64,
    table: &mut [u64],
) -> Answer
    ensures { flat_listing result table.new ≡ get_keys_flat_call dir.now pool.now clock maximum table.old }
{
    if let Err(refusal) = checks::of_clock(dir, pool, clock) {
        return Answer::plain(refusal, 0);
    }
    get_keys_flat_in(dir, pool, clock, maximum, table)
}

// The k-th row of a table of plain numbers.
fn row_at(table: &[u64], k: usize) -> Row
    requires { 3 * k + 3 ≤ length table.now }
    ensures { result ≡ row_at table.now k }
{
    let p = 3 * k;
    Row {
        start: table[p],
        klen: table[p + 1],
        kind: table[p + 2],
    }
}

// The first n rows of a table of plain numbers.
fn fill_rows(rows: &mut [Row], table: &[u64], n: usize)
    requires { Fits n (length rows.old) (length table.now) }
    ensures { rows.new ≡ filled rows.old table.now n }
{
    for (k, row) in rows[..n].iter_mut().enumerate() {
        *row = row_at(table, k);
    }
}

// get_keys into the plain numbers of so many rows. It tells how many rows, or refuses.
fn keys_for(
    dir: &[u64],
    pool: &[u8],
    clock: u64,
    maximum: u64,
    room: usize,
    table: &mut [u64],
) -> Result<usize, Outcome>
    requires { length table.old ≡ 3072 }
    ensures { Told dir.now pool.now clock maximum room result table.new }
{
    checks::of_clock(dir, pool, clock)?;
    let end = 3 * room.min(1024); // no memory has more than 1,024 entries
    Ok(list_rows(dir, pool, clock, maximum, &mut table[..end]))
}

// How many rows are told: none with a refusal.
fn rows_told(told: Result<usize, Outcome>) -> usize
    ensures { result ≡ rows_told told }
{
    match told {
        Ok(n) => n,
        Err(_) => 0, // no row is filled
    }
}

// The answer that tells so many rows, or the refusal.
fn answer_told(told: Result<usize, Outcome>) -> Answer
    ensures { result ≡ answer_told told }
{
    match told {
        Ok(n) => Answer::plain(Outcome::Count(n as u64), 0),
        Err(refusal) => Answer::plain(refusal, 0),
    }
}

// get_keys into a lent table of rows, a row for each live entry, most recent first.
pub fn get_keys(dir: &[u64], pool: &[u8], clock: u64, maximum: u64, rows: &mut [Row]) -> Answer
    ensures { listing result rows.new ≡ get_keys_call dir.now pool.now clock maximum rows.old }
{
    let mut table = [0u64; 3072];
    let told = keys_for(dir, pool, clock, maximum, rows.len(), &mut table);
    fill_rows(rows, &table, rows_told(told));
    answer_told(told)
}
