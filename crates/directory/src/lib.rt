// The directory's records, by index. Each change is one equation between the entries before and after; only the records concerned are moved.
#![tactic(auto)]

ghost use Rattle.std.specs.Prelude.{◌≡◌, ◌∷◌, map, ◌+◌, ◌*◌, ◌≤◌, ◌<◌, length, take, get_or};
ghost use Rattle.rules.specs.Layout.{words, encode, entry_at, entries_of, none, Dir, without, to_front, replace_at, put};
ghost use Rattle.rules.specs.Time.{with_expiry};

use rules::Entry;

// The entry whose words begin at p.
pub fn read(dir: &[u64], p: usize) -> Entry
    requires { p + 6 ≤ length dir.now }
    ensures { result ≡ entry_at dir.now p }
{
    Entry {
        expiry: dir[p],
        kind: dir[p + 1],
        flags: dir[p + 2],
        start: dir[p + 3],
        klen: dir[p + 4],
        vlen: dir[p + 5],
    }
}

// The words of e, from p on.
pub fn write(dir: &mut [u64], p: usize, e: Entry)
    requires { p + 6 ≤ length dir.old }
    ensures { dir.new ≡ put dir.old p (words e) }
{
    dir[p] = e.expiry;
    dir[p + 1] = e.kind;
    dir[p + 2] = e.flags;
    dir[p + 3] = e.start;
    dir[p + 4] = e.klen;
    dir[p + 5] = e.vlen;
}

// The number of entries.
pub fn count(dir: &[u64]) -> usize
    requires { Dir dir.now }
    ensures { result ≡ length (entries_of dir.now) }
{
    dir[1] as usize
}

// The entry at index i.
pub fn record_at(dir: &[u64], i: usize) -> Entry
    requires dir { Dir dir.now }
    requires i_in_bounds { i < length (entries_of dir.now) }
    ensures { result ≡ get_or (entries_of dir.now) i none }
{
    read(dir, 2 + 6 * i)
}

// Takes the entry at i out.
pub fn remove_at(dir: &mut [u64], i: usize)
    requires dir { Dir dir.old }
    requires i_in_bounds { i < length (entries_of dir.old) }
    ensures { dir.new ≡ encode (length dir.old) (without i (entries_of dir.old)) }
{
    let left = dir[1] - 1;
    dir[1] = left;
    words::close_gap(dir, 2 + 6 * i, 6, 6 * (left as usize - i));
}

// Takes the entry at i out and puts e in front.
pub fn put_front(dir: &mut [u64], i: usize, e: Entry)
    requires dir { Dir dir.old }
    requires i_in_bounds { i < length (entries_of dir.old) }
    ensures { dir.new ≡ encode (length dir.old) (to_front i e (entries_of dir.old)) }
{
    words::move_up(dir, 2, 6, 6 * i);
    write(dir, 2, e); // where the first one was
}

// Puts e in front of all entries. There is an unused record.
pub fn push_front(dir: &mut [u64], e: Entry)
    requires dir { Dir dir.old }
    requires dir_in_bounds { 8 + 6 * length (entries_of dir.old) ≤ length dir.old }
    ensures { dir.new ≡ encode (length dir.old) (e ∷ entries_of dir.old) }
{
    let n = dir[1];
    dir[1] = n + 1;
    words::move_up(dir, 2, 6, 6 * n as usize);
    write(dir, 2, e); // in front
}

// Keeps the first k entries.
pub fn truncate(dir: &mut [u64], k: usize)
    requires dir { Dir dir.old }
    requires k_in_bounds { k ≤ length (entries_of dir.old) }
    ensures { dir.new ≡ encode (length dir.old) (take k (entries_of dir.old)) }
{
    let n = dir[1] as usize;
    dir[1] = k as u64;
    words::fill(dir, 2 + 6 * k, 6 * (n - k), 0);
}

// Puts e in the place of the entry at i.
pub fn replace_at(dir: &mut [u64], i: usize, e: Entry)
    requires dir { Dir dir.old }
    requires i_in_bounds { i < length (entries_of dir.old) }
    ensures { dir.new ≡ encode (length dir.old) (replace_at i e (entries_of dir.old)) }
{
    write(dir, 2 + 6 * i, e);
}

// Gives every entry that expiry.
pub fn expire_all(dir: &mut [u64], expiry: u64)
    requires { Dir dir.old }
    ensures { dir.new ≡ encode (length dir.old) (map (with_expiry expiry) (entries_of dir.old)) }
{
    for i in 0..count(dir) {
        dir[2 + 6 * i] = expiry;
    }
}
