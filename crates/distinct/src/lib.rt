// Whether all keys of a sound memory differ. Entries are chained by the hash of their key, so that a key is compared only with those in its own bucket.
#![tactic(auto)]

ghost use Rattle.std.specs.Prelude.{◌≡◌, ◌+◌, ◌<◌, ◌≤◌, true, length, replicate};
ghost use Rattle.rules.specs.Layout.{entries_of};
ghost use Rattle.rules.specs.Soundness.{sound, keys_differ};
ghost use Rattle.distinct.specs.Hash.{bucket_of};
ghost use Rattle.distinct.specs.Chains.{link_of, key_at, bucket_at, under, Link, Linked};

// The entry that a stored link leads to: one is stored as its index and 1, so that a table of zeros leads past all entries.
fn link(x: u16) -> usize
    ensures { result ≡ link_of x }
{
    x.wrapping_sub(1) as usize
}

// The bucket of a key: one of 2,048, by a hash of all its bytes, four at a time.
fn bucket(key: &[u8]) -> usize
    requires { length key.now ≤ 65535 }
    ensures { (result ≡ bucket_of key.now) × (result < 2048) }
{
    let mut h: u64 = 0;
    let mut i = 0;
    while i + 4 <= key.len() {
        h = (31 * h + words::load4(key, i)) % 4294967296;
        i += 4;
    }
    while i < key.len() {
        h = (31 * h + words::wide(key[i])) % 4294967296;
        i += 1;
    }
    (2654435761 * h / 2097152 % 2048) as usize
}

// The key of the entry at i, a part of the pool.
fn key_at<'a>(dir: &[u64], pool: &'a [u8], i: usize) -> &'a [u8]
    requires pool_value { sound dir.now pool.now ≡ true }
    requires i_in_bounds { i < length (entries_of dir.now) }
    ensures { result.now ≡ key_at dir.now pool.now i }
{
    let e = directory::record_at(dir, i);
    let at = 32 * e.start as usize;
    &pool[at..at + e.klen as usize]
}

// The bucket of the key of the entry at i.
fn bucket_at(dir: &[u64], pool: &[u8], i: usize) -> usize
    requires pool_value { sound dir.now pool.now ≡ true }
    requires i_in_bounds { i < length (entries_of dir.now) }
    ensures { (result ≡ bucket_at dir.now pool.now i) × (result < 2048) }
{
    bucket(key_at(dir, pool, i))
}

// An entry behind that at i has its key. Only those of its bucket are looked at: `first`, and from there by the links.
fn key_again(dir: &[u64], pool: &[u8], table: &[u16], i: usize, first: usize) -> bool
    requires pool_value { sound dir.now pool.now ≡ true }
    requires i_in_bounds { i < length (entries_of dir.now) }
    requires link { Link dir.now pool.now (bucket_at dir.now pool.now i) (i + 1) first }
    requires linked { Linked dir.now pool.now table.now (i + 1) }
    ensures { result ≡ under dir.now pool.now (key_at dir.now pool.now i) (i + 1) }
{
    let n = directory::count(dir);
    let key = key_at(dir, pool, i);
    let mut j = first;
    while j < n {
        if words::equal(key_at(dir, pool, j), key) {
            return true;
        }
        j = link(table[2048 + j]);
    }
    false
}

// All keys differ. From the last entry to the first: the table, empty at first, has the chains of the entries behind.
fn differ(table: &mut [u16], dir: &[u64], pool: &[u8]) -> bool
    requires pool_value { sound dir.now pool.now ≡ true }
    requires table_value { table.old ≡ replicate 3072 0 }
    ensures { result ≡ keys_differ pool.now (entries_of dir.now) }
{
    for i in (0..directory::count(dir)).rev() {
        let b = bucket_at(dir, pool, i);
        let first = table[b];
        if key_again(dir, pool, table, i, link(first)) {
            return false;
        }
        table[2048 + i] = first;
        table[b] = (i + 1) as u16;
    }
    true
}

// All keys of a sound memory differ. The table has a head for each of 2,048 buckets, and then a link for each of 1,024 entries.
pub fn keys_differ(dir: &[u64], pool: &[u8]) -> bool
    requires { sound dir.now pool.now ≡ true }
    ensures { result ≡ keys_differ pool.now (entries_of dir.now) }
{
    if directory::count(dir) < 2 {
        return true;
    }
    let mut table = [0u16; 3072];
    differ(&mut table, dir, pool)
}
