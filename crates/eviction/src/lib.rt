// Which entries have to leave for a new one, and where it goes. It is all decided before anything moves.
#![tactic(auto)]

ghost use Rattle.std.specs.Prelude.{◌≡◌, true, reverse, ◌+◌, ◌≤◌, ◌<◌, length};
ghost use Rattle.rules.specs.Layout.{cells_of, need, entries_of, Dir, memory_of};
ghost use Rattle.rules.specs.Recency.{line, sweep_count};
ghost use Rattle.eviction.specs.Swept.{Swept};
ghost use Rattle.rules.specs.Soundness.{sound};
ghost use Rattle.eviction.specs.Choice.{Chosen};
ghost use Rattle.eviction.specs.Turns.{next_turn};
ghost use Rattle.laws.specs.Marks.{Written};
ghost use Rattle.eviction.specs.Marking.{Blank, Marked};
ghost use Rattle.eviction.specs.Leaving.{Leaves};

// How many entries the sweep removes.
pub fn sweep_count(dir: &[u64], pool: &[u8], clock: u64) -> usize
    requires { sound dir.now pool.now ≡ true }
    ensures { result ≡ sweep_count clock (memory_of dir.now pool.now) }
{
    let n = directory::count(dir);
    if n < 1 {
        return 0;
    }
    if !time::is_dead(directory::record_at(dir, n - 1), clock) {
        return 0; // the first in line is live
    }
    if n < 2 {
        return 1;
    }
    if !time::is_dead(directory::record_at(dir, n - 2), clock) {
        return 1;
    }
    2 // both are dead
}

// The sweep: up to two dead entries leave at the long-unused end, and it stops at the first live one. Answers how many left.
pub fn sweep(dir: &mut [u64], pool: &mut [u8], clock: u64) -> usize
    requires { sound dir.old pool.old ≡ true }
    ensures { Swept clock dir.old pool.old result dir.new pool.new }
{
    let n = sweep_count(dir, pool, clock);
    memory::remove_oldest(dir, pool, n);
    n
}

// The rounds begun, 31 for any more, and how many dead entries the last of them still takes.
#[derive(Clone, Copy, Debug, PartialEq, Eq)]
struct Turn {
    round: u8,
    more: u8,
}

// The turn of the next entry in the line: a dead one may go with the round, any other begins one.
fn next_turn(turn: Turn, dead: bool) -> Turn
    ensures { result ≡ next_turn dead turn }
{
    if dead && 0 < turn.more {
        return Turn {
            more: turn.more - 1,
            ..turn
        };
    }
    Turn {
        round: turn.round.saturating_add(1).min(31),
        more: 2,
    }
}

// Writes the mark into the cells of an entry of `size` bytes. Most entries have one.
fn mark_entry(marks: &mut [u8], start: usize, size: usize, mark: u8)
    requires { (0 < size) × (length marks.old ≤ 1024) × (start + need size ≤ length marks.old) }
    ensures { Written marks.old marks.new start (start + need size) mark }
{
    marks[start] = mark;
    if size <= 32 {
        return;
    }
    words::fill(marks, start + 1, (size + 31) / 32 - 1, mark);
}

// Marks each cell with the round in which its entry leaves, 31 for any later one. One pass, from the longest unused entry on.
fn mark_line(marks: &mut [u8], dir: &[u64], clock: u64)
    requires { Blank marks.old dir.now }
    ensures { Marked clock (length marks.old) (reverse (entries_of dir.now)) marks.new }
{
    let mut turn = Turn { round: 0, more: 0 };
    for i in (0..directory::count(dir)).rev() {
        let e = directory::record_at(dir, i);
        turn = next_turn(turn, time::is_dead(e, clock));
        mark_entry(
            marks,
            e.start as usize,
            (e.klen + e.vlen) as usize,
            turn.round,
        );
    }
}

// How many entries leave, and whether one of them is live.
#[derive(Clone, Copy, Debug, PartialEq, Eq)]
struct Leavers {
    gone: usize,
    live: bool,
}

// The entries of the first `limit` rounds, or all of them if there are fewer rounds. Only those are walked.
fn find_leavers(dir: &[u64], clock: u64, limit: usize) -> Leavers
    requires dir { Dir dir.now }
    requires limit_bound { limit ≤ 30 }
    ensures { Leaves clock limit (reverse (entries_of dir.now)) result.gone result.live }
{
    let n = directory::count(dir);
    let mut turn = Turn { round: 0, more: 0 };
    let mut live = false;
    for i in (0..n).rev() {
        let dead = time::is_dead(directory::record_at(dir, i), clock);
        turn = next_turn(turn, dead);
        if limit < usize::from(turn.round) {
            return Leavers {
                gone: n - 1 - i,
                live,
            };
        }
        live |= !dead;
    }
    Leavers { gone: n, live }
}

// Where a new entry goes, and what the rounds take that make room for it: how many run, how many entries go, and whether one of them is live.
#[derive(Clone, Copy, Debug, PartialEq, Eq)]
pub struct Choice {
    pub start: usize,
    pub ran: usize,
    pub gone: usize,
    pub live: bool,
}

// The place of fewest rounds, `most` at the most, and of lowest start, if there is one.
pub fn choose(dir: &[u64], pool: &[u8], clock: u64, need: usize, most: usize) -> Option<Choice>
    requires pool_value { sound dir.now pool.now ≡ true }
    requires need_nonzero { (0 < need) × (most ≤ 30) }
    ensures { Chosen clock (cells_of pool.now) need most (line (memory_of dir.now pool.now)) result }
{
    let cells = pool.len() / 32;
    let mut marks = [0u8; 1024];
    mark_line(&mut marks[..cells], dir, clock);
    let place = placement::find_place(&marks[..cells], need, most)?;
    let left = find_leavers(dir, clock, place.limit);
    Some(Choice {
        start: place.start,
        ran: place.limit,
        gone: left.gone,
        live: left.live,
    })
}
