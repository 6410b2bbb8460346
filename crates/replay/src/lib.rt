// Replay: what lines do to a lent memory, one after the other.
#![tactic(auto)]

ghost use Rattle.std.specs.Prelude.{◌+◌, ◌≤◌, ◌<◌, ◌^◌, ◌≡◌, length};
ghost use Rattle.rules.specs.Layout.{put};
ghost use Rattle.rules.specs.Replay.{room};
ghost use Rattle.replay_calls.specs.Lent.{left, Same};
ghost use Rattle.replay.specs.Progress.{Lined, Done};
ghost use Rattle.replay.specs.Whole.{held, Behind, LentGives, ReplayGives};

use replay_calls::Lent;

// Does one line, and writes its output at `at`, as that of the call with the number n. Answers where that ends.
fn do_line(memory: &mut Lent<'_>, n: u64, line: &[u8], out: &mut [u8], at: usize) -> usize
    requires { at + room memory.old.pool.now ≤ length out.old }
    ensures lined { Lined n line.now (left memory.old) out.old at (left memory.new) out.new result }
    ensures same { Same memory.old memory.new }
{
    let answer = memory.do_call(lines::parse(line));
    printing::write_line(out, at, n, answer, memory.bytes())
}

// How far lines are done: the number of the last one, the bytes of the input that they took, and the bytes of the output that are written.
#[derive(Clone, Copy, Debug, PartialEq, Eq)]
pub struct Progress {
    pub lines: u64,
    pub consumed: usize,
    pub written: usize,
}

// Does the lines of the input that have an end, one after the other, as long as the output has room, and says how far it came. `lines` are done before them.
pub fn run(memory: &mut Lent<'_>, lines: u64, input: &[u8], out: &mut [u8]) -> Progress
    requires input_bound { lines + length input.now < 2 ^ 64 }
    requires pool_in_bounds { room memory.old.pool.now ≤ length out.old }
    ensures done { Done (left memory.old) lines input.now out.old (left memory.new) result.lines result.consumed result.written out.new }
    ensures same { Same memory.old memory.new }
{
    let most = 160 + memory.pool.len();
    let mut done = Progress {
        lines,
        consumed: 0,
        written: 0,
    };
    while most <= out.len() - done.written {
        let end = scanning::find(input, done.consumed, b'\n');
        if end == input.len() {
            break;
        }
        let n = done.lines + 1;
        let written = do_line(memory, n, &input[done.consumed..end], out, done.written);
        done = Progress {
            lines: n,
            consumed: end + 1,
            written,
        };
    }
    done // at the end of a line
}

// Keeps the bytes of a line that has not ended, but no more than tell that it is over-long, and answers how many.
pub fn hold(kept: &mut [u8], rest: &[u8]) -> usize
    requires { 4097 ≤ length kept.old }
    ensures { (result ≤ 4097) × (result ≡ length (held rest.now)) × (kept.new ≡ put kept.old 0 (held rest.now)) }
{
    let count = rest.len().min(4097);
    kept[..count].copy_from_slice(&rest[..count]);
    count
}

// Does all lines of an input, also a last one that has no end, as long as the output has room.
fn run_all(memory: &mut Lent<'_>, input: &[u8], out: &mut [u8]) -> Progress
    requires { room memory.old.pool.now ≤ length out.old }
    ensures behind { Behind input.now out.old (left memory.old) (left memory.new) result.lines result.consumed result.written out.new }
    ensures same { Same memory.old memory.new }
{
    let done = run(memory, 0, input, out);
    if done.consumed == input.len() {
        return done;
    }
    if out.len() - done.written < 160 + memory.pool.len() {
        return done;
    }
    let last = done.lines + 1;
    let written = do_line(memory, last, &input[done.consumed..], out, done.written);
    Progress {
        lines: last,
        consumed: input.len(),
        written,
    }
}

// An output that has no room for the header and one line.
#[derive(Clone, Copy, Debug, PartialEq, Eq)]
pub struct OutputTooShort;

// Replays a whole input, in the lent memory as if no `fresh` had touched it: the header, and a line of output for each line, to the end of the input where the output has room. Where the output is too short, nothing changes.
pub fn replay_lent(
    memory: &mut Lent<'_>,
    input: &[u8],
    out: &mut [u8],
) -> Result<Progress, OutputTooShort>
    ensures gives { LentGives input.now (left memory.old) out.old result (left memory.new) out.new }
    ensures same { Same memory.old memory.new }
{
    if out.len() < 204 {
        return Err(OutputTooShort); // 44 bytes of header, 160 of a line
    }
    if out.len() - 204 < memory.pool.len() {
        return Err(OutputTooShort); // a text may be as long as the pool
    }
    memory.cells = 0;
    let begun = printing::write_header(out);
    let done = run_all(memory, input, &mut out[begun..]);
    Ok(Progress {
        written: begun + done.written,
        ..done
    })
}

// How far a whole input is replayed: the cells in use, those of the last `fresh` done, the number of lines done, the bytes of the input that they took, and the bytes of the output that are written.
#[derive(Clone, Copy, Debug, PartialEq, Eq)]
pub struct ReplayDone {
    pub cells: usize,
    pub lines: u64,
    pub consumed: usize,
    pub written: usize,
}

// The same on any two buffers, from a memory that no `fresh` has touched: they are lent for the replay, and their cells in use are told at its end.
pub fn replay(
    dir: &mut [u64],
    pool: &mut [u8],
    input: &[u8],
    out: &mut [u8],
) -> Result<ReplayDone, OutputTooShort>
    ensures { ReplayGives input.now dir.old pool.old out.old result dir.new pool.new out.new }
{
    let mut memory = Lent {
        dir,
        pool,
        cells: 0,
    };
    let done = replay_lent(&mut memory, input, out)?;
    Ok(ReplayDone {
        cells: memory.cells,
        lines: done.lines,
        consumed: done.consumed,
        written: done.written,
    })
}
