// Replays the lines of standard input, or of the files named as arguments, and writes the output to standard output. Lines are read in pieces, so that an input may have any size.
#![tactic(auto)]

ghost use Rattle.std.specs.Prelude.{◌≡◌, ◌+◌, ◌≤◌, ◌<◌, ◌^◌, true, length, take, IfOk, OnOk};
ghost use Rattle.std.specs.Io.KnownBytes.{Appends};
ghost use Rattle.rules.specs.Replay.{header};
ghost use Rattle.rules.specs.Soundness.{every};
ghost use Rattle.scanning.specs.Until.{other};
ghost use Rattle.replay.specs.Whole.{held};
ghost use Rattle.replay_calls.specs.Lent.{left};
ghost use Rattle.replay_main.specs.Rest.{IsRest};
ghost use Rattle.replay_main.specs.Wrote.{Wrote};

use replay_calls::Lent;
use std::env::{Env, FillError};
use std::fs::Files;
use std::io::{Error, ErrorKind, Print, Read, Write};
use std::{fs, io};

// No input has so many lines; with fewer, the count of lines has room for a piece of input more.
const LINES: u64 = 1 << 63;

// What ends a replay before the end of its input.
#[derive(Debug, Drop)]
enum Failure {
    Input(Error),
    Output(Error),
}

// What comes next of an input.
#[derive(Clone, Copy, Debug, PartialEq, Eq)]
enum Next {
    Piece,
    End,
}

// Says on standard error what failed, and why. Where that cannot be written either, there is nobody to tell.
fn fail<E: Print>(errors: &E, what: &[u8], why: Error) {
    let _ = errors.write_all(what);
    let _ = errors.println(format_args!(": {why}"));
}

// ---- lines

// Where lines are done: the output, the memory, room for what is written next, and the number of lines done.
#[derive(Drop)]
struct Lines<'m, W> {
    output: W,
    memory: Lent<'m>,
    out: [u8; 65536],
    count: u64,
    ghost room: { length memory.pool.now ≤ 32768 },
}

impl<'m, W: Write> Lines<'m, W> {
    fn new(output: W, memory: Lent<'m>) -> Self
        requires { length memory.pool.now ≤ 32768 }
        ensures { result.count ≡ 0 }
    {
        Lines {
            output,
            memory,
            out: [0; 65536],
            count: 0,
        }
    }

    // Writes the first bytes of `out` to the output.
    fn write_out(&mut self, count: usize) -> io::Result<()>
        requires { count ≤ 65536 }
        ensures written { OnOk result (Appends (W.contents self.old.output) (W.contents self.new.output) (take count self.old.out)) }
        ensures memory_stays { self.new.memory ≡ self.old.memory }
        ensures out_stays { self.new.out ≡ self.old.out }
        ensures count_stays { self.new.count ≡ self.old.count }
    {
        self.output.write_all(&self.out[..count])
    }

    // Writes the header of the output.
    fn begin(&mut self) -> io::Result<()>
        ensures { OnOk result (Appends (W.contents self.old.output) (W.contents self.new.output) header) }
    {
        let begun = printing::write_header(&mut self.out);
        self.write_out(begun)
    }

    // Does the lines of a piece of input, writes their output, and answers what is left of the piece, in which no line ends.
    fn pump<'a>(&mut self, input: &'a [u8]) -> io::Result<&'a [u8]>
        requires { self.old.count + length input.now < 2 ^ 64 }
        ensures rest_in_bounds { IfOk result (λ rest. length rest.now ≤ length input.now) }
        ensures rest_is_last { IfOk result (λ rest. IsRest rest.now input.now) }
        ensures rest_has_no_end { IfOk result (λ rest. every (other 10) rest.now ≡ true) }
        ensures count_bound { self.new.count ≤ self.old.count + length input.now }
        ensures wrote { IfOk result (λ rest. Wrote (W.contents self.old.output) (W.contents self.new.output) self.old.count input.now (left self.old.memory) self.new.count rest.now (left self.new.memory)) }
    {
        let mut rest = input;
        while !rest.is_empty() {
            let done = replay::run(&mut self.memory, self.count, rest, &mut self.out);
            self.count = done.lines;
            rest = &rest[done.consumed..];
            self.write_out(done.written)?;
            if 160 + self.memory.pool.len() <= self.out.len() - done.written {
                break;
            }
        }
        Ok(rest)
    }
}

// ---- pieces of input

// The first bytes of a line that waits for its end, no more than tell that it is over-long.
#[derive(Drop)]
struct Waiting {
    bytes: [u8; 4097],
    count: usize,
    ghost count_bound: { count ≤ 4097 },
}

impl Waiting {
    // Keeps what is left of a piece of input.
    fn hold(&mut self, rest: &[u8])
        ensures { take self.new.count self.new.bytes ≡ held rest.now }
    {
        self.count = replay::hold(&mut self.bytes, rest);
    }

    // Puts what is kept at the beginning of a piece of input, and answers its length.
    fn put_in(&self, piece: &mut [u8]) -> usize
        requires { 4097 ≤ length piece.old }
        ensures count_is { result ≡ self.now.count }
        ensures piece_begins { take result piece.new ≡ take self.now.count self.now.bytes }
    {
        piece[..self.count].copy_from_slice(&self.bytes[..self.count]);
        self.count
    }
}

// Replays inputs, piece by piece.
#[derive(Drop)]
struct Replay<'m, W> {
    lines: Lines<'m, W>,
    waiting: Waiting,
    piece: [u8; 65536],
}

impl<'m, W: Write> Replay<'m, W> {
    fn new(output: W, memory: Lent<'m>) -> Self
        requires { length memory.pool.now ≤ 32768 }
    {
        Replay {
            lines: Lines::new(output, memory),
            waiting: Waiting {
                bytes: [0; 4097],
                count: 0,
            },
            piece: [0; 65536],
        }
    }

    // Does the lines of the first n bytes of the piece, and keeps what is left of them.
    fn take_piece(&mut self, n: usize) -> Result<(), Failure>
        requires n_bound { self.old.lines.count + n < 2 ^ 64 }
        requires n_in_bounds { n ≤ 65536 }
    {
        let rest = self.lines.pump(&self.piece[..n]).map_err(Failure::Output)?;
        self.waiting.hold(rest);
        Ok(())
    }

    // Reads once, behind what is kept of a line, and does the lines that came to an end.
    fn read_some<R: Read>(&mut self, from: &mut R) -> Result<Next, Failure> {
        if LINES <= self.lines.count {
            return Ok(Next::End);
        }
        let held = self.waiting.put_in(&mut self.piece);
        let more = from.read(&mut self.piece[held..]).map_err(Failure::Input)?;
        if more == 0 {
            return Ok(Next::End);
        }
        self.take_piece(held + more)?;
        Ok(Next::Piece)
    }

    // A last line that has no end is done as if it had one.
    fn read_last(&mut self) -> Result<(), Failure> {
        if LINES <= self.lines.count {
            return Ok(());
        }
        let held = self.waiting.put_in(&mut self.piece);
        if held == 0 {
            return Ok(());
        }
        self.piece[held] = b'\n';
        self.take_piece(held + 1)
    }

    // Reads an input to its end, piece by piece, a last line that has no end included. A proved loop has to end, and nothing says that an input does: so the pieces are counted, up to a number that no run reaches.
    fn read_all<R: Read>(&mut self, from: &mut R) -> Result<(), Failure> {
        self.waiting.count = 0;
        for _ in 0..u64::MAX {
            if self.read_some(from)? == Next::End {
                break;
            }
        }
        self.read_last()
    }

    // Replays an input. Where it cannot be read on, that is said, and a line that was cut off is not done. Memory and numbers go on from the input before it.
    fn replay_input<R: Read, E: Print>(
        &mut self,
        from: &mut R,
        name: &[u8],
        errors: &E,
    ) -> io::Result<()> {
        match self.read_all(from) {
            Ok(()) => Ok(()),
            Err(Failure::Output(why)) => Err(why),
            Err(Failure::Input(why)) => {
                fail(errors, name, why);
                Ok(())
            }
        }
    }

    // Replays the file that an argument names.
    fn replay_file<S: Env + Files, E: Print>(
        &mut self,
        rt: &S,
        argument: usize,
        errors: &E,
    ) -> io::Result<()> {
        let mut path = [0; 4096];
        let length = match read_name(rt, argument, &mut path) {
            Ok(length) => length,
            Err(why) => {
                fail(errors, b"file name", why);
                return Ok(());
            }
        };
        let name = &path[..length];
        match open(rt, name) {
            Ok(mut file) => self.replay_input(&mut file, name, errors),
            Err(why) => {
                fail(errors, name, why);
                Ok(())
            }
        }
    }
}

// ---- arguments

// How many arguments the program was started with, its own name among them.
fn argument_count<S: Env>(rt: &S) -> usize {
    (0..usize::MAX)
        .find(|i| matches!(rt.arg(*i, &mut []), Err(FillError::NotPresent)))
        .unwrap_or(usize::MAX)
}

// Puts an argument at the beginning of `name`, and answers its length. What failed is worded as the system words it.
fn read_name<S: Env>(rt: &S, argument: usize, name: &mut [u8]) -> io::Result<usize>
    ensures { IfOk result (λ n. n ≤ length name.new) }
{
    rt.arg(argument, name).map_err(|why| match why {
        FillError::TooLong => Error::new(ErrorKind::InvalidFilename, "File name too long"),
        FillError::NotPresent => Error::new(ErrorKind::InvalidInput, "Invalid argument"),
    })
}

// Opens the file of a name. A path of std is text, so that a name which is none cannot be opened.
fn open<S: Files>(rt: &S, name: &[u8]) -> io::Result<S::File> {
    let Ok(path) = str::from_utf8(name) else {
        return Err(Error::new(ErrorKind::InvalidFilename, "File name is not UTF-8"));
    };
    fs::open(rt, path)
}

// ---- the program

// Writes the header, and replays standard input, or the files that the arguments name, one after the other.
fn replay_inputs<W: Write, E: Print>(
    rt: &HostRuntime,
    replay: &mut Replay<'_, W>,
    errors: &E,
) -> io::Result<()> {
    replay.lines.begin()?;
    let count = argument_count(rt);
    if count < 2 {
        return replay.replay_input(&mut rt.stdin(), b"standard input", errors);
    }
    for i in 1..count {
        replay.replay_file(rt, i, errors)?;
    }
    Ok(())
}

fn main(rt: HostRuntime) {
    let mut dir = [0; 6146];
    let mut pool = [0; 32768];
    // No `fresh` has touched it.
    let memory = Lent {
        dir: &mut dir,
        pool: &mut pool,
        cells: 0,
    };
    let mut replay = Replay::new(rt.stdout(), memory);
    let errors = rt.stderr();
    if let Err(why) = replay_inputs(&rt, &mut replay, &errors) {
        fail(&errors, b"standard output", why);
    }
}
