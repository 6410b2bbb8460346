// The output lines of replay: the header, and a line for each call.
#![tactic(auto)]

ghost use Rattle.std.specs.Prelude.{◌≡◌, ◌+◌, ◌≤◌, ◌<◌, length, [], ◌∷◌};
ghost use Rattle.rules.specs.Layout.{put};
ghost use Rattle.rules.specs.Replay.{value_shown, line_written, header};
ghost use Rattle.printing.specs.Printable.{TextInside};
ghost use Rattle.printing.specs.Columns.{ToldInside, told_fields, ended, three_ended};
ghost use Rattle.printing.specs.Wrote.{Writes};

use rules::Answer;
use telling::Told;

// An output, and the place in it where the next byte goes.
#[derive(Drop)]
struct Output<'a> {
    bytes: &'a mut [u8],
    at: usize,
}

impl Output<'_> {
    fn put_byte(&mut self, byte: u8)
        requires { self.old.at < length self.old.bytes.now }
        ensures writes { Writes self.old (byte ∷ []) self.new }
        ensures same { self.new.bytes.ghost_name ≡ self.old.bytes.ghost_name }
    {
        self.bytes[self.at] = byte;
        self.at += 1;
    }

    fn put_text(&mut self, text: &[u8])
        requires { self.old.at + length text.now ≤ length self.old.bytes.now }
        ensures writes { Writes self.old text.now self.new }
        ensures same { self.new.bytes.ghost_name ≡ self.old.bytes.ghost_name }
    {
        words::copy_in(self.bytes, self.at, text);
        self.at += text.len();
    }

    // A number, and the byte that ends its column.
    fn put_column(&mut self, n: u64, end: u8)
        requires { self.old.at + 21 ≤ length self.old.bytes.now }
        ensures writes { Writes self.old (ended n end) self.new }
        ensures same { self.new.bytes.ghost_name ≡ self.old.bytes.ghost_name }
    {
        self.at = decimals::write_number(self.bytes, self.at, n);
        self.put_byte(end);
    }

    // Three columns of numbers, the last ended by `end`. A line has three before its value and three behind it.
    fn put_columns(&mut self, a: u64, b: u64, c: u64, end: u8)
        requires { self.old.at + 63 ≤ length self.old.bytes.now }
        ensures writes { Writes self.old (three_ended a b c end) self.new }
        ensures same { self.new.bytes.ghost_name ≡ self.old.bytes.ghost_name }
    {
        self.put_column(a, b'\t');
        self.put_column(b, b'\t');
        self.put_column(c, end);
    }

    // The value that is told: a minus for none, a text as its bytes, else a number.
    fn put_value(&mut self, told: Told, pool: &[u8])
        requires told_inside { ToldInside told pool.now }
        requires pool_in_bounds { self.old.at + (21 + length pool.now) ≤ length self.old.bytes.now }
        ensures writes { Writes self.old (value_shown (told_fields told) pool.now) self.new }
        ensures same { self.new.bytes.ghost_name ≡ self.old.bytes.ghost_name }
    {
        match told.kind {
            0 => self.put_byte(b'-'),
            4 => {
                let start = told.offset as usize;
                let size = told.size as usize;
                self.put_text(&pool[start..start + size]);
            }
            _ => {
                self.at = decimals::write_signed(self.bytes, self.at, told.bits.cast_signed());
            }
        }
    }
}

// Writes the output line of the call with the number n at `at`, and answers where it ends.
pub fn write_line(out: &mut [u8], at: usize, n: u64, answer: Answer, pool: &[u8]) -> usize
    requires text_inside { TextInside answer pool.now }
    requires pool_in_bounds { at + (160 + length pool.now) ≤ length out.old }
    ensures { (out.new ≡ put out.old at (line_written n answer pool.now)) × (result ≡ at + length (line_written n answer pool.now)) }
{
    let told = telling::tell(answer.outcome);
    let rounds = answer.rounds as u64;
    let removed = answer.removed as u64;
    let mut line = Output { bytes: out, at };
    line.put_columns(n, told.answer, told.kind, b'\t');
    line.put_value(told, pool);
    line.put_byte(b'\t');
    line.put_columns(told.flags, rounds, removed, b'\n');
    line.at
}

// Writes the header at the beginning, and answers where it ends.
pub fn write_header(out: &mut [u8]) -> usize
    requires { 160 ≤ length out.old }
    ensures { (out.new ≡ put out.old 0 header) × (result ≡ length header) }
{
    let names = *b"call\tanswer\tkind\tvalue\tflags\trounds\tremoved\n";
    words::copy_in(out, 0, &names);
    names.len()
}
