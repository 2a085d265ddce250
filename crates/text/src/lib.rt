// Lines of text. Bytes, numbers, classes and refusals are appended to a line, and a line is written to any writer, as to
// standard output. A buffer of bytes is filled from any reader.
#![tactic(auto)]

ghost use Rattle.std.specs.Prelude.{◌≤◌, ◌<◌, min, ◌≡◌, [], ◌∷◌, ◌++◌, length, take, IfOk, IfErr, OnOk};
ghost use Rattle.std.specs.Io.{ReadsAtMost};
ghost use Rattle.std.specs.Io.KnownBytes.{Appends, Consumes, IsAtEnd};
ghost use Rattle.text.specs.Failures.{AppendsFront, ConsumesFront};
ghost use Rattle.text.specs.{Line.line_room, Line.with_bytes, Line.in_line, Text.digit, Text.digits, Text.decimal, Text.hexadecimal, Text.row_text, Text.class_text, Text.refusal_text};

use std::io;
use std::io::{Read, Write};

// The most digits of a number of 64 bits in decimal.
const DECIMAL_DIGITS: usize = 20;

// The most digits of a number of 64 bits in hexadecimal.
const HEXADECIMAL_DIGITS: usize = 16;

// The number of bytes that a line has room for. That every line of the walk report fits is proved in report_theorems.
pub const LINE: usize = 320;

// A line: len bytes, and 0 after them. What a full line is given more is dropped. Memory is fixed, so the bytes stand in
// an array with their length beside.
// It has no invariant: its definitions take any length, by `take`.
#[derive(Clone, Copy)]
pub struct Line {
    pub len: usize,
    pub bytes: [u8; LINE],
}

// A push says what it appends. `write!` may fail, and says nothing after an Err, so a line is no `fmt::Write`.
impl Line {
    // The empty line.
    #[tactic(auto, unfolding(crate::specs::Line::in_line))]
    pub fn new() -> Line
        ensures { result ≡ in_line [] }
    {
        Line {
            len: 0,
            bytes: [0; LINE],
        }
    }

    // The bytes of the line.
    pub fn as_slice(&self) -> &[u8]
        ensures { result.now ≡ take self.now.len self.now.bytes }
    {
        &self.bytes[..self.len.min(LINE)]
    }

    // Appends a byte; where the line has no room, it stays as it was.
    #[tactic(auto, unfolding(crate::specs::Line::with_byte, crate::specs::Line::with_bytes))]
    pub fn push(&mut self, b: u8)
        ensures { self.new ≡ with_bytes self.old (b ∷ []) }
    {
        if self.len < self.bytes.len() {
            self.bytes[self.len] = b;
            self.len += 1;
        }
    }

    // Appends bytes.
    #[tactic(auto, using(crate::proofs::Appending::none, crate::proofs::Appending::both, std::proofs::lemmas::List::take_more))]
    pub fn push_bytes(&mut self, bytes: &[u8])
        ensures { self.new ≡ with_bytes self.old bytes.now }
    {
        for b in bytes {
            self.push(*b);
        }
    }

    // Appends a number of at most `most` digits in a base, without leading zeros.
    // The digits are the code's own: `{n:x}` needs `write!`, and std's `InlineText` may cut a text to end in dots.
    fn push_digits(&mut self, base: u64, most: usize, n: u64)
        requires { (2 ≤ base) × (base ≤ 16) }
        ensures { self.new ≡ with_bytes self.old (digits base most n) }
    {
        if most == 0 {
            return;
        }
        if base <= n {
            self.push_digits(base, most - 1, n / base);
        }
        self.push(digit(n % base));
    }

    // Appends a number in decimal.
    #[tactic(auto, unfolding(crate::specs::Text::decimal))]
    pub fn push_decimal(&mut self, n: u64)
        ensures { self.new ≡ with_bytes self.old (decimal n) }
    {
        self.push_digits(10, DECIMAL_DIGITS, n);
    }

    // Appends a number in hexadecimal.
    #[tactic(auto, unfolding(crate::specs::Text::hexadecimal))]
    pub fn push_hexadecimal(&mut self, n: u64)
        ensures { self.new ≡ with_bytes self.old (hexadecimal n) }
    {
        self.push_digits(16, HEXADECIMAL_DIGITS, n);
    }

    // Appends the coefficients of a row below x^n, highest power first, commas between.
    pub fn push_row(&mut self, n: u64, row: [u64; 3])
        ensures { self.new ≡ with_bytes self.old (row_text n row) }
    {
        if n > 2 {
            self.push_hexadecimal(row[2]);
            self.push(b',');
        }
        if n > 1 {
            self.push_hexadecimal(row[1]);
            self.push(b',');
        }
        if n > 0 {
            self.push_hexadecimal(row[0]);
        }
    }

    // Appends a class: degree, u and v with colons between, of u and v the coefficients below x^n.
    #[tactic(auto, using(crate::proofs::Appending::both), unfolding(crate::specs::Text::class_text))]
    pub fn push_class(&mut self, degree: u64, u: [u64; 3], v: [u64; 3], n: u64)
        ensures { self.new ≡ with_bytes self.old (class_text degree u v n) }
    {
        self.push_decimal(degree);
        self.push(b':');
        self.push_row(n, u);
        self.push(b':');
        self.push_row(n, v);
    }

    // Appends `refused` and the number.
    #[tactic(auto, using(crate::proofs::Appending::both), unfolding(crate::specs::Text::refusal_text))]
    pub fn push_refusal(&mut self, n: u32)
        ensures { self.new ≡ with_bytes self.old (refusal_text n) }
    {
        self.push_bytes(b"refused ");
        self.push_decimal(u64::from(n));
    }

    // Writes the line and answers how many bytes it has. Where a write fails, a front of the line was written.
    pub fn write_to<W: Write>(&self, out: &mut W) -> io::Result<usize>
        ensures count { IfOk result (λ n. n ≡ min self.now.len line_room) }
        ensures written { OnOk result (Appends (W.contents out.old) (W.contents out.new) (take self.now.len self.now.bytes)) }
        ensures failed { IfErr result (λ _. AppendsFront (W.contents out.old) (W.contents out.new) (take self.now.len self.now.bytes)) }
    {
        let bytes = self.as_slice();
        write_whole(out, bytes)?;
        Ok(bytes.len())
    }
}

// A digit as a byte: 0 to 9, then a to f. std's `char::from_digit` gives an Option of a char, to be taken apart again.
#[tactic(auto, unfolding(crate::specs::Text::digit))]
fn digit(n: u64) -> u8
    requires { n < 16 }
    ensures { result ≡ digit n }
{
    match n as u8 {
        d @ 0..=9 => b'0' + d,
        d => b'a' + (d - 10),
    }
}

// Writes all of some bytes. Where a write fails or takes nothing, a front of them was written.
// The loop is the code's own, since std's `write_all` says little of what a failed write leaves.
pub fn write_whole<W: Write>(out: &mut W, bytes: &[u8]) -> io::Result<()>
    ensures written { OnOk result (Appends (W.contents out.old) (W.contents out.new) bytes.now) }
    ensures failed { IfErr result (λ _. AppendsFront (W.contents out.old) (W.contents out.new) bytes.now) }
{
    let mut done = 0;
    while done < bytes.len() {
        let n = out.write(&bytes[done..])?;
        if n == 0 {
            return Err(io::Error::from(io::ErrorKind::WriteZero));
        }
        done += n;
    }
    Ok(())
}

// Reads until the buffer is full or the input ends, and answers how many bytes it put at the buffer's start. Where a
// read fails, what was read before stands there.
// The loop is the code's own, since std's `read_exact` says little of what a failed read leaves.
pub fn read_full<R: Read>(input: &mut R, buf: &mut [u8]) -> io::Result<usize>
    ensures count { ReadsAtMost result buf.new }
    ensures taken { IfOk result (λ n. Consumes (R.remaining input.old) (R.remaining input.new) (take n buf.new)) }
    ensures end { IfOk result (λ n. n < length buf.new → IsAtEnd (R.remaining input.new)) }
    ensures failed { IfErr result (λ _. ConsumesFront (R.remaining input.old) (R.remaining input.new) buf.new) }
{
    let mut done = 0;
    while done < buf.len() {
        let n = input.read(&mut buf[done..])?;
        if n == 0 {
            break;
        }
        done += n;
    }
    Ok(done)
}
