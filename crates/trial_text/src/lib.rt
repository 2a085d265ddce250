// The cases that the trial programs read from standard input, and the loop that answers them.
// A case is a byte for the call, a byte for the degree, and numbers of eight bytes each, high byte first.
#![tactic(auto)]

ghost use Rattle.std.specs.Prelude.{◌≤◌, ◌<◌, ◌≡◌, ◌+◌, ◌*◌, get_or, length, take, IfOk, IfErr, OnOk, ℕ, List, Option};
ghost use Rattle.std.specs.Io.{ReadsAtMost};
ghost use Rattle.std.specs.Io.KnownBytes.{Appends, Consumes, IsAtEnd};
ghost use Rattle.text.specs.Failures.{AppendsFront, ConsumesFront};
ghost use Rattle.jacobian.specs.Curves.{curve_with};
ghost use Rattle.trial_text.specs.Runs.{HasRoom, line_with, RanByTexts};
ghost use Rattle.trial_text.specs.Cases.{eight_bytes, number_at, numbers_from, row_at, class_at, cut_short, cut_short_line};

use jacobian::{Class, Curve};
use std::io;
use std::io::{Read, Write};
use text::Line;

// A case. A byte that it does not have counts as 0.
#[derive(Clone, Copy)]
pub struct Case<'a> {
    pub bytes: &'a [u8],
}

impl Case<'_> {
    // The byte for the call.
    pub fn call(&self) -> u8
        ensures { result ≡ get_or self.now.bytes.now 0 0 }
    {
        self.byte(0)
    }

    // The byte for the degree.
    pub fn degree(&self) -> u8
        ensures { result ≡ get_or self.now.bytes.now 1 0 }
    {
        self.byte(1)
    }

    // The number at an index, counted from 0.
    pub fn number(&self, place: u8) -> u64
        ensures { result ≡ number_at self.now.bytes.now place }
    {
        self.eight_bytes(offset(place))
    }

    // The three numbers from an index on.
    pub fn row(&self, place: u8) -> [u64; 3]
        ensures { result ≡ row_at self.now.bytes.now place }
    {
        self.three_numbers(offset(place))
    }

    // The class whose seven numbers start at an index.
    pub fn class(&self, place: u8) -> Class
        ensures { result ≡ class_at self.now.bytes.now place }
    {
        let start = offset(place);
        Class {
            degree: self.eight_bytes(start),
            u: self.three_numbers(start + 8),
            v: self.three_numbers(start + 32),
        }
    }

    // The curve, of the degree and the first three numbers.
    pub fn curve(&self) -> Curve
        ensures { result ≡ curve_with (get_or self.now.bytes.now 1 0) (row_at self.now.bytes.now 0) }
    {
        jacobian::curves::curve_with(self.degree(), self.row(0))
    }

    // The byte at an offset.
    fn byte(&self, at: usize) -> u8
        ensures { result ≡ get_or self.now.bytes.now at 0 }
    {
        self.bytes.get(at).copied().unwrap_or(0)
    }

    // The number in the eight bytes from an offset on. Bytes that the case has are taken in one piece.
    fn eight_bytes(&self, at: usize) -> u64
        requires { at ≤ 4092 }
        ensures { result ≡ eight_bytes self.now.bytes.now at }
    {
        let bytes: Option<&[u8]> = self.bytes.get(at..at + 8);
        match bytes {
            Some(&[a, b, c, d, e, f, g, h]) => u64::from_be_bytes([a, b, c, d, e, f, g, h]),
            _ => u64::from_be_bytes(std::array::from_fn(|i| self.byte(at + i))),
        }
    }

    // The three numbers from an offset on.
    fn three_numbers(&self, at: usize) -> [u64; 3]
        requires { at ≤ 4076 }
        ensures { result ≡ numbers_from self.now.bytes.now at }
    {
        [
            self.eight_bytes(at),
            self.eight_bytes(at + 8),
            self.eight_bytes(at + 16),
        ]
    }
}

// The offset of the number at an index.
fn offset(place: u8) -> usize
    ensures { result ≡ 2 + 8 * place }
{
    2 + 8 * usize::from(place)
}

// A program that answers cases.
pub trait Trial {
    // The text that answers a case in a state; none where the case has none.
    ghost text_of: { Self → List ℕ → Option (List ℕ) };

    // The state after a case.
    ghost after: { Self → List ℕ → Self };

    // The line that answers a case; none where it has none.
    fn answer(&mut self, case: Case) -> Option<Line>
        ensures { (result ≡ line_with (text_of self.old case.entry.bytes.now)) × (self.new ≡ after self.old case.entry.bytes.now) };

    // The text and a line feed fit a line.
    ghost has_room: { (state : Self) (case : List ℕ) → HasRoom (text_of state case) };

    // Reads case after case into a room of a case's size and writes their lines, until the input has none left.
    // A proved loop has to end, and the input need not: the turns are counted, up to a number that no run uses up.
    final fn run<R: Read, W: Write>(
        &mut self,
        room: &mut [u8],
        input: &mut R,
        out: &mut W,
    ) -> io::Result<()>
        ensures { OnOk result (RanByTexts text_of after (length room.old) self.old self.new (R.remaining input.old) (R.remaining input.new) (W.contents out.old) (W.contents out.new)) }
    {
        for _ in 0..u64::MAX {
            if read_case(input, out, room)? < room.len() {
                break;
            }
            if let Some(mut line) = self.answer(Case { bytes: room }) {
                line.push(b'\n');
                line.write_to(out)?;
            }
        }
        Ok(())
    }
}

// Reads a case and answers how many of its bytes the input had; writes `cut short` where it had some but not all.
pub fn read_case<R: Read, W: Write>(
    input: &mut R,
    out: &mut W,
    case: &mut [u8],
) -> io::Result<usize>
    ensures count { ReadsAtMost result case.new }
    ensures taken { IfOk result (λ n. Consumes (R.remaining input.old) (R.remaining input.new) (take n case.new)) }
    ensures end { IfOk result (λ n. n < length case.new → IsAtEnd (R.remaining input.new)) }
    ensures told { IfOk result (λ n. Appends (W.contents out.old) (W.contents out.new) (cut_short n (length case.new))) }
    ensures failed { IfErr result (λ _. ConsumesFront (R.remaining input.old) (R.remaining input.new) case.new × AppendsFront (W.contents out.old) (W.contents out.new) cut_short_line) }
{
    let n = text::read_full(input, case)?;
    if n > 0 && n < case.len() {
        text::write_whole(out, b"cut short\n")?;
    }
    Ok(n)
}
