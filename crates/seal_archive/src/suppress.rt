// Suppressing an operation of an archive: its class becomes neutral, and the last seal becomes the one that a walk
// forward over the changed operations reaches. The new archive is the input with two fields replaced.
ghost use Rattle.std.specs.Prelude.{◌≡◌, ◌&&◌, not, ◌+◌, ◌-◌, ◌≤◌, eqb, length, MatchResult};
ghost use Rattle.refusals.specs.Refusals.{number};
ghost use Rattle.jacobian.specs.{Answer.Accepts, Answer.sum_answer, Group.opposite_of, Group.doublings};
ghost use Rattle.stored_form.specs.{Head.length_at, Pairs.earlier};
ghost use Rattle.archive.specs.Archive.{archive_said, archive_refusal};
ghost use Rattle.written_form.specs.{Effect.effect, Effect.write};
ghost use Rattle.suppression_theory.specs.Archives.{held, suppressed};
ghost use Rattle.archive_theorems.specs.Written.{archive_bytes};
ghost use Rattle.seal_archive.specs.Suppress.{growth, written_effect, written_of, suppress_call};
ghost use Rattle.seal_archive.specs.internal.Accepted.{IsAccepted, replaced, both_replaced};

use archive::skipping;
use jacobian::{Class, Curve};
use refusals::Refusal;
use std::ops::Range;
use stored_form::{Cursor, HEADER_FIELDS, PAIR_LENGTH, Record, head, pairs};
use written_form::{ranges, writing};

// How many bytes longer than the input the output has to be.
pub const GROWTH: usize = 48;

// The field of an operation whose class is neutral.
const NEUTRAL_OPERATION: [u8; 3] = [stored_form::OPERATION, 0, 0];

// The answer for C of a call that writes an archive: 0 and the length written, or the number of a refusal and 0.
#[repr(C)]
#[derive(Clone, Copy)]
pub struct Written {
    pub refusal: u32,
    pub length: u64,
}

// An accepted class doubled n times. The halves of seal_licence have their own loop: a function for both would stand in a
// third crate and be no shorter.
// `Accepts` is a `requires` here and in `seal_less`, since open calls check for themselves.
fn doublings(curve: Curve, a: Class, n: u64) -> Class
    requires { Accepts curve a }
    ensures { result ≡ doublings curve n a }
{
    let mut double = a;
    for _ in 0..n {
        double = jacobian::double(curve, double).unwrap().class;
    }
    double
}

// An accepted seal less an accepted class doubled n times.
fn seal_less(curve: Curve, seal: Class, a: Class, n: u64) -> Class
    requires { Accepts curve seal × Accepts curve a }
    ensures { result ≡ (sum_answer curve seal (opposite_of curve (doublings curve n a))).class }
{
    let more = doublings(curve, a, n);
    let minus = jacobian::opposite(curve, more).unwrap().class;
    jacobian::sum(curve, seal, minus).unwrap().class
}

// Whether a pair, whose later operation's field is at an offset, holds operation k.
fn holds(s: &[u8], at: usize, p: u64, k: u64) -> bool
    ensures { result ≡ (eqb (earlier p) k && not (eqb (length_at s.now at) 0)) }
{
    pairs::earlier(p) == k && head::length_at(s, at) != 0
}

// Copies a range of the input to the output, and after it a field that replaces one.
fn replaced(s: &[u8], kept: Range<usize>, field: &[u8], output: &mut [u8], at: usize) -> usize
    ensures { effect result output.new ≡ replaced s.now kept.start kept.end field.now (effect at output.old) }
{
    let next = ranges::append(s, kept.start, kept.end, output, at);
    ranges::append(field, 0, field.len(), output, next)
}

// Copies the input to the output but for its seal and one operation: another field replaces the seal's, and a neutral
// one the operation's.
fn both_replaced(
    s: &[u8],
    seal: Range<usize>,
    field: &[u8],
    operation: Range<usize>,
    output: &mut [u8],
) -> usize
    ensures { effect result output.new ≡ both_replaced s.now seal.start seal.end field.now operation.start operation.end (effect 0 output.old) }
{
    let sealed = replaced(s, 0..seal.start, field, output, 0);
    let suppressed = replaced(
        s,
        seal.end..operation.start,
        &NEUTRAL_OPERATION,
        output,
        sealed,
    );
    ranges::append(s, operation.end, s.len(), output, suppressed)
}

// An archive that no check refuses: its bytes, its header, and the offset at which its operations begin.
#[derive(Clone, Copy)]
struct Accepted<'a> {
    bytes: &'a [u8],
    header: Record,
    first: usize,
    ghost accepted: { IsAccepted bytes.now header first },
}

impl<'a> Accepted<'a> {
    // The archive of these bytes, or what refuses them.
    fn of(bytes: &'a [u8]) -> Result<Self, Refusal>
        ensures { MatchResult result (λ a. a.bytes.now ≡ bytes.now) (λ r. number r ≡ archive_refusal bytes.now) }
    {
        archive::check_archive(bytes)?;
        let state = archive::read_header(bytes).unwrap();
        Ok(Accepted {
            bytes,
            header: state.reader.values,
            first: state.next.at,
        })
    }

    // Whether operation k is held. The pairs are taken from the last to the first, so that their later operations,
    // numbered from the oldest and stored newest first, come one after the other.
    fn is_held(&self, k: u64) -> bool
        ensures { result ≡ held k (archive_said self.now.bytes.now) }
    {
        let end = skipping::skip_fields(self.bytes, self.first, self.header.count);
        let m = head::length_at(self.bytes, end) / PAIR_LENGTH;
        let mut at = self.first;
        let mut number = self.header.count;
        for i in (0..m).rev() {
            let p = pairs::pair_at(self.bytes, end + 3, i);
            let later = pairs::later(p);
            at = skipping::skip_fields(self.bytes, at, number - later);
            number = later;
            if holds(self.bytes, at, p, k) {
                return true;
            }
        }
        false
    }

    // Writes the archive with operation k suppressed, and answers the length.
    fn put_suppressed(&self, k: u64, output: &mut [u8]) -> usize
        requires low { 1 ≤ k }
        requires high { k ≤ self.now.header.count }
        requires roomy { length self.now.bytes.now + growth ≤ length output.old }
        ensures { effect result output.new ≡ write (archive_bytes (suppressed k (archive_said self.now.bytes.now))) output.old }
    {
        let newer = self.header.count - k;
        let seal = skipping::skip_fields(self.bytes, 0, HEADER_FIELDS as u64 - 1);
        let at = skipping::skip_fields(self.bytes, self.first, newer);
        let next = skipping::next_field(self.bytes, at);
        let read = stored_form::read_field(
            stored_form::OPERATION,
            self.header,
            self.bytes,
            Cursor { at },
        )
        .unwrap();
        let class = seal_less(
            self.header.curve,
            self.header.class,
            read.values.operation,
            newer,
        );
        let field = writing::class_bytes(class);
        both_replaced(
            self.bytes,
            seal..self.first,
            field.bytes(),
            at..next,
            output,
        )
    }

    // Suppresses operation k, with room in the output, and answers the length.
    fn suppress(&self, k: u64, output: &mut [u8]) -> Result<usize, Refusal>
        requires { length self.now.bytes.now + growth ≤ length output.old }
        ensures { written_effect (written_of result) output.new ≡ suppress_call self.now.bytes.now k output.old }
    {
        if k < 1 || self.header.count < k {
            return Err(Refusal::NoSuchOperation);
        }
        if self.is_held(k) {
            return Err(Refusal::OperationHeld);
        }
        Ok(self.put_suppressed(k, output))
    }
}

// Suppresses operation k of an archive, and answers the length.
fn suppress(s: &[u8], k: u64, output: &mut [u8]) -> Result<usize, Refusal>
    ensures { written_effect (written_of result) output.new ≡ suppress_call s.now k output.old }
{
    if output.len() < GROWTH || output.len() - GROWTH < s.len() {
        return Err(Refusal::OutputTooShort);
    }
    Accepted::of(s)?.suppress(k, output)
}

// Suppresses operation k of an archive, counted 1 to n from the oldest: the new archive is written to the output.
// 101 comes first, then every check of the archive, then 123 of k, and last 124 of an operation that is held.
pub fn seal_suppress(input: &[u8], k: u64, output: &mut [u8]) -> Written
    ensures { written_effect result output.new ≡ suppress_call input.now k output.old }
{
    match suppress(input, k, output) {
        Ok(length) => Written {
            refusal: 0,
            length: length as u64,
        },
        Err(refusal) => Written {
            refusal: refusal.number(),
            length: 0,
        },
    }
}
