// The head of a field: its tag and the length of its body.
ghost use Rattle.std.specs.Prelude.{◌≡◌, ◌≤◌, ◌-◌, length, take, drop};
ghost use Rattle.stored_form.specs.declared.Record.{Record};
ghost use Rattle.stored_form.specs.{Head.class_length, Head.length_at, Tags.rules, Reader.read_head_by, Reader.read_head, Reader.head_reading};

use crate::{
    CLASS, COUNT, COUNT_LENGTH, CURVE, CURVE_LENGTH, Cursor, DEGREE, DEGREE_LENGTH, DRAWING,
    DRAWING_LIMIT, OPERATION, RELEASED, numbers,
};
use refusals::Refusal;

// What a head says: the body's length and the offset after the body.
#[derive(Clone, Copy)]
pub struct Body {
    pub len: usize,
    pub next: Cursor,
}

impl Body {
    // The bytes of the body: the last ones before the offset after it.
    pub(crate) fn bytes(self, s: &[u8]) -> &[u8]
        requires { (self.len ≤ self.next.at) × (self.next.at ≤ length s.now) }
        ensures { result.now ≡ take (self.next.at - (self.next.at - self.len)) (drop (self.next.at - self.len) s.now) }
    {
        &s[self.next.at - self.len..self.next.at]
    }
}

// Whether this is the length of a class of degree 0 to 3.
#[tactic(auto, unfolding(crate::specs::Head::class_length))]
fn class_allows(len: usize) -> bool
    ensures { result ≡ class_length len }
{
    matches!(len, 0 | 16 | 32 | 48)
}

// Whether a tag allows this length; the fields before it do not matter.
#[tactic(auto, unfolding(crate::specs::Tags::rules))]
fn allows(tag: u8, len: usize) -> bool
    ensures { (h : Record) → result ≡ (rules tag).allows h len }
{
    match tag {
        DEGREE => len == DEGREE_LENGTH,
        CURVE => len == CURVE_LENGTH,
        DRAWING => len <= DRAWING_LIMIT,
        COUNT | RELEASED => len == COUNT_LENGTH,
        CLASS | OPERATION => class_allows(len),
        _ => false,
    }
}

// The length that the head at an offset gives, and 0 if fewer than three bytes are left.
// It is no Option, since the definition answers 0 there.
#[tactic(auto, using(crate::proofs::Heads::length_inside, crate::proofs::Heads::length_outside), unfolding(crate::specs::Head::body_length))]
pub fn length_at(s: &[u8], at: usize) -> usize
    ensures { result ≡ length_at s.now at }
{
    if s.len().saturating_sub(at) < 3 {
        return 0;
    }
    numbers::decode_number(&s[at + 1..at + 3]) as usize
}

impl Cursor {
    // The head of the field at this offset, where this tag is expected; `allowed` says whether the tag allows its length.
    #[tactic(auto, using(crate::proofs::Heads::length_inside, crate::proofs::Heads::head_102, crate::proofs::Heads::head_103, crate::proofs::Heads::head_104, crate::proofs::Heads::head_105, crate::proofs::Heads::head_whole))]
    pub(crate) fn read_head_by(self, tag: u8, allowed: bool, s: &[u8]) -> Result<Body, Refusal>
        ensures { head_reading result ≡ read_head_by tag (λ n. allowed) s.now self.at }
    {
        let left = s.len().saturating_sub(self.at);
        if left < 3 {
            return Err(Refusal::HeadCut);
        }
        if s[self.at] != tag {
            return Err(Refusal::WrongTag);
        }
        if !allowed {
            return Err(Refusal::WrongLength);
        }
        let len = length_at(s, self.at);
        if left - 3 < len {
            return Err(Refusal::BodyCut);
        }
        Ok(Body {
            len,
            next: Cursor {
                at: self.at + 3 + len,
            },
        })
    }

    // The head of the field at this offset, where this tag is expected.
    pub(crate) fn read_head(self, tag: u8, s: &[u8]) -> Result<Body, Refusal>
        ensures { (h : Record) → head_reading result ≡ read_head tag h s.now self.at }
    {
        self.read_head_by(tag, allows(tag, length_at(s, self.at)), s)
    }
}
