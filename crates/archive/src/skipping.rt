// Fields that are passed over by the lengths in their heads: nothing of them is checked.
// The bytes and an offset stay two parameters, and the offset a number and no `Cursor`, as public functions keep theirs.
ghost use Rattle.std.specs.Prelude.{◌≡◌};
ghost use Rattle.archive.specs.Skipping.{next_field, skip_fields};

use stored_form::head;

// The offset after the field at an offset, but at most the end of the input.
#[tactic(auto, using(crate::proofs::Skipped::next_capped))]
pub fn next_field(s: &[u8], at: usize) -> usize
    ensures { result ≡ next_field s.now at }
{
    s.len().min(at.saturating_add(3).saturating_add(head::length_at(s, at)))
}

// The offset after the next k fields, likewise.
pub fn skip_fields(s: &[u8], at: usize, k: u64) -> usize
    ensures { result ≡ skip_fields k s.now at }
{
    (0..k).fold(at, |next, _| next_field(s, next))
}
