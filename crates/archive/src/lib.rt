// Reading an archive: a state by value, and one step for each field.
#![tactic(auto)]

ghost use Rattle.std.specs.Prelude.{◌≡◌, get_or};
ghost use Rattle.refusals.specs.Refusals.{refusal_of};
ghost use Rattle.stored_form.specs.Reader.{header_layout, read_field, reading_of};
ghost use Rattle.archive.specs.Archive.{archive_refusal};
ghost use Rattle.archive.specs.Reader.{reader, start, after_header, operations_expected, read_header_field, read_operation, read_pairs_expected, read_end, read_next, pending, read_header, advance_reading};

pub mod skipping;

use refusals::Refusal;
use stored_form::{Cursor, HEADER_FIELDS, HEADER_LAYOUT, OPERATION, Read, Record, pairs};

// What is expected next.
#[derive(Clone, Copy)]
pub enum Expected {
    // The field of the header with this index.
    Header(usize),
    // This many operations, at least one.
    Operations(u64),
    // The pairs, or nothing in their place.
    Pairs,
    // The end of the input.
    End,
    // Nothing: the whole archive was read.
    Nothing,
}

// The state of the reading: what is expected next, and the record of what was read.
#[derive(Clone, Copy)]
pub struct Reader {
    pub expected: Expected,
    pub values: Record,
}

// The state of the reading, with the offset of the next field.
#[derive(Clone, Copy)]
pub struct Advance {
    pub reader: Reader,
    pub next: Cursor,
}

// The state before the first field.
#[tactic(auto, unfolding(crate::specs::Reader::start))]
pub fn start() -> Reader
    ensures { result ≡ start }
{
    Reader {
        expected: Expected::Header(0),
        values: stored_form::empty_record(),
    }
}

// The tag of field i of the header, and 0, which is no tag, if there is none.
// It is no Option, since the definition answers 0 there.
fn header_tag(i: usize) -> u8
    ensures { result ≡ get_or header_layout i 0 }
{
    HEADER_LAYOUT.get(i).copied().unwrap_or(0)
}

// What is expected if this many operations are left.
#[tactic(auto, using(crate::proofs::ReaderSteps::some_expected), unfolding(crate::specs::Reader::operations_expected))]
fn operations_expected(left: u64) -> Expected
    ensures { result ≡ operations_expected left }
{
    match left {
        0 => Expected::Pairs,
        _ => Expected::Operations(left),
    }
}

// What is expected after field i of the header.
#[tactic(auto, using(crate::proofs::ReaderSteps::header_more, crate::proofs::ReaderSteps::header_over))]
fn after_header(i: usize, count: u64) -> Expected
    ensures { result ≡ after_header i count }
{
    if i < HEADER_FIELDS - 1 {
        Expected::Header(i + 1)
    } else {
        operations_expected(count)
    }
}

// The state with this record, and the offset of the next field.
fn advance_to(expected: Expected, values: Record, next: Cursor) -> Advance
    ensures { result ≡ record { reader = reader expected values; next = next } }
{
    Advance {
        reader: Reader { expected, values },
        next,
    }
}

impl Advance {
    // Reads the field with this tag.
    fn read_field(self, tag: u8, s: &[u8]) -> Result<Read, Refusal>
        ensures { reading_of result ≡ read_field tag self.reader.values s.now self.next.at }
    {
        stored_form::read_field(tag, self.reader.values, s, self.next)
    }

    // Reads field i of the header.
    #[tactic(auto, using(crate::proofs::ReaderSteps::header_stops, crate::proofs::ReaderSteps::header_goes_on))]
    fn read_header_field(self, i: usize, s: &[u8]) -> Result<Advance, Refusal>
        ensures { advance_reading result ≡ read_header_field i self.reader.values s.now self.next.at }
    {
        let Read { values, next } = self.read_field(header_tag(i), s)?;
        Ok(advance_to(after_header(i, values.count), values, next))
    }

    // Reads an operation; this many are left, with this one.
    #[tactic(auto, using(crate::proofs::ReaderSteps::operation_stops, crate::proofs::ReaderSteps::operation_goes_on))]
    fn read_operation(self, left: u64, s: &[u8]) -> Result<Advance, Refusal>
        ensures { advance_reading result ≡ read_operation left self.reader.values s.now self.next.at }
    {
        let Read { values, next } = self.read_field(OPERATION, s)?;
        Ok(advance_to(operations_expected(left.saturating_sub(1)), values, next))
    }

    // Reads the pairs of the operations.
    #[tactic(auto, using(crate::proofs::ReaderSteps::pairs_stop, crate::proofs::ReaderSteps::pairs_go_on))]
    fn read_pairs(self, s: &[u8]) -> Result<Advance, Refusal>
        ensures { advance_reading result ≡ read_pairs_expected self.reader.values s.now self.next.at }
    {
        let next = pairs::read_pairs(self.reader.values.count, s, self.next)?;
        Ok(advance_to(Expected::End, self.reader.values, next))
    }

    // Reads the end of the input.
    #[tactic(auto, using(stored_form::proofs::Readings::check_stops, stored_form::proofs::Readings::check_passes), unfolding(crate::specs::Reader::read_end, stored_form::specs::Fields::ended))]
    fn read_end(self, s: &[u8]) -> Result<Advance, Refusal>
        ensures { advance_reading result ≡ read_end self.reader.values s.now self.next.at }
    {
        stored_form::check_end(s, self.next)?;
        Ok(advance_to(Expected::Nothing, self.reader.values, self.next))
    }

    // One step: reads what is expected.
    #[tactic(auto, unfolding(crate::specs::Reader::read_next))]
    fn read_next(self, s: &[u8]) -> Result<Advance, Refusal>
        ensures { advance_reading result ≡ read_next self.reader s.now self.next.at }
    {
        match self.reader.expected {
            Expected::Header(i) => self.read_header_field(i, s),
            Expected::Operations(left) => self.read_operation(left, s),
            Expected::Pairs => self.read_pairs(s),
            Expected::End => self.read_end(s),
            Expected::Nothing => Ok(self),
        }
    }

    // Whether a field, the pairs or the end are expected.
    #[tactic(auto, unfolding(crate::specs::Reader::pending))]
    fn is_pending(self) -> bool
        ensures { result ≡ pending self.reader.expected }
    {
        !matches!(self.reader.expected, Expected::Nothing)
    }
}

// One step: reads what is expected at an offset.
pub fn read_next(r: Reader, s: &[u8], at: Cursor) -> Result<Advance, Refusal>
    ensures { advance_reading result ≡ read_next r s.now at.at }
{
    let state = Advance {
        reader: r,
        next: at,
    };
    state.read_next(s)
}

// Reads the header; the operations are expected then.
#[tactic(auto, using(crate::proofs::ReaderSteps::whole_header_stops, crate::proofs::ReaderSteps::whole_header_goes_on))]
pub fn read_header(s: &[u8]) -> Result<Advance, Refusal>
    ensures { advance_reading result ≡ read_header s.now }
{
    let Read { values, next } = stored_form::read_fields(
        &HEADER_LAYOUT,
        stored_form::empty_record(),
        s,
        Cursor { at: 0 },
    )?;
    Ok(advance_to(operations_expected(values.count), values, next))
}

// Refuses an archive that breaks a rule. Takes steps until nothing is expected or a field is refused: a `while`, since
// the bytes say how many steps there are.
#[tactic(auto, using(crate::proofs::ReaderSteps::begun, crate::proofs::ReaderSteps::step_stops, crate::proofs::ReaderSteps::step_goes_on, crate::proofs::ReaderSteps::step_shortens, crate::proofs::ReaderSteps::all_read))]
pub fn check_archive(s: &[u8]) -> Result<(), Refusal>
    ensures { refusal_of result ≡ archive_refusal s.now }
{
    let mut state = Advance {
        reader: start(),
        next: Cursor { at: 0 },
    };
    while state.is_pending() {
        state = state.read_next(s)?;
    }
    Ok(())
}
