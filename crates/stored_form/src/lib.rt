// Reading the stored form. A field is a one-byte tag, a two-byte length and a body, high byte first.
// A record is a list of fields; its layout lists the tags that are expected, in order.
// A reader answers the record with the offset of the next field, or the refusal.
#![tactic(auto)]

ghost use Rattle.std.specs.Prelude.{◌≡◌};
ghost use Rattle.refusals.specs.Refusals.{refusal_of};
ghost use Rattle.stored_form.specs.{Fields.end_refusal, Record.empty_record};
ghost use Rattle.stored_form.specs.Reader.{read_field, read_fields, read_record, reading_of};

pub mod classes;
mod drawings;
mod fields;
pub mod head;
mod numbers;
pub mod pairs;

use jacobian::curves::COEFFICIENTS;
use jacobian::{Class, Curve};
use refusals::Refusal;

// The tags. They are bytes and no enum: a caller may expect any byte, and the layouts are public rows of bytes.
pub const DEGREE: u8 = 0x40;

pub const CURVE: u8 = 0x41;

pub const COUNT: u8 = 0x42;

pub const CLASS: u8 = 0x43;

pub const OPERATION: u8 = 0x44;

pub const RELEASED: u8 = 0x45;

pub const DRAWING: u8 = 0x46;

pub const PAIRS: u8 = 0x48;

// The layouts of records: the tags that are expected, in order.
pub const CURVE_LAYOUT: [u8; 2] = [DEGREE, CURVE];

pub const CLASS_LAYOUT: [u8; 3] = [DEGREE, CURVE, CLASS];

pub const SUM_LAYOUT: [u8; 4] = [DEGREE, CURVE, CLASS, CLASS];

pub const REGISTER_LAYOUT: [u8; 5] = [DEGREE, CURVE, COUNT, RELEASED, CLASS];

pub const STEP_LAYOUT: [u8; 6] = [DEGREE, CURVE, COUNT, RELEASED, CLASS, OPERATION];

// The number of fields of an archive's header, and its layout: the fields before the operations.
pub const HEADER_FIELDS: usize = 5;

pub const HEADER_LAYOUT: [u8; HEADER_FIELDS] = [DEGREE, CURVE, DRAWING, COUNT, CLASS];

// The number of bytes of an element.
pub const ELEMENT_LENGTH: usize = 8;

// The lengths of the bodies of degree and curve, and of count and released step alike.
pub const DEGREE_LENGTH: usize = 1;

pub const CURVE_LENGTH: usize = COEFFICIENTS * ELEMENT_LENGTH;

pub const COUNT_LENGTH: usize = 2;

// The length of the longest drawing number.
pub const DRAWING_LIMIT: usize = 38;

// The lengths of the longest body of a class and of its field.
pub const CLASS_LIMIT: usize = 6 * ELEMENT_LENGTH;

pub const CLASS_ROOM: usize = 3 + CLASS_LIMIT;

// The number of bytes of a pair, and the length of the longest body of pairs.
pub const PAIR_LENGTH: usize = 4;

pub const PAIRS_LIMIT: usize = 8192;

// An offset in the input. It is kept without the bytes, since the answers of the public readers hold only the offset.
#[derive(Clone, Copy)]
pub struct Cursor {
    pub at: usize,
}

// A drawing number: len bytes, and 0 after them. Memory is fixed, so that the bytes stand in the value.
// It has no invariant: its definitions take any length, by `take`.
#[derive(Clone, Copy)]
pub struct Drawing {
    pub len: usize,
    pub bytes: [u8; DRAWING_LIMIT],
}

// A record: what the fields read so far say. Of two classes the first is the previous one.
#[derive(Clone, Copy)]
pub struct Record {
    pub curve: Curve,
    pub drawing: Drawing,
    pub count: u64,
    pub released: u64,
    pub previous: Class,
    pub class: Class,
    pub operation: Class,
}

// A record with the offset of the next field.
#[derive(Clone, Copy)]
pub struct Read {
    pub values: Record,
    pub next: Cursor,
}

// Refuses an input with bytes from an offset on.
#[tactic(auto, unfolding(crate::specs::Fields::end_refusal))]
pub fn check_end(s: &[u8], at: Cursor) -> Result<(), Refusal>
    ensures { refusal_of result ≡ end_refusal s.now at.at }
{
    if at.at < s.len() {
        return Err(Refusal::BytesRemain);
    }
    Ok(())
}

// The record before the first field.
#[tactic(auto, unfolding(crate::specs::Record::empty_record, crate::specs::Record::decode_drawing))]
pub fn empty_record() -> Record
    ensures { result ≡ empty_record }
{
    let neutral = jacobian::neutral();
    Record {
        curve: jacobian::curves::blank_curve(),
        drawing: Drawing {
            len: 0,
            bytes: [0; DRAWING_LIMIT],
        },
        count: 0,
        released: 0,
        previous: neutral,
        class: neutral,
        operation: neutral,
    }
}

// Reads the field at an offset, where this tag is expected, into the record h.
pub fn read_field(tag: u8, h: Record, s: &[u8], at: Cursor) -> Result<Read, Refusal>
    ensures { reading_of result ≡ read_field tag h s.now at.at }
{
    // A head is taken apart by `let .. else`, a rule of the project; `?` would do.
    let head = at.read_head(tag, s);
    let Ok(body) = head else {
        return Err(head.unwrap_err());
    };
    let values = h.with_field(tag, body.bytes(s));
    values.check_field(tag)?;
    Ok(Read {
        values,
        next: body.next,
    })
}

// Reads the fields with these tags, one after the other from an offset on, into the record h.
#[tactic(auto, using(crate::proofs::Readers::fields_stop, crate::proofs::Readers::fields_go_on, crate::proofs::Readers::fields_ended))]
pub fn read_fields(tags: &[u8], h: Record, s: &[u8], start: Cursor) -> Result<Read, Refusal>
    ensures { reading_of result ≡ read_fields tags.now h s.now start.at }
{
    let mut read = Read {
        values: h,
        next: start,
    };
    for tag in tags {
        read = read_field(*tag, read.values, s, read.next)?;
    }
    Ok(read)
}

// Reads a record: the fields with these tags, after which the input ends.
#[tactic(auto, using(crate::proofs::Readers::record_stops, crate::proofs::Readers::end_stops, crate::proofs::Readers::record_ends))]
pub fn read_record(tags: &[u8], s: &[u8]) -> Result<Read, Refusal>
    ensures { reading_of result ≡ read_record tags.now s.now }
{
    let read = read_fields(tags, empty_record(), s, Cursor { at: 0 })?;
    check_end(s, read.next)?;
    Ok(read)
}
