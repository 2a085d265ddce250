// The response of a call on byte areas, and the one function that writes it.
ghost use Rattle.std.specs.Prelude.{◌≡◌, ◌+◌, ◌-◌, ◌≤◌, ℕ, List, [], ◌++◌, length, take, drop, replicate};
ghost use Rattle.written_form.specs.Effect.{Response, room, read_call, on_reading, byte_call, effect, response, response_of, put};
ghost use Rattle.stored_form.specs.{Head.class_room, Reader.reading_of};
ghost use Rattle.stored_form.specs.declared.Record.{Record};

use crate::ranges;
use refusals::Refusal;
use std::marker::Model;
use stored_form::{Read, Record};

// The length of a count's field and of a released step's field alike, and that of both followed by the longest field
// of a class.
pub const COUNT_ROOM: usize = 3 + stored_form::COUNT_LENGTH;

pub const REGISTER_ROOM: usize = COUNT_ROOM + COUNT_ROOM + stored_form::CLASS_ROOM;

// The most bytes that a response has.
pub const ROOM: usize = REGISTER_ROOM;

// The bytes that a call writes at the start of the lent output: the first len of the array, which is 0 after them, so that
// they determine it and an output is Copy.
#[derive(Clone, Copy)]
pub struct Output {
    len: usize,
    bytes: [u8; ROOM],
}

impl Model for Output {
    ghost use Rattle.std.specs.Prelude.{◌≡◌, ◌-◌, ◌≤◌, ℕ, List, ◌++◌, length, take, drop, replicate};
    ghost use Rattle.std.proofs.lemmas.List.{length-take-le, take-append-drop};
    ghost use mathlib.Core.Path.{sym, ap, ◌∙◌};
    ghost use Rattle.written_form.specs.Effect.{room};

    ghost Value = { List ℕ };

    ghost view = { λ o. take o.len o.bytes };

    ghost invariant = { λ o. (o.len ≤ room) × (o.len ≤ length o.bytes) × (drop o.len o.bytes ≡ replicate (room - o.len) 0) };

    ghost inverse = { λ bytes. record { len = length bytes; bytes = bytes ++ replicate (room - length bytes) 0 } };

    ghost inverse_ok = { λ o h i. record {
      len = length-take-le o.len o.bytes h.1 i;
      bytes = (ap (λ (n : ℕ). take o.len o.bytes ++ replicate (room - n) 0) (length-take-le o.len o.bytes h.1) ∙ ap (λ (l : List ℕ). take o.len o.bytes ++ l) (sym h.2) ∙ take-append-drop o.len o.bytes) i;
    } };
}

impl Output {
    // No bytes.
    pub fn new() -> Output
        ensures { result ≡ [] }
    {
        Output {
            len: 0,
            bytes: [0; ROOM],
        }
    }

    // The bytes that were pushed.
    pub fn bytes(&self) -> &[u8]
        ensures { result.now ≡ self.now }
    {
        &self.bytes[..self.len]
    }

    // Appends bytes.
    pub(crate) fn push_bytes(&mut self, more: &[u8])
        requires { length self.old + length more.now ≤ room }
        ensures { self.new ≡ self.old ++ more.now }
    {
        ranges::copy(more, &mut self.bytes[self.len..]);
        self.len += more.len();
    }
}

// Reads the record of a call; an output with less room than is required is refused with 101 before any byte is read.
#[tactic(auto, using(crate::proofs::Effects::room_refused, crate::proofs::Effects::room_read))]
pub fn read_call(has: usize, least: usize, tags: &[u8], input: &[u8]) -> Result<Read, Refusal>
    ensures { reading_of result ≡ read_call has least tags.now input.now }
{
    if has < least {
        return Err(Refusal::OutputTooShort);
    }
    stored_form::read_record(tags, input)
}

// Writes bytes at the start of the output and answers `answer`.
// If the output is too short for them, nothing is written and the answer is 101.
pub fn put(answer: u32, bytes: &[u8], output: &mut [u8]) -> u32
    ensures { effect result output.new ≡ put (response answer bytes.now) output.old }
{
    if output.len() < bytes.len() {
        return Refusal::OutputTooShort.number();
    }
    ranges::copy(bytes, output);
    answer
}

// Writes what a call responds: its bytes, with their length as the answer; a refusal writes none and answers its number.
pub fn put_response(response: Result<Output, Refusal>, output: &mut [u8]) -> u32
    ensures { effect result output.new ≡ put (response_of response) output.old }
{
    match response {
        Ok(written) => {
            let bytes = written.bytes();
            put(bytes.len() as u32, bytes, output)
        }
        Err(refusal) => put(refusal.number(), &[], output),
    }
}

// A call on byte areas, by the response that it gives to the values of a record.
pub trait ByteCall {
    ghost response: { Self → Record → Response };

    fn answer(self, h: Record) -> Result<Output, Refusal>
        ensures { response_of result ≡ response self h };
}

// The response of a call to the record that it reads, if the output has the room that is required.
#[tactic(auto, unfolding(crate::specs::Effect::on_reading))]
fn answer_read<C: ByteCall + Copy>(
    call: C,
    has: usize,
    least: usize,
    tags: &[u8],
    input: &[u8],
) -> Result<Output, Refusal>
    ensures { response_of result ≡ on_reading (read_call has least tags.now input.now) (C.response call) }
{
    let read = read_call(has, least, tags, input)?;
    call.answer(read.values)
}

// The body of every call that writes: the check of the room (101), then the record, then the response.
#[tactic(auto, unfolding(crate::specs::Effect::byte_call))]
pub fn byte_call<C: ByteCall + Copy>(
    call: C,
    least: usize,
    tags: &[u8],
    input: &[u8],
    output: &mut [u8],
) -> u32
    ensures { effect result output.new ≡ byte_call least tags.now (C.response call) input.now output.old }
{
    put_response(answer_read(call, output.len(), least, tags, input), output)
}

// A call that answers a class.
pub fn class_call<C: ByteCall + Copy>(call: C, tags: &[u8], input: &[u8], output: &mut [u8]) -> u32
    ensures { effect result output.new ≡ byte_call class_room tags.now (C.response call) input.now output.old }
{
    byte_call(call, stored_form::CLASS_ROOM, tags, input, output)
}
