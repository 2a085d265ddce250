// The fields that calls on byte areas write, pushed to the bytes of their output.
ghost use Rattle.std.specs.Prelude.{◌≡◌, ◌++◌, ◌+◌, ◌*◌, ◌≤◌, length};
ghost use Rattle.jacobian.specs.Answer.{verdict, reply, result as class_result};
ghost use Rattle.stored_form.specs.Number.{encode_number};
ghost use Rattle.stored_form.specs.Head.{class_room, count_length, head_bytes, encode_field};
ghost use Rattle.stored_form.specs.Elements.{element_length, encode_elements};
ghost use Rattle.stored_form.specs.Fields.{count_field, released_field};
ghost use Rattle.stored_form.specs.Classes.{encode_row, class_field};
ghost use Rattle.written_form.specs.Effect.{room, count_room, on_outcome, class_response, response_of};

use crate::effect::Output;
use jacobian::{Class, CountedClass};
use refusals::Refusal;
use stored_form::{COUNT_LENGTH, ELEMENT_LENGTH};

impl Output {
    // Appends the k lowest bytes of a number, high byte first.
    fn push_number(&mut self, k: usize, x: u64)
        requires { (k ≤ element_length) × (length self.old + k ≤ room) }
        ensures { self.new ≡ self.old ++ encode_number k x }
    {
        self.push_bytes(&x.to_be_bytes()[ELEMENT_LENGTH - k..]);
    }

    // Appends the head of a field.
    #[tactic(auto, unfolding(stored_form::specs::Head::head_bytes))]
    fn push_head(&mut self, tag: u8, len: usize)
        requires { length self.old + 3 ≤ room }
        ensures { self.new ≡ self.old ++ head_bytes tag len }
    {
        self.push_bytes(&[tag]);
        self.push_number(2, len as u64);
    }

    // Appends the coefficients below degree n, highest power first.
    fn push_coefficients(&mut self, n: usize, row: [u64; 3])
        requires { (n ≤ 3) × (length self.old + element_length * n ≤ room) }
        ensures { self.new ≡ self.old ++ encode_elements (encode_row n row) }
    {
        for i in (0..n).rev() {
            self.push_number(ELEMENT_LENGTH, row[i]);
        }
    }

    // Appends the field of a class.
    fn push_class(&mut self, a: Class)
        requires { length self.old + class_room ≤ room }
        ensures { self.new ≡ self.old ++ class_field 0x43 a }
    {
        let n = a.degree.min(3) as usize;
        self.push_head(stored_form::CLASS, 2 * (ELEMENT_LENGTH * n));
        self.push_coefficients(n, a.u);
        self.push_coefficients(n, a.v);
    }

    // Appends the field of a count or of a released step, by its tag.
    fn push_count(&mut self, tag: u8, n: u64)
        requires { length self.old + count_room ≤ room }
        ensures { self.new ≡ self.old ++ encode_field tag (encode_number count_length n) }
    {
        self.push_head(tag, COUNT_LENGTH);
        self.push_number(COUNT_LENGTH, n);
    }
}

// The bytes of the field of a class.
pub fn class_bytes(a: Class) -> Output
    ensures { result ≡ class_field 0x43 a }
{
    let mut output = Output::new();
    output.push_class(a);
    output
}

// The response with the field of a class, or with the refusal.
#[tactic(auto, unfolding(crate::specs::Effect::class_response, crate::specs::Effect::on_outcome))]
pub fn class_output(answer: Result<CountedClass, Refusal>) -> Result<Output, Refusal>
    ensures { response_of result ≡ class_response (class_result (reply answer)) }
{
    Ok(class_bytes(answer?.class))
}

// The bytes of the fields of a count, a released step and a seal.
fn register_bytes(count: u64, released: u64, seal: Class) -> Output
    ensures { result ≡ count_field count ++ released_field released ++ class_field 0x43 seal }
{
    let mut output = Output::new();
    output.push_count(stored_form::COUNT, count);
    output.push_count(stored_form::RELEASED, released);
    output.push_class(seal);
    output
}

// The response with the fields of a count, a released step and a seal, or with the refusal.
#[tactic(auto, unfolding(crate::specs::Effect::on_outcome))]
pub fn register_output(
    outcome: Result<(), Refusal>,
    count: u64,
    released: u64,
    seal: Class,
) -> Result<Output, Refusal>
    ensures { response_of result ≡ on_outcome (verdict outcome) (count_field count ++ released_field released ++ class_field 0x43 seal) }
{
    outcome?;
    Ok(register_bytes(count, released, seal))
}
