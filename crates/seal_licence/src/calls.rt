// The calls for C: a record of one class and a number in, the field of a class at the start of the lent output.
// Each answers the length written, or the number of a refusal, and then no lent byte has changed.
ghost use Rattle.std.specs.Prelude.{◌≡◌};
ghost use Rattle.written_form.specs.{Effect.effect, Effect.class_response};
ghost use Rattle.seal_licence.specs.Multiples.{class_result};
ghost use Rattle.seal_licence.specs.Calls.{answered, multiple_call, HalvesTimes};

use crate::multiples;
use jacobian::Class;
use refusals::Refusal;
use stored_form::Record;
use written_form::effect::{ByteCall, Output};
use written_form::{effect, writing};

// The two calls on the class of a record: n times it, and the class halved k times.
// They stay an enum, since definitions in specs/ (`answered`) and theorems go by its cases.
#[derive(Clone, Copy)]
enum Call {
    Multiple(u64),
    Halvings(u64),
}

// What a call gives for the class of a record, by value.
#[tactic(auto, unfolding(crate::specs::Calls::answered))]
fn class_of(call: Call, h: Record) -> Result<Class, Refusal>
    ensures { class_response (class_result result) ≡ answered call h }
{
    match call {
        Call::Multiple(n) => multiples::multiple(h.curve, h.class, n),
        Call::Halvings(k) => multiples::halvings(h.curve, h.class, k),
    }
}

impl ByteCall for Call {
    ghost response = { answered };

    #[tactic(auto, unfolding(written_form::specs::Effect::class_response, written_form::specs::Effect::on_outcome))]
    fn answer(self, h: Record) -> Result<Output, Refusal> {
        Ok(writing::class_bytes(class_of(self, h)?))
    }
}

// n times the class.
pub fn seal_multiple(input: &[u8], n: u64, output: &mut [u8]) -> u32
    ensures { effect result output.new ≡ multiple_call n input.now output.old }
{
    effect::class_call(Call::Multiple(n), &stored_form::CLASS_LAYOUT, input, output)
}

// The class halved k times: the one class that k doublings take to it.
#[tactic(auto, using(crate::proofs::Written::halves_times))]
pub fn seal_halvings(input: &[u8], k: u64, output: &mut [u8]) -> u32
    ensures { HalvesTimes k input.now output.old (effect result output.new) }
{
    effect::class_call(Call::Halvings(k), &stored_form::CLASS_LAYOUT, input, output)
}
