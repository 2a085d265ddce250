// The calls for C. Each reads a record; all but membership write a class or a register into the lent output.
// A call answers the length written, or the number of a refusal; then no lent byte has changed.
ghost use Rattle.std.specs.Prelude.{◌≡◌};
ghost use Rattle.history.specs.Register.{register_reply};
ghost use Rattle.written_form.specs.{Effect.register_room, Effect.effect, Effect.response_of, Effect.byte_call};
ghost use Rattle.seal.specs.Calls.{register, register_response, answered, membership_call, opposite_call, double_call, sum_call, commit_call, release_call, stamp_call, Halves, Undoes};

use history::{Register, RegisterAnswer};
use refusals::Refusal;
use stored_form::Record;
use written_form::effect::{ByteCall, Output};
use written_form::{effect, writing};

// Whether the record's pair is a class of its curve: 0 if it is, else the refusal.
#[tactic(auto, using(stored_form::proofs::Readers::read_refusal), unfolding(crate::specs::Calls::membership_call))]
pub fn seal_membership(input: &[u8]) -> u32
    ensures { result ≡ membership_call input.now }
{
    refusals::refusal_number(stored_form::read_record(&stored_form::CLASS_LAYOUT, input))
}

// The calls that write. They stay an enum, since definitions in specs/ (`answered`) and theorems go by its cases.
#[derive(Clone, Copy)]
enum Call {
    Opposite,
    Double,
    Half,
    Sum,
    Commit,
    Undo,
    Release,
    Stamp(u64),
}

// The response with the fields of count, released step and seal, or with the refusal.
#[tactic(auto, unfolding(crate::specs::Calls::register_response))]
fn register_output(a: RegisterAnswer) -> Result<Output, Refusal>
    ensures { response_of result ≡ register_response (register_reply a) }
{
    writing::register_output(
        a.outcome,
        a.register.count,
        a.register.released,
        a.register.seal,
    )
}

// The register of a record, whose class is the seal.
fn register_of(h: Record) -> Register
    ensures { result ≡ register h }
{
    Register {
        curve: h.curve,
        count: h.count,
        seal: h.class,
        released: h.released,
    }
}

impl ByteCall for Call {
    ghost response = { answered };

    // By the call by value.
    #[tactic(auto, unfolding(crate::specs::Calls::answered))]
    fn answer(self, h: Record) -> Result<Output, Refusal> {
        match self {
            Call::Opposite => writing::class_output(jacobian::opposite(h.curve, h.class)),
            Call::Double => writing::class_output(jacobian::double(h.curve, h.class)),
            Call::Half => writing::class_output(jacobian::half(h.curve, h.class)),
            Call::Sum => writing::class_output(jacobian::sum(h.curve, h.previous, h.class)),
            Call::Commit => register_output(register_of(h).commit(h.operation)),
            Call::Undo => register_output(register_of(h).undo(h.operation)),
            Call::Release => register_output(register_of(h).release()),
            Call::Stamp(s) => writing::class_output(stamps::stamp(h.curve, s)),
        }
    }
}

// A call that answers a register.
fn register_call(call: Call, tags: &[u8], input: &[u8], output: &mut [u8]) -> u32
    ensures { effect result output.new ≡ byte_call register_room tags.now (answered call) input.now output.old }
{
    effect::byte_call(call, effect::REGISTER_ROOM, tags, input, output)
}

// The opposite of the class.
pub fn seal_opposite(input: &[u8], output: &mut [u8]) -> u32
    ensures { effect result output.new ≡ opposite_call input.now output.old }
{
    effect::class_call(Call::Opposite, &stored_form::CLASS_LAYOUT, input, output)
}

// The double of the class.
pub fn seal_double(input: &[u8], output: &mut [u8]) -> u32
    ensures { effect result output.new ≡ double_call input.now output.old }
{
    effect::class_call(Call::Double, &stored_form::CLASS_LAYOUT, input, output)
}

// The half of the class: the one class whose double it is.
#[tactic(auto, using(crate::proofs::Promises::halves))]
pub fn seal_half(input: &[u8], output: &mut [u8]) -> u32
    ensures { Halves input.now output.old (effect result output.new) }
{
    effect::class_call(Call::Half, &stored_form::CLASS_LAYOUT, input, output)
}

// The sum of the two classes.
pub fn seal_sum(input: &[u8], output: &mut [u8]) -> u32
    ensures { effect result output.new ≡ sum_call input.now output.old }
{
    effect::class_call(Call::Sum, &stored_form::SUM_LAYOUT, input, output)
}

// The register after a commit of the class.
pub fn seal_commit(input: &[u8], output: &mut [u8]) -> u32
    ensures { effect result output.new ≡ commit_call input.now output.old }
{
    register_call(Call::Commit, &stored_form::STEP_LAYOUT, input, output)
}

// The register after an undo of the class.
#[tactic(auto, using(crate::proofs::Promises::undoes))]
pub fn seal_undo(input: &[u8], output: &mut [u8]) -> u32
    ensures { Undoes input.now output.old (effect result output.new) }
{
    register_call(Call::Undo, &stored_form::STEP_LAYOUT, input, output)
}

// The register after a release: its released step is the count.
pub fn seal_release(input: &[u8], output: &mut [u8]) -> u32
    ensures { effect result output.new ≡ release_call input.now output.old }
{
    register_call(Call::Release, &stored_form::REGISTER_LAYOUT, input, output)
}

// The class of the stamp on the curve of the record.
pub fn seal_stamp(input: &[u8], stamp: u64, output: &mut [u8]) -> u32
    ensures { effect result output.new ≡ stamp_call stamp input.now output.old }
{
    effect::class_call(
        Call::Stamp(stamp),
        &stored_form::CURVE_LAYOUT,
        input,
        output,
    )
}
