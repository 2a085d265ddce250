// The static library for C of the calls on byte areas (include/seal.h): each is the call of seal with that name.
#![tactic(auto)]

ghost use Rattle.std.specs.Prelude.{◌≡◌};
ghost use Rattle.written_form.specs.{Effect.effect};
ghost use Rattle.seal.specs.Calls.{membership_call, opposite_call, double_call, sum_call, commit_call, release_call, stamp_call, Halves, Undoes};

use seal::calls;

// Whether the record's pair is a class of its curve: 0 if it is, else the refusal.
#[unsafe(no_mangle)]
pub extern "C" fn seal_membership(input: &[u8]) -> u32
    ensures { result ≡ membership_call input.now }
{
    calls::seal_membership(input)
}

// The opposite of the class.
#[unsafe(no_mangle)]
pub extern "C" fn seal_opposite(input: &[u8], output: &mut [u8]) -> u32
    ensures { effect result output.new ≡ opposite_call input.now output.old }
{
    calls::seal_opposite(input, output)
}

// The double of the class.
#[unsafe(no_mangle)]
pub extern "C" fn seal_double(input: &[u8], output: &mut [u8]) -> u32
    ensures { effect result output.new ≡ double_call input.now output.old }
{
    calls::seal_double(input, output)
}

// The half of the class: the one class whose double it is.
#[unsafe(no_mangle)]
pub extern "C" fn seal_half(input: &[u8], output: &mut [u8]) -> u32
    ensures { Halves input.now output.old (effect result output.new) }
{
    calls::seal_half(input, output)
}

// The sum of the two classes.
#[unsafe(no_mangle)]
pub extern "C" fn seal_sum(input: &[u8], output: &mut [u8]) -> u32
    ensures { effect result output.new ≡ sum_call input.now output.old }
{
    calls::seal_sum(input, output)
}

// The register after a commit of the class.
#[unsafe(no_mangle)]
pub extern "C" fn seal_commit(input: &[u8], output: &mut [u8]) -> u32
    ensures { effect result output.new ≡ commit_call input.now output.old }
{
    calls::seal_commit(input, output)
}

// The register after an undo of the class.
#[unsafe(no_mangle)]
pub extern "C" fn seal_undo(input: &[u8], output: &mut [u8]) -> u32
    ensures { Undoes input.now output.old (effect result output.new) }
{
    calls::seal_undo(input, output)
}

// The register after a release: its released step is the count.
#[unsafe(no_mangle)]
pub extern "C" fn seal_release(input: &[u8], output: &mut [u8]) -> u32
    ensures { effect result output.new ≡ release_call input.now output.old }
{
    calls::seal_release(input, output)
}

// The class of the stamp on the curve of the record.
#[unsafe(no_mangle)]
pub extern "C" fn seal_stamp(input: &[u8], stamp: u64, output: &mut [u8]) -> u32
    ensures { effect result output.new ≡ stamp_call stamp input.now output.old }
{
    calls::seal_stamp(input, stamp, output)
}
