// The static library for C of n times a class and a class halved k times (include/seal_licence.h): each is the call of
// seal_licence with that name.
#![tactic(auto)]

ghost use Rattle.std.specs.Prelude.{◌≡◌};
ghost use Rattle.written_form.specs.{Effect.effect};
ghost use Rattle.seal_licence.specs.Calls.{multiple_call, HalvesTimes};

use seal_licence::calls;

// n times the class.
#[unsafe(no_mangle)]
pub extern "C" fn seal_multiple(input: &[u8], n: u64, output: &mut [u8]) -> u32
    ensures { effect result output.new ≡ multiple_call n input.now output.old }
{
    calls::seal_multiple(input, n, output)
}

// The class halved k times: the one class that k doublings take to it.
#[unsafe(no_mangle)]
pub extern "C" fn seal_halvings(input: &[u8], k: u64, output: &mut [u8]) -> u32
    ensures { HalvesTimes k input.now output.old (effect result output.new) }
{
    calls::seal_halvings(input, k, output)
}
