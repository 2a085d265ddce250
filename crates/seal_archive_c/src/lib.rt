// The static library for C of the call on whole archives (include/seal_archive.h): it is the call of seal_archive with
// that name.
#![tactic(auto)]

ghost use Rattle.std.specs.Prelude.{◌≡◌};
ghost use Rattle.seal_archive.specs.Suppress.{written_effect, suppress_call};

use seal_archive::suppress;
use seal_archive::suppress::Written;

// Suppresses operation k of an archive, counted 1 to n from the oldest: the new archive is written to the output.
// 101 comes first, then every check of the archive, then 123 of k, and last 124 of an operation that is held.
#[unsafe(no_mangle)]
pub extern "C" fn seal_suppress(input: &[u8], k: u64, output: &mut [u8]) -> Written
    ensures { written_effect result output.new ≡ suppress_call input.now k output.old }
{
    suppress::seal_suppress(input, k, output)
}
