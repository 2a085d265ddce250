// Ranges of bytes, appended to the lent output one after the other.
ghost use Rattle.std.specs.Prelude.{◌≡◌, ◌≤◌, ◌++◌, length, drop};
ghost use Rattle.written_form.specs.Effect.{effect};
ghost use Rattle.written_form.specs.Ranges.{append};

// Copies a source to the front of an output that has room for it.
// The loop is its own, since of two areas that a host lends std's `copy_from_slice` makes the libraries for C call memmove;
// over a `zip` with `iter_mut` its invariant has no name for the output, so it is over an index.
pub(crate) fn copy(source: &[u8], output: &mut [u8])
    requires { length source.now ≤ length output.old }
    ensures { output.new ≡ source.now ++ drop (length source.now) output.old }
{
    for (i, byte) in source.iter().enumerate() {
        output[i] = *byte;
    }
}

// Copies the bytes of a source from start to end to an offset in the output, and answers the offset after them.
// If they do not fit, no byte changes and the answer is the output's length plus 1, after which no range fits.
// Start and end stay two numbers, and an offset past the output's end means that nothing fits, as the definition says.
pub fn append(source: &[u8], start: usize, end: usize, output: &mut [u8], at: usize) -> usize
    ensures { effect result output.new ≡ append source.now start end (effect at output.old) }
{
    let room = output.len();
    if end < start || source.len() < end || room < at || room - at < end - start {
        return room + 1;
    }
    let next = at + (end - start);
    copy(&source[start..end], &mut output[at..next]);
    next
}
