// Reads an archive from standard input, at most 65,536 bytes of it, and writes its walk report line by line, or
// `refused` and the refusal's number.
#![tactic(auto)]

ghost use Rattle.std.specs.Prelude.{OnOk};
ghost use Rattle.std.specs.Io.KnownBytes.{Appends};
ghost use Rattle.walk_report.specs.Report.{report};

use std::io;
use std::io::Write;

// The number of bytes of an archive that are read at most.
const ARCHIVE: usize = 65536;

// Writes the walk report of an archive, one line for each turn, until no line is left.
// The loop is a `while`, since the report's state says how many lines there are.
fn write_report<W: Write>(out: &mut W, archive: &[u8]) -> io::Result<()>
    ensures { OnOk result (Appends (W.contents out.old) (W.contents out.new) (report archive.now)) }
{
    let mut progress = walk_report::begin(archive);
    while progress.is_pending() {
        let answer = progress.next_line(archive);
        answer.line.write_to(out)?;
        progress = answer.progress;
    }
    Ok(())
}

fn main(rt: HostRuntime) -> io::Result<()> {
    let mut archive = [0u8; ARCHIVE];
    let read = text::read_full(&mut rt.stdin(), &mut archive)?;
    write_report(&mut rt.stdout(), &archive[..read])
}
