// The lines of the report.
ghost use Rattle.std.specs.Prelude.{◌≡◌, ◌≤◌, length};
ghost use Rattle.stored_form.specs.Head.{drawing_limit};
ghost use Rattle.text.specs.Line.{in_line};
ghost use Rattle.walk_report.specs.Lines.{line, first_line, refusal_line};

use jacobian::Class;
use text::Line;

// The line of a seal.
#[tactic(auto, using(text::proofs::Appending::both, text::proofs::Appending::laid, crate::proofs::LineParts::seal_short), unfolding(crate::specs::Lines::line))]
pub(crate) fn seal_line(undone: u64, letter: u8, seal: Class) -> Line
    ensures { result ≡ in_line (line undone letter seal) }
{
    let mut line = Line::new();
    line.push_decimal(undone);
    line.push(b' ');
    line.push(letter);
    line.push(b' ');
    line.push_class(seal.degree, seal.u, seal.v, seal.degree);
    line.push(b'\n');
    line
}

// The line of a refusal.
#[tactic(auto, using(text::proofs::Appending::both, text::proofs::Appending::laid, crate::proofs::LineParts::refusal_line_short), unfolding(crate::specs::Lines::refusal_line))]
pub(crate) fn refusal_line(n: u32) -> Line
    ensures { result ≡ in_line (refusal_line n) }
{
    let mut line = Line::new();
    line.push_refusal(n);
    line.push(b'\n');
    line
}

// The first line: walk, the count and the drawing number.
pub(crate) fn first_line(count: u64, drawing: &[u8]) -> Line
    requires { length drawing.now ≤ drawing_limit }
    ensures { result ≡ in_line (first_line count drawing.now) }
{
    let mut line = Line::new();
    line.push_bytes(b"walk ");
    line.push_decimal(count);
    if !drawing.is_empty() {
        line.push(b' ');
        line.push_bytes(drawing);
    }
    line.push(b'\n');
    line
}
