// An archive's walk report, line by line.
// The archive is read twice: once for all checks, then operation by operation as the lines are made.
// Each line needs the report's state and the input from the next field on.
#![tactic(auto)]

ghost use Rattle.std.specs.Prelude.{◌≡◌, ℕ, List};
ghost use Rattle.jacobian.specs.Answer.{reply};
ghost use Rattle.archive.specs.{Archive.archive_refusal, Reader.advance_reading, Reader.read_header};
ghost use Rattle.stored_form.specs.{Record.drawing_name, Reading.checked};
ghost use Rattle.text.specs.Line.{in_line};
ghost use Rattle.walk_report.specs.Lines.{line, first_line};
ghost use Rattle.walk_report.specs.Steps.{with_stage, progress, older, advanced, line_answer, undone, next_line, refused_report, begin, pending};

mod letters;
mod lines;

use archive::{Advance, Expected, Reader};
use jacobian::{Class, CountedClass};
use refusals::Refusal;
use stored_form::{Cursor, DRAWING_LIMIT, Record};
use text::Line;

// The line that is expected next.
#[derive(Clone, Copy)]
pub enum Stage {
    // `refused` and this number: a number and no `Refusal`, as in the specification's state.
    Refusal(u32),
    // walk, the count and the drawing number.
    First,
    // The last seal.
    Last,
    // The seal before the operation to undo next.
    Undo,
    // None: the report is over.
    Over,
}

// The report's state: the next line, the reader of the second pass, the last seal and the operation to undo next.
#[derive(Clone, Copy)]
pub struct Report {
    pub stage: Stage,
    pub reader: Reader,
    pub seal: Class,
    pub operation: Class,
}

// The report's state, and the offset of the next field.
#[derive(Clone, Copy)]
pub struct Progress {
    pub report: Report,
    pub next: Cursor,
}

// A line, and the report's state after it with the offset of the next field.
#[derive(Clone, Copy)]
pub struct LineAnswer {
    pub line: Line,
    pub progress: Progress,
}

// The class of an answer; of a refusal the neutral class.
fn class_of(answer: Result<CountedClass, Refusal>) -> Class
    ensures { result ≡ (reply answer).class }
{
    answer.map_or_else(|_| jacobian::neutral(), |counted| counted.class)
}

// The number of operations still to be read.
fn older(expected: Expected) -> u64
    ensures { result ≡ older expected }
{
    match expected {
        Expected::Operations(n) => n,
        _ => 0,
    }
}

impl Progress {
    // Reads the next operation, which is to be undone next; if none is left, the report is over.
    #[tactic(auto, using(crate::proofs::Advances::none_older, crate::proofs::Advances::next_refused, crate::proofs::Advances::next_operation))]
    fn advanced(self, s: &[u8]) -> Progress
        ensures { result ≡ advanced self.report s.now self.next.at }
    {
        if older(self.report.reader.expected) > 0
            && let Ok(Advance { reader, next }) = archive::read_next(
                self.report.reader,
                s,
                self.next,
            )
        {
            return Progress {
                report: Report {
                    stage: Stage::Undo,
                    reader,
                    operation: reader.values.operation,
                    ..self.report
                },
                next,
            };
        }
        Progress {
            report: Report {
                stage: Stage::Over,
                ..self.report
            },
            ..self
        }
    }

    // Undoes the next operation and makes the line of the seal before it.
    #[tactic(auto, unfolding(crate::specs::Steps::line_answer, crate::specs::Steps::undone))]
    fn undone(self, s: &[u8]) -> LineAnswer
        ensures { result ≡ line_answer (undone self.report s.now self.next.at) }
    {
        let Reader { expected, values } = self.report.reader;
        let seal = class_of(jacobian::subtract_and_halve(
            values.curve,
            self.report.seal,
            self.report.operation,
        ));
        let Progress { report, next } = self.advanced(s);
        let undone = values.count.saturating_sub(older(expected));
        let letter = letters::letter_before(values.curve, self.report.operation, report);
        LineAnswer {
            line: lines::seal_line(undone, letter, seal),
            progress: Progress {
                report: Report { seal, ..report },
                next,
            },
        }
    }

    // The line of the last seal; the newest operation is to be undone next.
    #[tactic(auto, unfolding(crate::specs::Steps::line_answer))]
    fn last_line(self, s: &[u8]) -> LineAnswer
        ensures { result ≡ line_answer (record { text = line 0 0x2E self.report.seal; progress = advanced self.report s.now self.next.at }) }
    {
        LineAnswer {
            line: lines::seal_line(0, b'.', self.report.seal),
            progress: self.advanced(s),
        }
    }

    // The first line of the report.
    #[tactic(auto, using(crate::proofs::Advances::take_min), unfolding(stored_form::specs::Record::drawing_name))]
    fn first_line(self) -> Line
        ensures { let values = self.report.reader.values in result ≡ in_line (first_line values.count (drawing_name values.drawing)) }
    {
        let Record { count, drawing, .. } = self.report.reader.values;
        lines::first_line(count, &drawing.bytes[..drawing.len.min(DRAWING_LIMIT)])
    }

    // The answer with this line and the state with another line expected.
    #[tactic(auto, unfolding(crate::specs::Steps::line_answer))]
    fn answer(self, line: Line, stage: Stage) -> LineAnswer
        ensures { (text : List ℕ) → line ≡ in_line text → result ≡ line_answer (record { text = text; progress = progress (with_stage stage self.report) self.next.at }) }
    {
        LineAnswer {
            line,
            progress: Progress {
                report: Report {
                    stage,
                    ..self.report
                },
                ..self
            },
        }
    }

    // Whether a line is still to come.
    pub fn is_pending(self) -> bool
        ensures { result ≡ pending self.report.stage }
    {
        !matches!(self.report.stage, Stage::Over)
    }

    // Makes the line that is expected, from the input at the next field; it is empty if the report is over.
    // The stage is the state's own, so closures in its place would say no more.
    #[tactic(auto, unfolding(crate::specs::Steps::next_line, crate::specs::Steps::next_of))]
    pub fn next_line(self, s: &[u8]) -> LineAnswer
        ensures { result ≡ line_answer (next_line self.report s.now self.next.at) }
    {
        match self.report.stage {
            Stage::Refusal(n) => self.answer(lines::refusal_line(n), Stage::Over),
            Stage::First => self.answer(self.first_line(), Stage::Last),
            Stage::Last => self.last_line(s),
            Stage::Undo => self.undone(s),
            Stage::Over => self.answer(Line::new(), Stage::Over),
        }
    }
}

// The state of a report that is a refusal alone.
#[tactic(auto, unfolding(crate::specs::Steps::refused_report))]
fn refused(n: u32) -> Progress
    ensures { result ≡ refused_report n }
{
    Progress {
        report: Report {
            stage: Stage::Refusal(n),
            reader: archive::start(),
            seal: jacobian::neutral(),
            operation: jacobian::neutral(),
        },
        next: Cursor { at: 0 },
    }
}

// Makes all checks of an archive, then reads the header again.
#[tactic(auto, using(stored_form::proofs::Readings::check_stops, stored_form::proofs::Readings::check_passes))]
fn checked_header(s: &[u8]) -> Result<Advance, Refusal>
    ensures { advance_reading result ≡ checked (archive_refusal s.now) (read_header s.now) }
{
    archive::check_archive(s)?;
    archive::read_header(s)
}

// The state before the first line of an archive's report, and the offset of its first operation.
#[tactic(auto, using(crate::proofs::Advances::begin_first, crate::proofs::Advances::begin_refused))]
pub fn begin(s: &[u8]) -> Progress
    ensures { result ≡ begin s.now }
{
    match checked_header(s) {
        Ok(Advance { reader, next }) => Progress {
            report: Report {
                stage: Stage::First,
                reader,
                seal: reader.values.class,
                operation: jacobian::neutral(),
            },
            next,
        },
        Err(refusal) => refused(refusal.number()),
    }
}
