// The history register by value: a commit, an undo and a release return the next register, or a refusal and the
// register given. The refusal is that of the first check that fails, in the stored order: 106 and 107 of the curve, 109
// of the count, 120 of the released step, 104, 110 and 111 of the seal and then of the class, last 114, or 113 and 121.
// One step of a walk, which has no register, is jacobian::subtract_and_halve.
#![tactic(auto)]

ghost use Rattle.std.specs.Prelude.{◌≡◌};
ghost use Rattle.refusals.specs.Refusals.{refusal_of};
ghost use Rattle.jacobian.specs.{Checks.◌or_else◌, Curves.curve_refusal, Answer.reply, Answer.result as class_result};
ghost use Rattle.count_limit.specs.Limit.{count_refusal, released_refusal};
ghost use Rattle.history.specs.Register.{register_refusal, edge_refusal, register_reply, step_answer, commit_answer, release_answer, StepAnswers, UndoAnswers};
ghost use Rattle.history.specs.internal.Next.{next_reply, moved_reply};

use count_limit::COUNT_LIMIT;
use jacobian::{Class, CountedClass, Curve};
use refusals::Refusal;

// The degree and the curve, the count of operations, the seal and the count at the last release; the operations are not
// kept. In C's layout, since a host keeps a register and lends it; `released` is last, so that an initialiser by
// position that was written before it came keeps its meaning.
#[repr(C)]
#[derive(Clone, Copy, PartialEq, Eq)]
pub struct Register {
    pub curve: Curve,
    pub count: u64,
    pub seal: Class,
    pub released: u64,
}

// What a call on a register answers: each call hands back a register beside its outcome, on a refusal the one given.
#[derive(Clone, Copy, PartialEq, Eq)]
pub struct RegisterAnswer {
    pub outcome: Result<(), Refusal>,
    pub register: Register,
}

// The two steps of a register: a commit takes an operation in, an undo takes the last one out.
#[derive(Clone, Copy, PartialEq, Eq)]
pub enum Step {
    Commit,
    Undo,
}

// The checks of a curve and then of a count.
#[tactic(auto, using(binary_field::proofs::Refusing::stops_first, binary_field::proofs::Refusing::goes_on))]
pub fn check_curve_and_count(curve: Curve, count: u64) -> Result<(), Refusal>
    ensures { refusal_of result ≡ curve_refusal curve or_else count_refusal count }
{
    jacobian::curves::check_curve(curve)?;
    count_limit::check_count(count)
}

impl Register {
    // The checks of the count and then of the released step.
    #[tactic(auto, using(binary_field::proofs::Refusing::stops_first, binary_field::proofs::Refusing::goes_on))]
    fn check_counts(self) -> Result<(), Refusal>
        ensures { refusal_of result ≡ count_refusal self.count or_else released_refusal self.count self.released }
    {
        count_limit::check_count(self.count)?;
        count_limit::check_released(self.count, self.released)
    }

    // The checks of the register: of the curve, the count, the released step and the seal.
    #[tactic(auto, using(binary_field::proofs::Refusing::stops_first, crate::proofs::Numbers::register_stops, crate::proofs::Numbers::register_goes_on), unfolding(crate::specs::Register::register_refusal))]
    fn check(self) -> Result<(), Refusal>
        ensures { refusal_of result ≡ register_refusal self }
    {
        jacobian::curves::check_curve(self.curve)?;
        self.check_counts()?;
        jacobian::check_class(self.curve, self.seal)
    }

    // The last checks of a step: there is room for one more operation, or there is one to take out.
    #[tactic(auto, unfolding(crate::specs::Register::edge_refusal, count_limit::specs::Limit::count_limit))]
    fn check_edge(self, step: Step) -> Result<(), Refusal>
        ensures { refusal_of result ≡ edge_refusal step self.count self.released }
    {
        match step {
            Step::Commit if self.count == COUNT_LIMIT => Err(Refusal::CommitAtLimit),
            Step::Undo if self.count == 0 => Err(Refusal::UndoAtZero),
            Step::Undo if self.count == self.released => Err(Refusal::UndoAtReleased),
            _ => Ok(()),
        }
    }

    // The register moved to this count, with the answered class as its seal.
    #[tactic(auto, using(crate::proofs::Answers::moved_accepted, crate::proofs::Answers::moved_refused), unfolding(crate::specs::Register::with_count_and_seal))]
    fn moved(self, count: u64, answer: Result<CountedClass, Refusal>) -> Result<Register, Refusal>
        ensures { next_reply self result ≡ moved_reply self count (class_result (reply answer)) }
    {
        let seal = answer?.class;
        Ok(Register {
            count,
            seal,
            ..self
        })
    }

    // The register after a step. If accepted, the checks of the classes run once, inside the class operation.
    #[tactic(auto, using(crate::proofs::Numbers::step_rules))]
    fn after_step(self, step: Step, class: Class) -> Result<Register, Refusal>
        ensures { next_reply self result ≡ step_answer step self class }
    {
        if let Err(refusal) = self.check_counts() {
            jacobian::curves::check_curve(self.curve)?;
            return Err(refusal);
        }
        if let Err(refusal) = self.check_edge(step) {
            jacobian::check_class(self.curve, self.seal)?;
            jacobian::check_class(self.curve, class)?;
            return Err(refusal);
        }
        match step {
            Step::Commit => self.moved(
                self.count + 1,
                jacobian::double_and_add(self.curve, self.seal, class),
            ),
            Step::Undo => self.moved(
                self.count - 1,
                jacobian::subtract_and_halve(self.curve, self.seal, class),
            ),
        }
    }

    // The register after a release.
    #[tactic(auto, using(crate::proofs::Numbers::release_refuses, crate::proofs::Numbers::release_follows), unfolding(crate::specs::Register::with_released))]
    fn after_release(self) -> Result<Register, Refusal>
        ensures { next_reply self result ≡ release_answer self }
    {
        self.check()?;
        Ok(Register {
            released: self.count,
            ..self
        })
    }

    // The next register, or the refusal with this one.
    fn answered(self, next: Result<Register, Refusal>) -> RegisterAnswer
        ensures { register_reply result ≡ next_reply self next }
    {
        match next {
            Ok(register) => RegisterAnswer {
                outcome: Ok(()),
                register,
            },
            Err(refusal) => RegisterAnswer {
                outcome: Err(refusal),
                register: self,
            },
        }
    }

    // One step with a class.
    #[tactic(auto, using(crate::proofs::Promises::step_promised))]
    pub fn step(self, step: Step, class: Class) -> RegisterAnswer
        ensures { StepAnswers step self class (register_reply result) }
    {
        self.answered(self.after_step(step, class))
    }

    // The new seal is twice the old seal plus the operation's class, and the count grows by 1.
    pub fn commit(self, class: Class) -> RegisterAnswer
        ensures { register_reply result ≡ commit_answer self class }
    {
        self.step(Step::Commit, class)
    }

    // The new seal is the one that a commit of the class takes to the old seal, and the count falls by 1.
    pub fn undo(self, class: Class) -> RegisterAnswer
        ensures { UndoAnswers self class (register_reply result) }
    {
        self.step(Step::Undo, class)
    }

    // The released step becomes the count, and all else stays.
    pub fn release(self) -> RegisterAnswer
        ensures { register_reply result ≡ release_answer self }
    {
        self.answered(self.after_release())
    }
}
