// Bodies decoded by their tags, and the checks 106 to 111 and 120 of their values.
ghost use Rattle.std.specs.Prelude.{◌≡◌, ℕ, true, length};
ghost use Rattle.refusals.specs.Refusals.{refusal_of};
ghost use Rattle.stored_form.specs.{Record.curve_of_degree, Tags.rules};

use crate::{
    CLASS, COUNT, CURVE, DEGREE, DRAWING, Drawing, OPERATION, RELEASED, Record, classes, numbers,
};
use jacobian::curves::COEFFICIENTS;
use jacobian::{Curve, curves};
use refusals::Refusal;

// The curve over the field of degree d with all coefficients 0.
#[tactic(auto, unfolding(crate::specs::Record::curve_of_degree))]
fn curve_of_degree(d: u8) -> Curve
    ensures { result ≡ curve_of_degree d }
{
    curves::curve_with(d, [0; COEFFICIENTS])
}

impl Record {
    // The record with the value of this tag that a body decodes to.
    #[tactic(auto, using(crate::proofs::Digits::one_byte), unfolding(crate::specs::Tags::rules))]
    pub(crate) fn with_field(self, tag: u8, body: &[u8]) -> Record
        requires { (rules tag).allows self (length body.now) ≡ true }
        ensures { result ≡ (rules tag).with_field body.now self }
    {
        match tag {
            DEGREE => Record {
                curve: curve_of_degree(body[0]),
                ..self
            },
            CURVE => Record {
                curve: classes::decode_curve(body, self.curve.degree),
                ..self
            },
            DRAWING => Record {
                drawing: Drawing::decode(body),
                ..self
            },
            COUNT => Record {
                count: numbers::decode_number(body),
                ..self
            },
            RELEASED => Record {
                released: numbers::decode_number(body),
                ..self
            },
            CLASS => Record {
                previous: self.class,
                class: classes::decode_class(body),
                ..self
            },
            OPERATION => Record {
                operation: classes::decode_class(body),
                ..self
            },
            _ => self,
        }
    }

    // Refuses the record where the value of this tag breaks a rule.
    #[tactic(auto, unfolding(crate::specs::Tags::rules))]
    pub(crate) fn check_field(&self, tag: u8) -> Result<(), Refusal>
        ensures { (len : ℕ) → refusal_of result ≡ (rules tag).check len self.now }
    {
        match tag {
            DEGREE => binary_field::check_degree(self.curve.degree),
            CURVE => curves::check_curve(self.curve),
            DRAWING => self.drawing.check(),
            COUNT => count_limit::check_count(self.count),
            RELEASED => count_limit::check_released(self.count, self.released),
            CLASS => jacobian::check_class(self.curve, self.class),
            OPERATION => jacobian::check_class(self.curve, self.operation),
            _ => Ok(()),
        }
    }
}
