// A class by value: its checks, and its pair as rows.
ghost use Rattle.std.specs.Prelude.{ℕ, ◌≤◌, ◌≡◌, ◌&&◌, length};
ghost use Rattle.binary_field_theory.specs.Element.{Accepted};
ghost use Rattle.refusals.specs.Refusals.{refusal_of};
ghost use Rattle.row_theory.specs.Row.{InRange, filled};
ghost use Rattle.class_rows.specs.Pair.{rows_pair};
ghost use Rattle.binary_field.specs.Answer.{below};
ghost use Rattle.jacobian.specs.{Checks.unless, Curves.curve_refusal, internal.Refusals.form_refusal};
ghost use Rattle.jacobian.specs.{Classes.class_of, Classes.padded, Classes.shape_refusal, Classes.class_refusal, internal.ClassRows.RowsOf, internal.ClassRows.first};

use crate::curves::{self, all_below};
use crate::{Class, Curve};
use class_rows::is_divisor;
use class_rows::row::{Row, RowPair, length};
use refusals::Refusal;

// Is every number from index n on 0?
fn blank_from(n: u64, r: [u64; 3]) -> bool
    requires { n ≤ 3 }
    ensures { result ≡ padded n r }
{
    r[n as usize..].iter().all(|&x| x == 0)
}

// The numbers in a row of twelve, with 0 after them.
fn filled(numbers: &[u64]) -> Row
    requires { length numbers.now ≤ 12 }
    ensures { result ≡ filled numbers.now }
{
    let mut row = [0; 12];
    row[..numbers.len()].copy_from_slice(numbers);
    row
}

// The numbers of a row below index n, in a row of three.
fn narrowed(n: usize, r: Row) -> [u64; 3]
    ensures { result ≡ first n r }
{
    let n = n.min(3);
    let mut low = [0; 3];
    low[..n].copy_from_slice(&r[..n]);
    low
}

impl Class {
    // The pair of a class, as rows. The leading 1 of u stands at its degree.
    pub(crate) fn rows(self) -> RowPair
        requires { self.degree ≤ 3 }
        ensures { RowsOf self result }
    {
        let n = self.degree as usize;
        let mut u = filled(&self.u[..n]);
        u[n] = 1;
        RowPair {
            u,
            v: filled(&self.v),
        }
    }
}

// The class of a pair of rows.
impl From<RowPair> for Class {
    ghost from_gives = { λ a c. (d : ℕ) → InRange d a.u → InRange d a.v → c ≡ class_of d (rows_pair d a) };

    fn from(a: RowPair) -> Class {
        let degree = length(a.u).saturating_sub(1);
        Class {
            degree: degree as u64,
            u: narrowed(degree, a.u),
            v: narrowed(degree, a.v),
        }
    }
}

// Refuses a class with a degree above 3 or a number other than 0 from the degree on.
fn check_shape(a: Class) -> Result<(), Refusal>
    ensures { refusal_of result ≡ shape_refusal a }
{
    if a.degree <= 3 && blank_from(a.degree, a.u) && blank_from(a.degree, a.v) {
        Ok(())
    } else {
        Err(Refusal::WrongLength)
    }
}

// Refuses a class with a number of m or more.
fn check_range(m: u64, a: Class) -> Result<(), Refusal>
    ensures { refusal_of result ≡ unless (below m a.u && below m a.v) 110 }
{
    if all_below(m, &a.u) && all_below(m, &a.v) {
        Ok(())
    } else {
        Err(Refusal::NotAnElement)
    }
}

// The checks of a class before the division: its shape, then its range.
pub(crate) fn check_form(d: u8, a: Class) -> Result<(), Refusal>
    requires { Accepted d }
    ensures { refusal_of result ≡ form_refusal d a }
{
    check_shape(a)?;
    check_range(binary_field::bound(d), a)
}

// The last check of a class in form: u divides v² + v + f.
pub(crate) fn check_divisor(c: Curve, a: Class) -> Result<(), Refusal>
    requires { (curve_refusal c ≡ 0) × (form_refusal c.degree a ≡ 0) }
    ensures { refusal_of result ≡ class_refusal c a }
{
    if is_divisor(c.degree, curves::f_row(c), a.rows()) {
        Ok(())
    } else {
        Err(Refusal::NotAClass)
    }
}
