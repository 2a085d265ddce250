// The bodies of a curve and of a class: 0x41, 0x43 and 0x44.
ghost use Rattle.std.specs.Prelude.{◌+◌, ◌*◌, ◌≤◌, ◌≡◌, true, length};
ghost use Rattle.stored_form.specs.Number.{part};
ghost use Rattle.stored_form.specs.Head.{class_length, curve_length};
ghost use Rattle.stored_form.specs.Elements.{element_length, decode_elements};
ghost use Rattle.stored_form.specs.{Number.decode_number, Classes.decode_curve, Classes.decode_row, Classes.decode_class};

use crate::{ELEMENT_LENGTH, numbers};
use jacobian::{Class, Curve};
use std::array;

// Element i of a body.
fn decode_element(body: &[u8], i: usize) -> u64
    requires { element_length * i + element_length ≤ length body.now }
    ensures { result ≡ decode_number (part body.now (element_length * i) element_length) }
{
    let at = ELEMENT_LENGTH * i;
    numbers::decode_number(&body[at..at + ELEMENT_LENGTH])
}

// The curve over the field of degree d that a body decodes to.
pub(crate) fn decode_curve(body: &[u8], d: u8) -> Curve
    requires { length body.now ≡ curve_length }
    ensures { result ≡ decode_curve d body.now }
{
    jacobian::curves::curve_with(d, array::from_fn(|i| decode_element(body, i)))
}

// The row that up to three elements decode to; the highest power comes first.
fn decode_row(body: &[u8], n: usize) -> [u64; 3]
    requires { (n ≤ 3) × (length body.now ≡ element_length * n) }
    ensures { result ≡ decode_row (decode_elements n body.now) }
{
    array::from_fn(|i| if i < n {
        decode_element(body, n - 1 - i)
    } else {
        0
    })
}

// The class that a body decodes to.
#[tactic(auto, using(crate::proofs::Lengths::class_length_le, crate::proofs::Lengths::class_length_even, crate::proofs::Items::class_is))]
pub(crate) fn decode_class(body: &[u8]) -> Class
    requires { class_length (length body.now) ≡ true }
    ensures { result ≡ decode_class body.now }
{
    let n = body.len() / (2 * ELEMENT_LENGTH);
    let (u, v) = body.split_at(ELEMENT_LENGTH * n);
    Class {
        degree: n as u64,
        u: decode_row(u, n),
        v: decode_row(v, n),
    }
}
