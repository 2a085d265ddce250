// The degrees of the two fields of elements, GF(2^5) and GF(2^61).
ghost use Rattle.std.specs.Prelude.{◌≡◌, ◌^◌, IfOk};
ghost use Rattle.refusals.specs.Refusals.{refusal_of};
ghost use Rattle.binary_field.specs.Answer.{degree_refusal};
ghost use Rattle.binary_field.specs.Degree.{degree_number};

use refusals::Refusal;

// The degree of a field. An element stays a bare number beside it: a struct of both would owe at each sum and product
// that two degrees are one.
#[derive(Clone, Copy)]
pub(crate) enum Degree {
    Five = 5,
    SixtyOne = 61,
}

impl TryFrom<u8> for Degree {
    type Error = Refusal;

    ghost try_from_gives = { λ d r. (refusal_of r ≡ degree_refusal d) × IfOk r (λ degree. degree_number degree ≡ d) };

    fn try_from(d: u8) -> Result<Degree, Refusal> {
        match d {
            5 => Ok(Degree::Five),
            61 => Ok(Degree::SixtyOne),
            _ => Err(Refusal::WrongDegree),
        }
    }
}

impl From<Degree> for u8 {
    ghost from_gives = { λ degree d. d ≡ degree_number degree };

    fn from(degree: Degree) -> u8 {
        degree as u8
    }
}

impl Degree {
    // The number of elements of the field.
    pub(crate) fn bound(self) -> u64
        ensures { result ≡ 2 ^ degree_number self }
    {
        match self {
            Degree::Five => 0x20,
            Degree::SixtyOne => 0x2000_0000_0000_0000,
        }
    }
}
