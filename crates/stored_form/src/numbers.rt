// Numbers as bytes, high byte first.
ghost use Rattle.std.specs.Prelude.{◌≡◌, ◌≤◌, length};
ghost use Rattle.stored_form.specs.Number.{decode_number};

// The number that up to eight bytes decode to. The library's `from_be_bytes` takes an array of one width alone, while
// heads and bodies have numbers of 2, 4 and 8 bytes.
#[tactic(auto, using(crate::proofs::Digits::turn, crate::proofs::Digits::shift_fits, crate::proofs::Digits::turn_fits), unfolding(crate::specs::Number::decode_number))]
pub(crate) fn decode_number(bytes: &[u8]) -> u64
    requires { length bytes.now ≤ 8 }
    ensures { result ≡ decode_number bytes.now }
{
    let mut n: u64 = 0;
    for b in bytes {
        n = n * 256 + u64::from(*b);
    }
    n
}
