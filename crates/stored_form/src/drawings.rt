// The drawing number's bytes.
ghost use Rattle.std.specs.Prelude.{◌≡◌, ◌≤◌, length};
ghost use Rattle.refusals.specs.Refusals.{refusal_of};
ghost use Rattle.stored_form.specs.Head.{drawing_limit};
ghost use Rattle.stored_form.specs.Fields.{printable, drawing_refusal};
ghost use Rattle.stored_form.specs.Record.{decode_drawing, drawing_name};

use crate::{DRAWING_LIMIT, Drawing};
use refusals::Refusal;

impl Drawing {
    // The drawing number that a body decodes to.
    #[tactic(auto, using(crate::proofs::DrawingBytes::drawing_decoded))]
    pub(crate) fn decode(body: &[u8]) -> Drawing
        requires { length body.now ≤ drawing_limit }
        ensures { result ≡ decode_drawing body.now }
    {
        let mut bytes = [0; DRAWING_LIMIT];
        bytes[..body.len()].copy_from_slice(body);
        Drawing {
            len: body.len(),
            bytes,
        }
    }

    // Whether every byte lies in 0x20 to 0x7E.
    fn is_printable(&self) -> bool
        ensures { result ≡ printable (drawing_name self.now) }
    {
        self.bytes
            .iter()
            .take(self.len)
            .all(|b| (0x20..=0x7E).contains(b))
    }

    // Refuses a drawing number with a byte that is not printable.
    #[tactic(auto, unfolding(crate::specs::Fields::drawing_refusal, jacobian::specs::Checks::unless))]
    pub(crate) fn check(&self) -> Result<(), Refusal>
        ensures { refusal_of result ≡ drawing_refusal (drawing_name self.now) }
    {
        if self.is_printable() {
            Ok(())
        } else {
            Err(Refusal::DrawingNumber)
        }
    }
}
