// The input of the programs: the domain's length in sixteen bits, the domain, the plan.
#![tactic(auto)]

ghost use Rattle.std.specs.Prelude.{◌≡◌};
ghost use Rattle.input.specs.Split.{split_input, bytes_of};

use bits::reader::Reader;
use bits::refusal::Refusal;
use bits::width::Width;

// The domain's bytes and the plan's; an input whose domain is not whole is refused with the place of its end.
pub fn split(bytes: &[u8]) -> Result<(&[u8], &[u8]), Refusal>
    ensures { bytes_of result ≡ split_input bytes.now }
{
    let (length, _) = Reader::new(bytes).field(Width::SIXTEEN)?;
    let end = 2 + usize::from(length);
    let Some((front, plan)) = bytes.split_at_checked(end) else {
        return Err(Refusal::Ended {
            place: 8 * bytes.len() as u128,
        });
    };
    Ok((&front[2..], plan))
}
