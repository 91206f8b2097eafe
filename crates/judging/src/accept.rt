// The judgement of an image: its limits, or the refusal that it is owed.
ghost use Rattle.std.specs.Prelude.{◌≡◌, true, IfOk};
ghost use Rattle.layout.specs.Accepted.{sound, fits};
ghost use Rattle.layout.specs.Decoded.{decoded};
ghost use Rattle.layout.specs.Laws.{Judged, WritesBack, OneImage};

use super::agreement::check_agreement;
use super::contents::{check_contents, check_sum};
use super::ranges::check_ranges;
use layout::{IMAGE, Limits, Refusal, read_limits};

// The checks, in the order of their refusals' numbers: the first refusal counts.
fn check(image: &[u8]) -> Result<Limits, Refusal>
    ensures { result ≡ decoded image.now }
{
    let Ok(image) = <&[u8; IMAGE]>::try_from(image) else {
        return Err(Refusal::Length);
    };
    check_contents(image)?;
    check_sum(image)?;
    let limits = read_limits(image);
    check_ranges(&limits)?;
    check_agreement(&limits)?;
    Ok(limits)
}

// The same, with what follows of the checks, said once for all seven ways out of them.
pub fn judge(image: &[u8]) -> Result<Limits, Refusal>
    ensures value { result ≡ decoded image.now }
    ensures judged { Judged image.now result }
    ensures back { WritesBack image.now result }
    ensures only { OneImage image.now result }
    ensures valid { IfOk result (λ l. sound l ≡ true) }
    ensures sized { IfOk result (λ l. fits l ≡ true) }
{
    check(image)
}
