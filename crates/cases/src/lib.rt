// Worked cases on the sample sheet that is shipped.
#![tactic(auto)]

ghost use Rattle.std.specs.Prelude.{◌≡◌};
ghost use Rattle.sample.specs.Sample.{sample_image};
ghost use Rattle.cases.specs.Cases.{WorkedCases, MoreWorkedCases};

use sheet::IMAGE;

// Here stands the proof, and `sample_image` has none of its own: an edit of it is refused for what it gets wrong, and not for a name that a
// proof wants.
fn worked_sample() -> [u8; IMAGE]
    ensures image { result ≡ sample_image }
    ensures cases { WorkedCases result }
    ensures more { MoreWorkedCases }
{
    sample::sample_image()
}

// The image of the sample sheet. Of this image the contract says what it holds, and eleven worked cases.
pub fn sample_image() -> [u8; IMAGE]
    ensures image { result ≡ sample_image }
    ensures cases { WorkedCases result }
    ensures more { MoreWorkedCases }
{
    worked_sample()
}
