// What came of an image: a refusal or none, the number and the place that it is told by, and the line that tells it.
ghost use Rattle.std.specs.Prelude.{◌≡◌, Some};
ghost use Rattle.sheet.specs.Verdicts.{limits_in, verdict_of, number_in, place_in, numbers_of, line_in, line_of};

use super::sheet::Sheet;
use layout::Refusal;
use std::fmt;

#[derive(Clone, Copy, Debug, PartialEq, Eq)]
pub struct Verdict {
    // why there is no sheet; none where there is one
    pub refusal: Option<Refusal>,
}

impl Verdict {
    // 0 where the image was accepted: the format's own number. Whoever wants the refusal itself has the field.
    pub fn number(&self) -> u8
        ensures { result ≡ number_in self.now.refusal }
    {
        self.refusal.map_or(0, u8::from)
    }

    // 0 where the image was accepted, or the refusal names no place.
    pub fn place(&self) -> u8
        ensures { result ≡ place_in self.now.refusal }
    {
        self.refusal.map_or(0, |refusal| refusal.place())
    }
}

impl From<&Result<Sheet, Refusal>> for Verdict {
    ghost from_gives = { λ judged verdict. verdict ≡ verdict_of (limits_in judged.now) };

    fn from(judged: &Result<Sheet, Refusal>) -> Verdict {
        Verdict {
            refusal: judged.as_ref().err().copied(),
        }
    }
}

// The numbers of a verdict, as its line tells them. Any two: a host prints with them what it was told as numbers, or a refusal that no
// image brings, such as that of a pair out of range.
#[derive(Clone, Copy, Debug, PartialEq, Eq)]
pub struct VerdictNumbers {
    pub number: u8,
    pub place: u8,
}

impl From<Verdict> for VerdictNumbers {
    ghost from_gives = { λ verdict numbers. numbers ≡ numbers_of verdict };

    fn from(verdict: Verdict) -> VerdictNumbers {
        VerdictNumbers {
            number: verdict.number(),
            place: verdict.place(),
        }
    }
}

impl fmt::Display for VerdictNumbers {
    ghost output = { λ n. Some (line_in n) };

    fn fmt<W: fmt::Write>(&self, f: &mut fmt::Formatter<W>) -> fmt::Result {
        let number = self.number;
        let place = self.place;
        write!(f, "sheet {number} {place}")
    }
}

impl fmt::Display for Verdict {
    ghost output = { λ v. Some (line_of v) };

    fn fmt<W: fmt::Write>(&self, f: &mut fmt::Formatter<W>) -> fmt::Result {
        VerdictNumbers::from(*self).fmt(f)
    }
}
