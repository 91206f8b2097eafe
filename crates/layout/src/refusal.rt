// Why an image makes no sheet.
ghost use Rattle.std.specs.Prelude.{◌≡◌};
ghost use Rattle.layout.specs.Refusals.{number_of, place_of};

use thiserror::Error;

#[derive(Clone, Copy, Debug, PartialEq, Eq, Error)]
pub enum Refusal {
    // the image has another length than 116
    #[error("an image has 116 bytes")]
    Length,
    // the edition is not 1, or the count of entries is not 5
    #[error("wrong edition or count of entries")]
    Header,
    // this entry of the table of contents, 1 to 5, is wrong
    #[error("entry {0} of the contents is wrong")]
    Entry(u8),
    // the last two bytes are not the sum of the others
    #[error("wrong sum")]
    Sum,
    // the field at this place is out of its range
    #[error("the field at {0} is out of its range")]
    Range(u8),
    // the field at this place is at odds with another one
    #[error("the field at {0} is at odds with another one")]
    Conflict(u8),
}

impl Refusal {
    // The first wrong entry, the first byte of the wrong field, or 0 where the number says it all. No Option: 0 is how the format says that
    // there is no place, and whoever prints it would turn a None into that 0 again.
    pub fn place(&self) -> u8
        ensures { result ≡ place_of self.now }
    {
        match *self {
            Refusal::Entry(place) | Refusal::Range(place) | Refusal::Conflict(place) => place,
            Refusal::Length | Refusal::Header | Refusal::Sum => 0,
        }
    }
}

impl From<Refusal> for u8 {
    ghost from_gives = { λ refusal number. number ≡ number_of refusal };

    fn from(refusal: Refusal) -> u8 {
        match refusal {
            Refusal::Length => 1,
            Refusal::Header => 2,
            Refusal::Entry(_) => 3,
            Refusal::Sum => 4,
            Refusal::Range(_) => 5,
            Refusal::Conflict(_) => 6,
        }
    }
}
