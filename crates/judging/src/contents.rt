// The front of an image, its table of contents, and the sum at its end.
ghost use Rattle.std.specs.Prelude.{◌≡◌, ◌+◌, ◌<◌, length, Ok, slice_index};
ghost use Rattle.layout.specs.declared.refusal.Refusal.TheVariants.{Entry};
ghost use Rattle.layout.specs.Fields.{word};
ghost use Rattle.layout.specs.Rules.{first_broken, is_entry, entry_rules};
ghost use Rattle.layout.specs.Decoded.{refuse, contents, summed};

use super::broken::first_broken;
use layout::{IMAGE, Refusal, Rule, body_sum, word_at};

// Whether the entry whose four bytes begin at a place is the wanted one: kind of body, length, offset. The kind is a byte of the format
// that is only compared: an enum would be turned into the byte at once.
fn is_entry(rest: &[u8], at: usize, kind: u8, size: u8, offset: u16) -> bool
    requires { at + 3 < length rest.now }
    ensures { result ≡ is_entry (slice_index rest.now at) (slice_index rest.now (at + 1)) (word rest.now (at + 2)) kind size offset }
{
    rest[at] == kind && rest[at + 1] == size && word_at(rest, at + 2) == offset
}

// The rules of the five entries, which begin what follows the edition and the count.
fn entry_rules(rest: &[u8]) -> [Rule; 5]
    requires { length rest.now ≡ 114 }
    ensures { result ≡ entry_rules rest.now }
{
    [
        Rule {
            place: 1,
            kept: is_entry(rest, 0, 1, 22, 22),
        },
        Rule {
            place: 2,
            kept: is_entry(rest, 4, 2, 12, 44),
        },
        Rule {
            place: 3,
            kept: is_entry(rest, 8, 3, 42, 56),
        },
        Rule {
            place: 4,
            kept: is_entry(rest, 12, 4, 12, 98),
        },
        Rule {
            place: 5,
            kept: is_entry(rest, 16, 5, 4, 110),
        },
    ]
}

pub(crate) fn check_contents(image: &[u8; IMAGE]) -> Result<(), Refusal>
    ensures { result ≡ contents image.now }
{
    let [edition, count, ..] = image;
    if *edition != 1 || *count != 5 {
        return Err(Refusal::Header);
    }
    first_broken(&entry_rules(&image[2..])).map_or(Ok(()), |place| Err(Refusal::Entry(place)))
}

pub(crate) fn check_sum(image: &[u8; IMAGE]) -> Result<(), Refusal>
    ensures { result ≡ summed image.now }
{
    if body_sum(image) == word_at(image, 114) {
        Ok(())
    } else {
        Err(Refusal::Sum)
    }
}
