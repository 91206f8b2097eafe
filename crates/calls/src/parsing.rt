// From a record to the call that it asks for, or to the refusal that it is owed.
ghost use Rattle.std.specs.Prelude.{◌≡◌, slice_index};
ghost use Rattle.calls.specs.Parsed.{by_letter, parsed};
ghost use Rattle.calls.specs.Laws.{ParsedExactly, RangedResult};

use super::call::Call;
use super::fields::RECORD;
use super::kinds::{parse_bare, parse_limit, parse_reading, parse_switch};
use super::rejection::Rejection;

// A record of the right length goes by its first byte, which names its kind.
fn parse_record(bytes: &[u8; RECORD]) -> Result<Call, Rejection>
    ensures { result ≡ by_letter (slice_index bytes.now 0) bytes.now }
{
    match bytes[0] {
        b'R' => parse_reading(bytes),
        b'W' => parse_bare(bytes, Call::Word),
        b'L' => parse_limit(bytes),
        b'S' => parse_switch(bytes),
        b'C' => parse_bare(bytes, Call::Clear),
        _ => Err(Rejection::Letter),
    }
}

// The call that a record asks for, or the first refusal that the record is owed. A function and no TryFrom, so that each of its three
// promises is a clause with a name.
pub fn parse(bytes: &[u8]) -> Result<Call, Rejection>
    ensures value { result ≡ parsed bytes.now }
    ensures exact { ParsedExactly bytes.now result }
    ensures ranged { RangedResult result }
{
    let Ok(record) = <&[u8; RECORD]>::try_from(bytes) else {
        return Err(Rejection::Length);
    };
    parse_record(record)
}

#[cfg(test)]
mod tests {
    use super::*;
    use crate::call::Offs;
    use reading::Reading;
    use std::test::Fail;

    // The number of the refusal of a record, or 0, as an answer's line has it: the tests keep the numbers of the format.
    fn refusal(bytes: &[u8]) -> u8 {
        parse(bytes).err().map_or(0, u8::from)
    }

    fn with_words(letter: u8, flags: u8, first: u16, second: u16) -> [u8; RECORD] {
        let [a, b] = first.to_le_bytes();
        let [c, d] = second.to_le_bytes();
        [letter, flags, a, b, c, d, 0, 0, 0, 0, 0, 0]
    }

    // Each refusal on both sides of its boundary, and each before the next in their order.
    #[test]
    fn refusals_at_their_boundaries(rt: HostRuntime) {
        assert_eq!(rt; refusal(&[]), 11);
        assert_eq!(rt; refusal(&[b'X'; 11]), 11);
        assert_eq!(rt; refusal(&[b'X'; 13]), 11);
        assert_eq!(rt; refusal(&[b'X'; 12]), 7);
        assert_eq!(rt; refusal(&with_words(b'W', 0, 0, 0)), 0);
        assert_eq!(rt; refusal(&with_words(b'W', 1, 0, 0)), 8);
        assert_eq!(rt; refusal(&with_words(b'C', 0, 0, 0x100)), 8);
        assert_eq!(rt; refusal(&with_words(b'S', 4, 0, 0)), 8);
        assert_eq!(rt; refusal(&with_words(b'R', 2, 0, 0)), 8);
        assert_eq!(rt; refusal(&with_words(b'R', 1, 0, 6_000)), 9);
        assert_eq!(rt; refusal(&with_words(b'R', 1, 1, 6_000)), 0);
        assert_eq!(rt; refusal(&with_words(b'R', 1, 60_000, 6_001)), 9);
        assert_eq!(rt; refusal(&with_words(b'R', 1, 60_001, 6_000)), 9);
        assert_eq!(rt; refusal(&with_words(b'L', 0, 20_000, 0)), 0);
        assert_eq!(rt; refusal(&with_words(b'L', 0, 20_001, 0)), 9);
        assert_eq!(rt; refusal(&with_words(b'L', 0, 20_001, 1)), 8);
    }

    // A reading, an unknown letter, and both switch-offs.
    #[test]
    fn three_records(rt: HostRuntime) {
        let record = [
            0x52, 0x01, 0x5F, 0x01, 0x10, 0x0E, 0xF4, 0x01, 0x00, 0x19, 0x00, 0x1E,
        ];
        let reading = Reading {
            charger: true,
            elapsed: 351,
            voltage: 3_600,
            current: 500,
            cell: 6_400,
            die: 7_680,
        };
        let offs = Offs {
            charge: true,
            discharge: true,
        };
        assert_eq!(rt; parse(&record), Ok(Call::Read(reading)));
        assert_eq!(rt; refusal(&with_words(b'X', 0, 0, 0)), 7);
        assert_eq!(rt; parse(&with_words(b'S', 3, 0, 0)), Ok(Call::Switch(offs)));
    }

    // No contract says a text: each is compared whole.
    #[test]
    fn texts_of_the_refusals(rt: HostRuntime) -> Result<(), Fail> {
        let texts = [
            (
                Rejection::Letter,
                "the first byte is the letter of no kind of record",
            ),
            (Rejection::Spare, "a byte or a bit without a meaning is set"),
            (
                Rejection::Range,
                "the elapsed time, the voltage or the host limit is out of its range",
            ),
            (Rejection::Live, "a clear while a switch is not held off"),
            (
                Rejection::Length,
                "the record has another length than 12 bytes",
            ),
        ];
        for (refusal, text) in texts {
            assert_eq!(rt; format!(in rt.alloc(); "{refusal}")?.as_str(), text);
        }
        Ok(())
    }
}
