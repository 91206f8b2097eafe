// An answer of a pack.
ghost use Rattle.std.specs.Prelude.{◌≡◌, Some};
ghost use Rattle.answers.specs.Answers.{numbers_of, bytes_of, line_of, line_at};

use super::numbers::AnswerNumbers;
use calls::Rejection;
use reading::Region;
use std::fmt;

// Field by field as the twelve bytes have them: a pair for the charger would be taken apart again, for the bytes and for the line.
#[derive(Clone, Copy, Debug, PartialEq, Eq)]
pub struct Answer {
    // why the record was refused, if it was
    pub refusal: Option<Rejection>,
    // the switches that are on
    pub charge: bool,
    pub discharge: bool,
    // the faults that stand, one bit each
    pub faults: u16,
    // what the charger may give, in mA and mV
    pub current: u16,
    pub voltage: u16,
    // the temperature region of the cell
    pub region: Region,
    // the over-voltage level in force, in mV
    pub level: u16,
}

impl From<Answer> for AnswerNumbers {
    ghost from_gives = { λ answer numbers. numbers ≡ numbers_of answer };

    fn from(answer: Answer) -> AnswerNumbers {
        AnswerNumbers {
            refusal: answer.refusal.map_or(0, u8::from),
            charge: answer.charge,
            discharge: answer.discharge,
            faults: answer.faults,
            current: answer.current,
            voltage: answer.voltage,
            region: i8::from(answer.region),
            level: answer.level,
        }
    }
}

impl Answer {
    // The twelve bytes of the answer. The printed line tells the same numbers. A method and no From, so that both of its promises are
    // clauses with names.
    pub fn bytes(&self) -> [u8; 12]
        ensures value { result ≡ bytes_of self.now }
        ensures told { line_at result ≡ line_of self.now }
    {
        AnswerNumbers::from(*self).bytes()
    }
}

impl fmt::Display for Answer {
    ghost output = { λ a. Some (line_of a) };

    fn fmt<W: fmt::Write>(&self, f: &mut fmt::Formatter<W>) -> fmt::Result {
        AnswerNumbers::from(*self).fmt(f)
    }
}

#[cfg(test)]
mod tests {
    use super::*;

    // A refusal in a cold region: every byte of the answer, and a negative region.
    #[test]
    fn bytes_of_an_answer(rt: HostRuntime) {
        let answer = Answer {
            refusal: Some(Rejection::Letter),
            charge: false,
            discharge: true,
            faults: 0x1203,
            current: 1000,
            voltage: 4200,
            region: Region::Cold1,
            level: 4300,
        };
        let bytes = [
            7, 2, 0x03, 0x12, 0xE8, 0x03, 0x68, 0x10, 0xFE, 0, 0xCC, 0x10,
        ];
        assert_eq!(rt; answer.bytes(), bytes);
    }
}
