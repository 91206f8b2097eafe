// The numbers of an answer, as its bytes and its line tell them.
ghost use Rattle.std.specs.Prelude.{◌≡◌, Some};
ghost use Rattle.std.specs.Int.{w8};
ghost use Rattle.std.proofs.Common.{to_z, of_z};
ghost use Rattle.answers.specs.Answers.{switches_in, bytes_in, line_in, line_at};

use std::fmt;

// Numbers of any size: a host lays out and prints what it read from twelve bytes, or a refusal that no record brings, such as that of a
// sheet or of a pair out of range.
#[derive(Clone, Copy, Debug, PartialEq, Eq)]
pub struct AnswerNumbers {
    // the number of the refusal, or 0
    pub refusal: u8,
    // the switches that are on
    pub charge: bool,
    pub discharge: bool,
    // the faults that stand, one bit each
    pub faults: u16,
    // what the charger may give, in mA and mV
    pub current: u16,
    pub voltage: u16,
    // from -4, TooCold, to 4, TooHot
    pub region: i8,
    // the over-voltage level in force, in mV
    pub level: u16,
}

impl AnswerNumbers {
    // Both switches in one byte: D0 charge, D1 discharge.
    fn switches(&self) -> u8
        ensures { result ≡ switches_in self.now }
    {
        u8::from(self.charge) + 2 * u8::from(self.discharge)
    }

    // Words have the low byte first. The region is in two's complement, from which it is read back as itself.
    fn lay_out(&self) -> [u8; 12]
        ensures value { result ≡ bytes_in self.now }
        ensures region { to_z w8 (of_z w8 self.now.region) ≡ self.now.region }
    {
        let AnswerNumbers {
            faults,
            current,
            voltage,
            level,
            ..
        } = *self;
        // Word by word: over all four at once by `map` two goals stay open.
        let [faults_low, faults_high] = faults.to_le_bytes();
        let [current_low, current_high] = current.to_le_bytes();
        let [voltage_low, voltage_high] = voltage.to_le_bytes();
        let [level_low, level_high] = level.to_le_bytes();
        [
            self.refusal,
            self.switches(),
            faults_low,
            faults_high,
            current_low,
            current_high,
            voltage_low,
            voltage_high,
            self.region.cast_unsigned(),
            0,
            level_low,
            level_high,
        ]
    }

    // The twelve bytes. The printed line tells the same numbers.
    pub fn bytes(&self) -> [u8; 12]
        ensures value { result ≡ bytes_in self.now }
        ensures told { line_at result ≡ line_in self.now }
    {
        self.lay_out()
    }
}

impl fmt::Display for AnswerNumbers {
    ghost output = { λ n. Some (line_in n) };

    fn fmt<W: fmt::Write>(&self, f: &mut fmt::Formatter<W>) -> fmt::Result {
        write!(
            f,
            "{} {} {} {} {} {} {}",
            self.refusal,
            self.switches(),
            self.faults,
            self.current,
            self.voltage,
            self.region,
            self.level
        )
    }
}

#[cfg(test)]
mod tests {
    use super::AnswerNumbers;
    use std::test::Fail;

    // Numbers that no answer of a pack has: the refusal of a sheet, and a region that there is not.
    #[test]
    fn numbers_of_no_answer(rt: HostRuntime) -> Result<(), Fail> {
        let numbers = AnswerNumbers {
            refusal: 3,
            charge: true,
            discharge: true,
            faults: 0xFFFF,
            current: 1,
            voltage: 256,
            region: -100,
            level: 0,
        };
        let bytes = [3, 3, 0xFF, 0xFF, 1, 0, 0, 1, 0x9C, 0, 0, 0];
        assert_eq!(rt; numbers.bytes(), bytes);
        assert_eq!(rt;
            format!(in rt.alloc(); "{numbers}")?.as_str(),
            "3 3 65535 1 256 -100 0"
        );
        Ok(())
    }
}
