// The thirteen faults: what trips and releases each, how long it waits, and which switch it blocks.
#![tactic(auto)]

mod blocking;
mod fault;
mod observing;
mod rules;
mod waiting;

pub use blocking::{Switch, is_blocked};
pub use fault::Fault;
pub use observing::observe;
pub use waiting::delays;

#[cfg(test)]
mod tests {
    use super::{Fault, observe};
    use reading::{Prepared, Reading, Region};
    use sample::sample_image;
    use sheet::Sheet;
    use std::test::Fail;
    use timing::Observation;

    const READING: Reading = Reading {
        elapsed: 100,
        voltage: 3700,
        current: 0,
        cell: 6400,
        die: 6400,
        charger: false,
    };

    // What one fault's rule sees, with 4300 mV in force.
    fn seen(sheet: &Sheet, fault: Fault, reading: Reading) -> Observation {
        let prepared = Prepared {
            reading,
            region: Region::of(&sheet.limits.degrees, reading.cell),
            level: 4300,
            word: true,
        };
        observe(sheet, &prepared)[fault.bit()]
    }

    fn at_cell(sheet: &Sheet, fault: Fault, cell: i16) -> Observation {
        seen(sheet, fault, Reading { cell, ..READING })
    }

    fn at_voltage(sheet: &Sheet, fault: Fault, voltage: u16) -> Observation {
        seen(sheet, fault, Reading { voltage, ..READING })
    }

    // One 256th of a degree decides, below zero too.
    #[test]
    fn temperatures(rt: HostRuntime) -> Result<(), Fail> {
        let sheet = Sheet::decode(&sample_image())?;
        assert!(rt; at_cell(&sheet, Fault::TooColdCharge, -1281).trips);
        assert!(rt; !at_cell(&sheet, Fault::TooColdCharge, -1280).trips);
        assert!(rt; at_cell(&sheet, Fault::TooColdCharge, -512).releases);
        assert!(rt; !at_cell(&sheet, Fault::TooColdCharge, -513).releases);
        assert!(rt; at_cell(&sheet, Fault::TooHotCharge, 14080).trips);
        assert!(rt; !at_cell(&sheet, Fault::TooHotCharge, 14079).trips);
        assert!(rt; at_cell(&sheet, Fault::TooHotCharge, 13311).releases);
        assert!(rt; !at_cell(&sheet, Fault::TooHotCharge, 13312).releases);
        Ok(())
    }

    #[test]
    fn voltages_and_currents(rt: HostRuntime) -> Result<(), Fail> {
        let sheet = Sheet::decode(&sample_image())?;
        assert!(rt; at_voltage(&sheet, Fault::Overvoltage, 4301).trips);
        assert!(rt; !at_voltage(&sheet, Fault::Overvoltage, 4300).trips);
        assert!(rt; at_voltage(&sheet, Fault::Overvoltage, 4200).releases);
        assert!(rt; !at_voltage(&sheet, Fault::Overvoltage, 4201).releases);
        let out = Fault::OvercurrentDischarge;
        assert!(rt;
            seen(
                &sheet,
                out,
                Reading {
                    current: -4001,
                    ..READING
                },
            )
            .trips
        );
        assert!(rt;
            !seen(
                &sheet,
                out,
                Reading {
                    current: -4000,
                    ..READING
                },
            )
            .trips
        );
        // without bit 2 of the enable word, and the sum mended
        let mut image = sample_image();
        image[112] = 0xfb;
        image[114] = 0xf8;
        assert!(rt; !at_voltage(&Sheet::decode(&image)?, Fault::Overvoltage, 5000).trips);
        Ok(())
    }
}
