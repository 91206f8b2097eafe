// The sample sheet's prescriptions, by numbers that were worked out by hand.
use super::*;
use reading::Reading;
use sample::sample_image;
use sheet::Sheet;
use std::test::Fail;

fn at(voltage: u16, cell: i16) -> Reading {
    Reading {
        elapsed: 100,
        voltage,
        current: 0,
        cell,
        die: 6400,
        charger: true,
    }
}

#[test]
fn stack_at_room(rt: HostRuntime) -> Result<(), Fail> {
    let stack = usual(&Sheet::decode(&sample_image())?);
    assert_eq!(rt; stack.prescribe(&at(2900, 6400)).current, 125);
    assert_eq!(rt; stack.prescribe(&at(4000, 6400)).current, 750);
    assert_eq!(rt; stack.prescribe(&at(4000, 6400)).voltage, 4200);
    Ok(())
}

const NOTHING: Prescription = Prescription {
    current: 0,
    voltage: 0,
};

#[test]
fn nothing_at_the_ends(rt: HostRuntime) -> Result<(), Fail> {
    let sheet = Sheet::decode(&sample_image())?;
    let cold = usual_prescription(&sheet, &at(3700, -1281));
    let hot = usual_prescription(&sheet, &at(3700, 14080));
    assert_eq!(rt; cold, NOTHING);
    assert_eq!(rt; hot, NOTHING);
    Ok(())
}

#[test]
fn flat_in_range(rt: HostRuntime) {
    assert!(rt; Flat::new(20000, 5000).is_ok());
    assert!(rt; Flat::new(20001, 5000).is_err());
    assert!(rt; Flat::new(20000, 5001).is_err());
}

#[test]
fn refusal_of_a_pair(rt: HostRuntime) -> Result<(), Fail> {
    assert_eq!(rt; u8::from(OutOfRange), 9);
    assert_eq!(rt;
        format!(in rt.alloc(); "{OutOfRange}")?.as_str(),
        "the current or the voltage is out of range"
    );
    Ok(())
}
