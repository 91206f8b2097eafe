// What is measured at one time.
#[derive(Clone, Copy, Debug, PartialEq, Eq)]
pub struct Reading {
    // milliseconds since the reading before
    pub elapsed: u16,
    // mV
    pub voltage: u16,
    // mA, positive while charging
    pub current: i16,
    // temperatures of the cell and of the die, in 1/256 degree Celsius
    pub cell: i16,
    pub die: i16,
    // a charger is present
    pub charger: bool,
}
