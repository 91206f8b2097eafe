// What the charger may give: at most this current, in mA, and this voltage, in mV.
#[derive(Clone, Copy, Debug, PartialEq, Eq)]
pub struct Prescription {
    pub current: u16,
    pub voltage: u16,
}
