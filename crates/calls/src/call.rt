// The calls that a pack takes.
use reading::Reading;

// The switches that the host holds off.
#[derive(Clone, Copy, Debug, PartialEq, Eq)]
pub struct Offs {
    pub charge: bool,
    pub discharge: bool,
}

#[derive(Clone, Copy, Debug, PartialEq, Eq)]
pub enum Call {
    // the pack was measured
    Read(Reading),
    // a word from the host, which carries nothing else
    Word,
    // the most that the host lets the charger give, in mA
    Limit(u16),
    // the switches that the host holds off
    Switch(Offs),
    // a service clear, which the pack takes only while both switches are held off
    Clear,
}
