// The limits that a sheet sets, field by field in the order of the image. Voltages are in mV, currents in mA.

#[derive(Clone, Copy, Debug, PartialEq, Eq)]
pub struct Levels {
    // under-voltage: where it trips, and where it releases
    pub trip: u16,
    pub release: u16,
    // below this without a charger the pack shuts down
    pub shutdown: u16,
    // how far below the over-voltage level in force the voltage falls before over-voltage releases
    pub overdrop: u16,
    // permanent over-voltage
    pub permanent: u16,
    // over-current, while charging and while discharging
    pub charging: u16,
    pub discharging: u16,
    // the cell is full at this voltage and at most this current, until it has dropped so far
    pub full: u16,
    pub fulldrop: u16,
    pub fullcurrent: u16,
    // the charge word nChgCfg0: PreQualVolt in D12-D9, PrechgCurr in D5-D0
    pub chargecfg: u16,
}

// Temperatures in whole degrees Celsius.
#[derive(Clone, Copy, Debug, PartialEq, Eq)]
pub struct Degrees {
    // where each region above the coldest begins
    pub edges: [i8; 8],
    // too hot to discharge
    pub hot: i8,
    // the die too hot
    pub die: i8,
    // permanently too hot
    pub permanent: i8,
    // how far a temperature goes back before its fault releases
    pub hysteresis: u8,
}

// What the charger may give in a temperature region, and the over-voltage level there.
#[derive(Clone, Copy, Debug, PartialEq, Eq)]
pub struct Row {
    pub current: u16,
    pub voltage: u16,
    pub level: u16,
}

// From each voltage up the charge current is cut to so many sixteenths. Two tables, as in the image: each has an order and places of
// its own, and pairs would have to be taken apart for each rule.
#[derive(Clone, Copy, Debug, PartialEq, Eq)]
pub struct Steps {
    pub voltages: [u16; 4],
    pub ratios: [u8; 4],
}

#[derive(Clone, Copy, Debug, PartialEq, Eq)]
pub struct Timing {
    // the delay word nDelayCfg
    pub delaycfg: u16,
    // the enable word: D0-D12 enable the thirteen faults
    pub enabled: u16,
}

#[derive(Clone, Copy, Debug, PartialEq, Eq)]
pub struct Limits {
    pub levels: Levels,
    pub degrees: Degrees,
    // Cold2, Cold1, Cool, Room, Warm, Hot, Hot2
    pub rows: [Row; 7],
    pub steps: Steps,
    pub timing: Timing,
}
