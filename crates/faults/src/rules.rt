// What trips each fault, and what releases it.
ghost use Rattle.std.specs.Prelude.{◌≡◌, pos, ◌+ℤ◌, ◌-ℤ◌, ◌*ℤ◌, int_le, int_lt};
ghost use Rattle.faults.specs.Rules.{fine, margin, trips, releases, is_enabled};

use super::fault::Fault;
use reading::{Prepared, reaches};
use sheet::Limits;

// The temperature has risen from below the degree to past the hysteresis. A sheet has whole degrees, a reading 1/256 degree.
fn is_warm_again(t: i16, degree: i8, hysteresis: u8) -> bool
    ensures { result ≡ int_le (fine degree +ℤ margin hysteresis) t }
{
    i32::from(degree) * 256 + i32::from(hysteresis) * 256 <= i32::from(t)
}

// The temperature has fallen from the degree to past the hysteresis. Sign and comparison differ from those above, and not a type or a
// constant, so that one function of both would be no plainer.
fn is_cool_again(t: i16, degree: i8, hysteresis: u8) -> bool
    ensures { result ≡ int_lt t (fine degree -ℤ margin hysteresis) }
{
    i32::from(t) < i32::from(degree) * 256 - i32::from(hysteresis) * 256
}

// The limits and the reading are two parameters of each rule: a struct of both would be made in `observe` and taken apart in each.
impl Fault {
    pub(crate) fn is_enabled(self, limits: &Limits) -> bool
        ensures { result ≡ is_enabled self limits.now }
    {
        (limits.timing.enabled >> self.bit()) % 2 == 1
    }

    // The reading trips the fault. Whether the fault is enabled is asked elsewhere. A current is positive while charging and negative
    // while discharging; a full pack still takes so much or less.
    pub(crate) fn is_tripped(self, limits: &Limits, p: &Prepared) -> bool
        ensures { result ≡ trips self limits.now p.now }
    {
        let levels = &limits.levels;
        let degrees = &limits.degrees;
        let seen = &p.reading;
        let current = i32::from(seen.current);
        match self {
            Fault::Undervoltage => seen.voltage < levels.trip,
            Fault::Shutdown => seen.voltage < levels.shutdown && !seen.charger,
            Fault::Overvoltage => seen.voltage > p.level,
            Fault::OvercurrentCharge => current > i32::from(levels.charging),
            Fault::OvercurrentDischarge => current < -i32::from(levels.discharging),
            Fault::TooColdCharge => !reaches(seen.cell, degrees.edges[0]),
            Fault::TooHotCharge => reaches(seen.cell, degrees.edges[7]),
            Fault::TooHotDischarge => reaches(seen.cell, degrees.hot),
            Fault::DieHot => reaches(seen.die, degrees.die),
            Fault::Full => {
                let tapered = current >= 0 && current <= i32::from(levels.fullcurrent);
                seen.voltage >= levels.full && tapered
            }
            Fault::Watchdog => !p.word,
            Fault::PermanentHot => reaches(seen.cell, degrees.permanent),
            Fault::PermanentOvervoltage => seen.voltage > levels.permanent,
        }
    }

    // The reading releases the fault. A drop is added to the voltage, since what is left of the full voltage could be below zero.
    pub(crate) fn is_released(self, limits: &Limits, p: &Prepared) -> bool
        ensures { result ≡ releases self limits.now p.now }
    {
        let levels = &limits.levels;
        let degrees = &limits.degrees;
        let seen = &p.reading;
        let voltage = u32::from(seen.voltage);
        let hysteresis = degrees.hysteresis;
        match self {
            Fault::Undervoltage => seen.voltage >= levels.release,
            Fault::Shutdown => seen.charger,
            Fault::Overvoltage => voltage + u32::from(levels.overdrop) <= u32::from(p.level),
            Fault::OvercurrentCharge => !seen.charger && seen.current <= 0,
            Fault::OvercurrentDischarge => seen.charger && seen.current >= 0,
            Fault::TooColdCharge => is_warm_again(seen.cell, degrees.edges[0], hysteresis),
            Fault::TooHotCharge => is_cool_again(seen.cell, degrees.edges[7], hysteresis),
            Fault::TooHotDischarge => is_cool_again(seen.cell, degrees.hot, hysteresis),
            Fault::DieHot => is_cool_again(seen.die, degrees.die, hysteresis),
            Fault::Full => voltage + u32::from(levels.fulldrop) < u32::from(levels.full),
            Fault::Watchdog => p.word,
            Fault::PermanentHot | Fault::PermanentOvervoltage => false,
        }
    }
}
