// The delay word nDelayCfg: the setting of each timer in it, and the delay in milliseconds that the setting stands for.
#![tactic(auto)]

ghost use Rattle.std.specs.Prelude.{◌≡◌, true, Decides};
ghost use Rattle.delays.specs.Delays.{setting_of, table, delay_of, NoShorter, SettingsNoLower, DelaysNoShorter};

// What a delay is for. Undervoltage and Shutdown go by one setting, and so do Temperature and Transition.
#[derive(Clone, Copy, Debug, PartialEq, Eq)]
pub enum Timer {
    Undervoltage,
    Shutdown,
    Temperature,
    Transition,
    Permanent,
    Overcurrent,
    Overvoltage,
    Full,
    Watchdog,
}

// Each table has the longest time that each setting may mean, in milliseconds.
const DEBOUNCE: [u32; 4] = [351, 700, 1_400, 2_800];

const SHUTDOWN: [u32; 4] = [45_000, 90_000, 180_000, 360_000];

const TRANSITION: [u32; 4] = [4_550, 8_750, 17_150, 34_851];

const OVERCURRENT: [u32; 8] = [351, 700, 1_400, 2_800, 5_600, 11_250, 22_500, 45_000];

const FULL: [u32; 8] = [
    33_000, 67_000, 135_000, 270_000, 540_000, 1_080_000, 2_160_000, 5_760_000,
];

const WATCHDOG: [u32; 4] = [22_500, 45_000, 90_000, 180_000];

impl Timer {
    // The setting of the timer: its field of the delay word.
    fn setting(self, word: u16) -> u16
        ensures { result ≡ setting_of self word }
    {
        match self {
            Timer::Undervoltage | Timer::Shutdown => word % 4,
            Timer::Temperature | Timer::Transition => (word >> 2) % 4,
            Timer::Permanent => (word >> 4) % 4,
            Timer::Overcurrent => (word >> 6) % 8,
            Timer::Overvoltage => (word >> 9) % 4,
            Timer::Full => (word >> 11) % 8,
            Timer::Watchdog => (word >> 14) % 4,
        }
    }

    // The delay for each setting that the timer can have.
    fn table(self) -> &'static [u32]
        ensures { result.now ≡ table self }
    {
        match self {
            Timer::Undervoltage | Timer::Temperature | Timer::Permanent | Timer::Overvoltage =>
                &DEBOUNCE,
            Timer::Shutdown => &SHUTDOWN,
            Timer::Transition => &TRANSITION,
            Timer::Overcurrent => &OVERCURRENT,
            Timer::Full => &FULL,
            Timer::Watchdog => &WATCHDOG,
        }
    }
}

// The delay of a timer under the delay word, in milliseconds; a higher setting never shortens it.
pub fn delay(word: u16, timer: Timer) -> u32
    ensures value { result ≡ delay_of timer word }
    ensures rises { NoShorter timer word result }
{
    timer.table()[usize::from(timer.setting(word))]
}

// One timer for each field of the delay word.
const FIELDS: [Timer; 7] = [
    Timer::Undervoltage,
    Timer::Temperature,
    Timer::Permanent,
    Timer::Overcurrent,
    Timer::Overvoltage,
    Timer::Full,
    Timer::Watchdog,
];

// Whether the word b is no lower than a in every field; then none of its delays is shorter.
pub fn sets_no_lower(a: u16, b: u16) -> bool
    ensures decides { Decides result (SettingsNoLower a b) }
    ensures delays { result ≡ true → DelaysNoShorter a b }
{
    FIELDS
        .iter()
        .all(|timer| timer.setting(a) <= timer.setting(b))
}

#[cfg(test)]
mod tests {
    use super::*;

    // Every field at its lowest, and every field at its highest.
    #[test]
    fn ends_of_the_tables(rt: HostRuntime) {
        assert_eq!(rt; delay(0x0000, Timer::Undervoltage), 351);
        assert_eq!(rt; delay(0x0000, Timer::Transition), 4_550);
        assert_eq!(rt; delay(0x0000, Timer::Full), 33_000);
        assert_eq!(rt; delay(0xFFFF, Timer::Shutdown), 360_000);
        assert_eq!(rt; delay(0xFFFF, Timer::Overcurrent), 45_000);
        assert_eq!(rt; delay(0xFFFF, Timer::Full), 5_760_000);
    }

    // The sample's word, 0x42B5: watchdog 1, full 0, over-voltage 1, over-current 2, permanent 3, temperature 1, under-voltage 1.
    #[test]
    fn sample_word(rt: HostRuntime) {
        assert_eq!(rt; delay(0x42B5, Timer::Watchdog), 45_000);
        assert_eq!(rt; delay(0x42B5, Timer::Overvoltage), 700);
        assert_eq!(rt; delay(0x42B5, Timer::Overcurrent), 1_400);
        assert_eq!(rt; delay(0x42B5, Timer::Permanent), 2_800);
        assert_eq!(rt; delay(0x42B5, Timer::Transition), 8_750);
        assert_eq!(rt; delay(0x42B5, Timer::Undervoltage), 700);
    }
}
