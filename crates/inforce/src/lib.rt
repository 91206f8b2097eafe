// The over-voltage level in force, while the battery's temperature moves between the rows of the level table.
//
// It is the greatest among the reading's own level and that of every earlier reading whose later elapsed times, this one's
// included, total less than the transition delay. One age for each row is all that has to be kept.
#![tactic(auto)]

ghost use Rattle.std.specs.Prelude.{◌≡◌};
ghost use Rattle.inforce.specs.Ages.{unseen, aged, level_in_force};
ghost use Rattle.inforce.specs.Level.{LevelExact, LevelOrdered};

// The rows of the level table, one for each range of temperature.
pub const ROWS: usize = 7;

// For each row, the milliseconds since its newest reading, never past u32::MAX.
#[derive(Clone, Copy, Debug, PartialEq, Eq)]
pub struct Ages {
    pub table: [u32; ROWS],
}

impl Ages {
    // No row has been seen. No delay exceeds u32::MAX, so such a row never counts.
    pub fn new() -> Ages
        ensures { result.table ≡ unseen }
    {
        Ages {
            table: [u32::MAX; ROWS],
        }
    }

    // A reading in a row, so long after the one before it. Where there is no such row, the time passes all the same.
    pub fn pass(&mut self, row: usize, elapsed: u16)
        ensures { self.new.table ≡ aged row elapsed self.old.table }
    {
        self.table = self.table.map(|age| age.saturating_add(u32::from(elapsed)));
        // The newest reading of a row is the only one that matters, so its age starts over. Not get_mut: after it a proof knows the length
        // of the array alone.
        if row < ROWS {
            self.table[row] = 0;
        }
    }

    // The level in force after a reading that has the level `own`, by the rows' levels and the transition delay: the greatest among
    // `own` and the levels of the rows that are younger than the delay.
    pub fn level(&self, own: u16, levels: &[u16; ROWS], delay: u32) -> u16
        ensures value { result ≡ level_in_force delay own self.now.table levels.now }
        ensures exact { LevelExact delay own self.now.table levels.now result }
        ensures ordered { LevelOrdered delay result }
    {
        // A row that is too old counts 0: with filter before the fold nothing is unrolled, and a record takes 68 instructions more.
        self.table
            .iter()
            .zip(levels)
            .fold(own, |greatest, (age, level)| {
                greatest.max(if *age < delay { *level } else { 0 })
            })
    }
}

#[cfg(test)]
mod tests {
    use super::Ages;

    const ROOM: usize = 3;

    const WARM: usize = 4;

    const HOT: usize = 5;

    fn level(ages: &Ages, own: u16) -> u16 {
        ages.level(own, &[4000, 4100, 4200, 4300, 4200, 4150, 4050], 8750)
    }

    #[test]
    fn a_higher_level_stays_for_the_delay(rt: HostRuntime) {
        let mut ages = Ages::new();
        ages.pass(ROOM, 1000);
        assert_eq!(rt; level(&ages, 4300), 4300);
        ages.pass(HOT, 8000);
        ages.pass(HOT, 749);
        assert_eq!(rt; level(&ages, 4150), 4300);
        ages.pass(HOT, 1);
        assert_eq!(rt; level(&ages, 4150), 4150);
    }

    // One timer, restarted at each fall, would keep 4300 at the last three.
    #[test]
    fn each_row_has_its_own_age(rt: HostRuntime) {
        let mut ages = Ages::new();
        ages.pass(ROOM, 1000);
        ages.pass(WARM, 5000);
        assert_eq!(rt; level(&ages, 4200), 4300);
        ages.pass(HOT, 5000);
        assert_eq!(rt; level(&ages, 4150), 4200);
        ages.pass(HOT, 3749);
        assert_eq!(rt; level(&ages, 4150), 4200);
        ages.pass(HOT, 1);
        assert_eq!(rt; level(&ages, 4150), 4150);
    }
}
