// How a fault is timed: debounce with hysteresis, one text for every fault.
//
// A fault stands once an unbroken stretch of readings that trip it has lasted for its delay, and then until a reading releases it.
#![tactic(auto)]

ghost use Rattle.std.specs.Prelude.{◌≡◌, ◌<◌, slice_index_or, slice_set};
ghost use Rattle.timing.specs.Mask.{mask_of, BitsOf};
ghost use Rattle.timing.specs.Order.{LevelStart, OrderedAfter};
ghost use Rattle.timing.specs.Stands.{ExactAfter, UnreadTable};
ghost use Rattle.timing.specs.Timing.{idle, all_idle, stepped, all_stepped, all_standing};

// The faults that a pack is watched for.
pub const FAULTS: usize = 13;

// A reading, as the rule of one fault sees it. Between the level that trips and the one that releases lies the hysteresis, where
// a reading does neither. No enum of three: what `advance` promises holds for a reading that does both, too, which no enum could say.
#[derive(Clone, Copy, Debug, PartialEq, Eq)]
pub struct Observation {
    pub elapsed: u16,
    pub trips: bool,
    pub releases: bool,
}

// How long a fault has been tripped without a break, in milliseconds and never past u32::MAX, and whether it stands. No Option: a fault
// may stand that is tripped no more, and be tripped without standing.
#[derive(Clone, Copy, Debug, PartialEq, Eq)]
pub struct Watch {
    pub held: u32,
    pub standing: bool,
}

// The watch of a fault of which no reading has been seen.
const IDLE: Watch = Watch {
    held: 0,
    standing: false,
};

impl Watch {
    // `held` saturates at a constant, and not at the delay, so that of two watches the one held for longer stays so.
    fn advance(&mut self, seen: Observation, delay: u32)
        ensures { self.new ≡ stepped delay seen self.old }
    {
        self.standing &= !seen.releases;
        if seen.trips {
            self.held = self.held.saturating_add(u32::from(seen.elapsed));
            self.standing |= self.held >= delay;
        } else {
            self.held = 0;
        }
    }
}

// One watch for each fault.
#[derive(Clone, Copy, Debug, PartialEq, Eq)]
pub struct Watches {
    pub table: [Watch; FAULTS],
}

impl Watches {
    pub fn new() -> Watches
        ensures value { result.table ≡ all_idle }
        ensures exact { UnreadTable result.table }
        ensures ordered { LevelStart result.table }
    {
        Watches {
            table: [IDLE; FAULTS],
        }
    }

    // Forgets every reading.
    pub fn clear(&mut self)
        ensures value { self.new.table ≡ all_idle }
        ensures exact { UnreadTable self.new.table }
        ensures ordered { LevelStart self.new.table }
    {
        self.table = [IDLE; FAULTS];
    }

    // Moves each fault's watch by what its rule sees of a reading, under its own delay. Three arrays and no struct for each fault: the
    // delays are those of a sheet, the watches those of a pack, and the observations of one reading.
    pub fn advance(&mut self, seen: &[Observation; FAULTS], delays: &[u32; FAULTS])
        ensures value { self.new.table ≡ all_stepped delays.now seen.now self.old.table }
        ensures exact { ExactAfter delays.now seen.now self.old.table self.new.table }
        ensures ordered { OrderedAfter delays.now seen.now self.old.table self.new.table }
    {
        // Written out: when from_fn was tried, a record took 754 instructions in place of 499, past the 600 of the C program that is the bar;
        // and iter_mut would need a zip, after which a proof knows the length alone.
        self.advance_one(0, seen[0], delays[0]);
        self.advance_one(1, seen[1], delays[1]);
        self.advance_one(2, seen[2], delays[2]);
        self.advance_one(3, seen[3], delays[3]);
        self.advance_one(4, seen[4], delays[4]);
        self.advance_one(5, seen[5], delays[5]);
        self.advance_one(6, seen[6], delays[6]);
        self.advance_one(7, seen[7], delays[7]);
        self.advance_one(8, seen[8], delays[8]);
        self.advance_one(9, seen[9], delays[9]);
        self.advance_one(10, seen[10], delays[10]);
        self.advance_one(11, seen[11], delays[11]);
        self.advance_one(12, seen[12], delays[12]);
    }

    fn advance_one(&mut self, i: usize, seen: Observation, delay: u32)
        requires { i < FAULTS }
        ensures { self.new.table ≡ slice_set self.old.table i (stepped delay seen (slice_index_or self.old.table i idle)) }
    {
        self.table[i].advance(seen, delay);
    }

    // Whether each fault stands.
    pub fn standing(&self) -> [bool; FAULTS]
        ensures { result ≡ all_standing self.now.table }
    {
        // Not map, which hands each watch over through memory: a host's word takes 14 instructions more by it.
        std::array::from_fn(|k| self.table[k].standing)
    }
}

// The faults as a word, bit k for fault k.
pub fn mask(faults: &[bool; FAULTS]) -> u16
    ensures value { result ≡ mask_of faults.now }
    ensures bits { BitsOf faults.now result }
{
    faults
        .iter()
        .rev()
        .fold(0, |word, fault| word << 1 | u16::from(*fault))
}

#[cfg(test)]
mod tests {
    use super::{FAULTS, Observation, Watches, mask};

    const ALL: u16 = 8191;

    // A reading that every fault sees alike, under a delay of 700 ms.
    fn read(watches: &mut Watches, elapsed: u16, trips: bool, releases: bool) {
        watches.advance(
            &[Observation {
                elapsed,
                trips,
                releases,
            }; FAULTS],
            &[700; FAULTS],
        );
    }

    #[test]
    fn stands_at_the_delay_and_until_released(rt: HostRuntime) {
        let mut watches = Watches::new();
        read(&mut watches, 349, true, false);
        assert_eq!(rt; mask(&watches.standing()), 0);
        read(&mut watches, 351, true, false);
        assert_eq!(rt; mask(&watches.standing()), ALL);
        read(&mut watches, 60000, false, false);
        assert_eq!(rt;
            mask(&watches.standing()),
            ALL,
            "within the hysteresis it stands on"
        );
        read(&mut watches, 1, false, true);
        assert_eq!(rt; mask(&watches.standing()), 0);
    }

    #[test]
    fn a_broken_stretch_starts_over(rt: HostRuntime) {
        let mut watches = Watches::new();
        read(&mut watches, 348, true, false);
        read(&mut watches, 351, true, false);
        assert_eq!(rt; mask(&watches.standing()), 0, "one millisecond is wanting");
        read(&mut watches, 1, false, false);
        read(&mut watches, 699, true, false);
        assert_eq!(rt; mask(&watches.standing()), 0);
        read(&mut watches, 1, true, false);
        assert_eq!(rt; mask(&watches.standing()), ALL);
        watches.clear();
        assert_eq!(rt; mask(&watches.standing()), 0);
    }

    #[test]
    fn each_fault_has_its_own_watch(rt: HostRuntime) {
        let mut watches = Watches::new();
        let mut seen = [Observation {
            elapsed: 500,
            trips: false,
            releases: false,
        }; FAULTS];
        seen[0].trips = true;
        seen[3].trips = true;
        seen[12].trips = true;
        let mut delays = [500; FAULTS];
        delays[3] = 501;
        watches.advance(&seen, &delays);
        assert_eq!(rt; mask(&watches.standing()), 4097);
    }
}
