// The temperature regions: eight edges part nine of them, from TooCold to TooHot.
ghost use Rattle.std.specs.Prelude.{◌≡◌, ◌<◌, ◌≤◌, pos, ◌*ℤ◌, if◌then◌else◌, int_le, min, None, Some, slice_index_or};
ghost use Rattle.reading.specs.Regions.{reached_of, region_of, reached_by, number_of, row_at, is_end, level_at, current_at, voltage_at};
ghost use Rattle.sheet.specs.Charging.{no_row};

use sheet::{Degrees, Row, Sheet};

// The regions in the order of their edges: a region's place is how many of the edges the temperature has reached.
#[derive(Clone, Copy, Debug, PartialEq, Eq)]
pub enum Region {
    TooCold,
    Cold2,
    Cold1,
    Cool,
    Room,
    Warm,
    Hot,
    Hot2,
    TooHot,
}

// Whether a temperature, in 1/256 degree, has reached a whole degree. The product is taken instead of a quotient of the
// temperature, which would round towards zero.
pub fn reaches(temperature: i16, degree: i8) -> bool
    ensures { result ≡ int_le (degree *ℤ pos 256) temperature }
{
    i32::from(degree) * 256 <= i32::from(temperature)
}

// Added up, since by `filter(..).count()` the eight edges take 97 instructions, and 32 so.
fn count_reached(edges: &[i8; 8], cell: i16) -> usize
    ensures value { result ≡ reached_by edges.now cell }
    ensures bound { result ≤ 8 }
{
    edges
        .iter()
        .map(|edge| usize::from(reaches(cell, *edge)))
        .sum()
}

impl Region {
    // The region past so many of the edges. There are eight of them: past more is past all.
    pub fn past(edges: usize) -> Region
        ensures region { result ≡ region_of edges }
        ensures reached { reached_of result ≡ min edges 8 }
    {
        match edges {
            0 => Region::TooCold,
            1 => Region::Cold2,
            2 => Region::Cold1,
            3 => Region::Cool,
            4 => Region::Room,
            5 => Region::Warm,
            6 => Region::Hot,
            7 => Region::Hot2,
            _ => Region::TooHot,
        }
    }

    // The region of a cell temperature, in 1/256 degree.
    pub fn of(degrees: &Degrees, cell: i16) -> Region
        ensures region { result ≡ region_of (reached_by degrees.now.edges cell) }
        ensures reached { reached_of result ≡ reached_by degrees.now.edges cell }
    {
        Region::past(count_reached(&degrees.edges, cell))
    }

    // The row of the sheet that serves the region: TooCold takes that of Cold2, TooHot that of Hot2.
    pub fn row(&self) -> usize
        ensures value { result ≡ row_at (reached_of self.now) }
        ensures bound { result < 7 }
    {
        (*self as usize).saturating_sub(1).min(6)
    }

    // TooCold and TooHot, where nothing may be charged.
    pub fn is_end(&self) -> bool
        ensures { result ≡ is_end (reached_of self.now) }
    {
        matches!(self, Region::TooCold | Region::TooHot)
    }

    // The row by which the region may be charged, which the ends do not have. Here and below the sheet is handed in: a struct of it and the
    // region would be made for one call.
    fn charging_row(&self, sheet: &Sheet) -> Option<Row>
        ensures { result
            ≡ (if is_end (reached_of self.now)
            then None
            else Some (slice_index_or sheet.now.limits.rows (row_at (reached_of self.now)) no_row)) }
    {
        if self.is_end() {
            None
        } else {
            Some(sheet.limits.rows[self.row()])
        }
    }

    // The over-voltage level of the region's row, in mV.
    pub fn level(&self, sheet: &Sheet) -> u16
        ensures { result ≡ level_at sheet.now.limits.rows (reached_of self.now) }
    {
        sheet.limits.rows[self.row()].level
    }

    // The current that the charger may give in the region, in mA.
    pub fn current(&self, sheet: &Sheet) -> u16
        ensures { result ≡ current_at sheet.now.limits.rows (reached_of self.now) }
    {
        self.charging_row(sheet).map_or(0, |row| row.current)
    }

    // The voltage that the charger may give in the region, in mV.
    pub fn voltage(&self, sheet: &Sheet) -> u16
        ensures { result ≡ voltage_at sheet.now.limits.rows (reached_of self.now) }
    {
        self.charging_row(sheet).map_or(0, |row| row.voltage)
    }
}

// From -4, TooCold, to 4, TooHot; 0 is Room.
impl From<Region> for i8 {
    ghost from_gives = { λ region number. number ≡ number_of (reached_of region) };

    fn from(region: Region) -> i8 {
        region as i8 - 4
    }
}
