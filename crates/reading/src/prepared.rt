// A reading with what the readings before it and the host have to say beside it.
use super::reading::Reading;
use super::region::Region;

#[derive(Clone, Copy, Debug, PartialEq, Eq)]
pub struct Prepared {
    pub reading: Reading,
    // the temperature region of the cell
    pub region: Region,
    // the over-voltage level in force, in mV
    pub level: u16,
    // the host sent a word since the reading before
    pub word: bool,
}
