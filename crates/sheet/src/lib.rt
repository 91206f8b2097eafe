// The sheet of a pack's limits: its image of 116 bytes is read, judged and written back.
#![tactic(auto)]

mod shares;
mod sheet;
mod verdict;

// The fields of a sheet, at the path by which the specs of other crates name them.
pub mod limits {
    pub use layout::{Degrees, Levels, Limits, Row, Steps, Timing};
}

pub use layout::{IMAGE, Refusal};
pub use limits::{Degrees, Levels, Limits, Row, Steps, Timing};
pub use shares::share;
pub use sheet::Sheet;
pub use verdict::{Verdict, VerdictNumbers};
