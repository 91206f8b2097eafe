// A reading of the pack, the temperature region that it lies in, and the over-voltage level there.
#![tactic(auto)]

mod prepared;
mod reading;
mod region;

pub use prepared::Prepared;
pub use reading::Reading;
pub use region::{Region, reaches};
