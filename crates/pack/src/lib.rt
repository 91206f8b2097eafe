// A pack: an accepted sheet, a prescriber, and what the accepted calls have left. Records of bytes go in, answers come out.
#![tactic(auto)]

mod minder;
mod state;
mod timed;

pub use minder::Pack;
