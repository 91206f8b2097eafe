// Whether an image is one of a sheet: its limits, or the refusal that it is owed.
#![tactic(auto)]

mod accept;
mod agreement;
mod broken;
mod contents;
mod ranges;
mod row;

pub use accept::judge;
