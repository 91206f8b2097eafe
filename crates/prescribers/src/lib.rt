// Prescribers: what current and voltage the charger may give at a reading.
#![tactic(auto)]

mod flat;
mod out_of_range;
mod precharge;
mod prescriber;
mod prescription;
mod stack;
mod step;
#[cfg(test)]
mod tests;
mod zone;

pub use flat::Flat;
pub use out_of_range::OutOfRange;
pub use precharge::Precharge;
pub use prescriber::{Limiter, Prescriber};
pub use prescription::Prescription;
pub use stack::{UsualStack, usual, usual_prescription};
pub use step::Step;
pub use zone::Zone;
