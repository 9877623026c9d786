#![tactic(auto)]

pub mod cost;
pub mod costing;
pub mod drive;
pub mod entries;
pub mod interval;
pub mod lookup;
pub mod make;
pub mod mode;
pub mod refusal;
pub mod splits;
pub mod table;
#[cfg(test)]
mod tests;
