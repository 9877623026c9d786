#![tactic(auto)]

pub mod edf;
pub mod figures;
pub mod fp;
pub mod job;
mod listing;
pub mod policy;
pub mod set;
pub mod task;
#[cfg(test)]
mod tests;
mod times;
