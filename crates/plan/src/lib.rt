#![tactic(auto)]

pub mod feasible;
pub mod open;
pub mod opening;
pub mod plan;
pub mod search;
pub mod table;
