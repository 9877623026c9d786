#![tactic(auto)]

pub mod part;
pub mod records;
pub mod scan;
#[cfg(test)]
mod tests;
