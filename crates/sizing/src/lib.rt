#![tactic(auto)]

pub mod advice;
pub mod program;
pub mod size;
#[cfg(test)]
mod tests;
