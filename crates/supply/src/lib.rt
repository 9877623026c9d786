#![tactic(auto)]

pub mod bare;
pub mod formula;
pub mod holdoff;
pub mod platform;
pub mod sample;
pub mod share;
pub mod sliding;
#[cfg(test)]
mod tests;
pub mod window;
