#![tactic(auto)]

mod entries;
pub mod entry;
pub mod fault;
pub mod figure;
pub mod line;
pub mod processor_file;
pub mod shown;
pub mod tasks_file;
#[cfg(test)]
mod tests;
