#![tactic(auto)]

mod fault;
mod header;
mod line;
mod row;

pub use fault::FaultLine;
pub use header::Header;
pub use line::Line;
pub use row::{LONGEST_LINE, Row, write};

#[cfg(test)]
mod tests;
