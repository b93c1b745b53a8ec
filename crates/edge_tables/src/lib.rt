//! What files, sinks, numbers and logs answer, worked by hand, with a fault at each call in turn. It holds tests and what they share.
#![tactic(auto)]

pub mod cut_file;
#[cfg(test)]
mod files;
#[cfg(test)]
mod lines;
#[cfg(test)]
mod logs;
#[cfg(test)]
mod numbers;
#[cfg(test)]
mod readers;
#[cfg(test)]
mod sinks;
#[cfg(test)]
mod system;
