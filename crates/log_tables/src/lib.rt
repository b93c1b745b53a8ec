//! Logs, right and forged, checked through buffers of several sizes. It holds tests alone.
#![tactic(auto)]

#[cfg(test)]
mod lists;
#[cfg(test)]
mod sizes;
