//! What literals, clause lists, trails, watches, searches and steps answer, worked by hand. It holds tests alone.
#![tactic(auto)]

#[cfg(test)]
mod clauses;
#[cfg(test)]
mod literals;
#[cfg(test)]
mod replays;
#[cfg(test)]
mod searches;
#[cfg(test)]
mod steps;
#[cfg(test)]
mod trails;
#[cfg(test)]
mod watches;
