//! What parts are joined into, what trees are true, and what a theory is encoded as, worked by hand. It holds tests
//! alone.
#![tactic(auto)]

#[cfg(test)]
mod encodings;
#[cfg(test)]
mod joins;
#[cfg(test)]
mod truths;
