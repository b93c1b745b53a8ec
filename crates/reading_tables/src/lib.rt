//! How small a token is, which no file can say. It holds a test alone.
#![tactic(auto)]

#[cfg(test)]
mod tokens;
