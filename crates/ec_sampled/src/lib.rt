//! That the text of a sample is a book that every command accepts. Laws alone.
//!
//! The text of `ec_sample` is cut into its tokens, the tokens spell its statements, these are the book of a root file that holds the
//! text, and the theory of this book is within all limits. It stands on `ec_sample` for the text, on `ec_lex`, `ec_parse` and `ec_load`
//! for what tokens, statements and books are, and on `ec_accept` for what is accepted.
#![tactic(auto)]
