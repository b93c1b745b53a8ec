//! Reads the tokens of a file into statements.
//!
//! A load or an option is a statement by itself. A reserved word, or a lower-case word that an
//! upper-case one follows, begins a line statement: it goes on as long as the next token stands on the
//! line of the token before it, or the token before it is a comma. Any other token begins a sentence,
//! which goes up to and with the first full stop.
//!
//! [`statements::statements`] answers the statements, or the first faulty one: a sentence in which over
//! 100 parentheses are open or that has over 300 tokens of the kinds `!`, `->`, `<->`, `]`, `}`, `+`,
//! `-` and `*` is too deep, and this is tested before its grammar. What the statements of some tokens
//! are is said by relations apart from the code: `AreStatements` of `specs/Statements.antt`, over the
//! line statements of `specs/Lines.antt`, the formulas of `specs/Formulas.antt`, the terms of
//! `specs/Terms.antt` and the rules of `specs/Cut.antt` on where a statement ends.
//! [`statements::one_reading`] shows that they give some tokens one answer at most.
//!
//! The crate stands on `ec_lex` for tokens and on `ec_syntax` for the trees that it makes.
#![tactic(auto)]

mod alone;
mod cut;
pub mod fault;
mod formula;
mod line;
mod list;
mod mark;
pub mod statements;
mod term;
