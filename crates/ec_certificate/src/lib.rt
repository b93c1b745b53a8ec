//! Logs of a search, as evidence that anybody can check. Definitions and laws alone.
//!
//! A log is accepted for a clause list, a list of truths and an ending, where each blocked line is one of these truths, each derived
//! line follows from clauses before it, and the end is in keeping. The laws say what an accepted log shows: one that is closed leaves
//! no truth of the clause list out, and the derived lines of a log that repeats nothing are fewer than three to the power of the
//! variables. The order of the truths does not matter. The bytes of a log come to one judgement: that it is accepted, exactly where they
//! are the text of an accepted log, or its first faulty line.
//!
//! Further laws are for who writes such a log from a solver's notes. A log under way begins with no note, and stays under way through
//! each search and each blocked model, by what the solver's calls ensure; the truth of each model is new, so no more are blocked than
//! the visible variables have truths; and a log is accepted with each ending that a search can give it. Where a search found no model
//! more, each truth that meets the list has its visible part among those listed.
//! It stands on `ec_clause` for clauses and steps, on `ec_log` for the lines of logs and on `ec_sat` for what a solver does.
#![tactic(auto)]
