//! Lists of narratives, seen line by line: what a list text may be, and which line of any other text is faulty. Definitions and laws alone.
//!
//! A narrative is a row of slots, each of which has one line or none: a time's number, a fluent that holds, an event that happens. The
//! laws say that the narrative of a truth is what its slots tell, one behind the other, and that the slots are apart: between two lines
//! that always stand there, no two slots can tell the same line. So a text is the narrative of one truth at most, and it can be read
//! slot by slot. What is read of a text is said without slots (specs/Reading.antt), by the narratives of all truths that fit.
//! It stands on `ec_logic` for narratives and on `ec_clause` for endings.
#![tactic(auto)]
