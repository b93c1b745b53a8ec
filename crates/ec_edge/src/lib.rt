//! The outside of the program: files by name, and a sink to which text is put.
//!
//! `Files` and `Sink` are what the crates above are written over. Their clauses speak of what is
//! held, where an implementation tells it, and of counts of faults and absences, so that a caller
//! can say that a refusal came only where something outside went wrong. `MemFiles`, `MemSink` and
//! `KeptSink` keep everything in memory and tell it; in the first two single calls can be set to
//! fail. `HostFiles` and `HostOut` are the files of the system and standard output. They tell
//! nothing, and are trusted.
//!
//! `read_whole` reads a file up to a limit. `cut`, `first_line` and `after_prefix` take a text
//! apart, `read_number` and `push_number` read and write a number in it, and `put_text` puts it
//! line by line. The crate stands on `bstr`, `itoa` and `thiserror` alone.
#![tactic(auto)]

mod calls;
mod fault;
mod files;
mod half;
mod host;
mod kept_sink;
mod lines;
mod mem_files;
mod mem_sink;
mod numbers;
mod sink;
mod whole;

pub use fault::{FileFault, SinkFault};
pub use files::Files;
pub use host::{HostFiles, HostOut};
pub use kept_sink::KeptSink;
pub use lines::{after_prefix, cut, first_line, put_text};
pub use mem_files::MemFiles;
pub use mem_sink::MemSink;
pub use numbers::{push_number, read_number};
pub use sink::Sink;
pub use whole::{Whole, read_whole};
