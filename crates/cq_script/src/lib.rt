//! What a script is: where its bytes come from and where the answers' bytes go, how it is cut into pieces, which are
//! statements with the data of a COPY and directives, how these are read, and the text of each answer; and the script that is generated from two numbers.
#![tactic(auto)]

mod copying;
mod csv_table;
mod cutter;
mod directive;
mod draws;
mod fatal;
mod fault;
mod generator;
mod memory;
mod reader;
mod rendering;
mod scan;
mod schedule;
mod sink;
mod source;
mod standard;
mod words;

pub use cq_answer::{Answer, Fault, Tag};
pub use cutter::{Bytes, Cutter, Item, Line, Piece, Place, Step};
pub use directive::{Directive, MOST_SESSIONS, read_directive};
pub use fatal::{Fatal, MOST_BYTES, MOST_STATEMENTS};
pub use generator::{Generator, make_script};
pub use memory::{MemSink, MemSource};
pub use reader::{Draft, Halt, Placed, Reader, Unread};
pub use rendering::{render, session_line};
pub use scan::Scan;
pub use sink::{Sink, SinkError, emit};
pub use source::{Failed, Source};
pub use standard::{ReadSource, WriteSink};
