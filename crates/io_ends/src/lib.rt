//! The two ends of a program: a source of bytes and a sink for bytes.
//!
//! A [`Source`] gives bytes and a [`Sink`] takes them. Their ghost members say which bytes are left or were written, where
//! that is known, and count the faults. A call answers a fault only where the count rose in that call.
//! [`read_all`] and [`write_all`] work over any source and any sink. [`MemSource`] and [`MemSink`] are in memory, with
//! calls that fail on purpose; [`ReaderSource`] and [`WriterSink`] wrap readers and writers of the standard library.
#![tactic(auto)]

mod calls;
mod ends;
mod memory_sink;
mod memory_source;
mod reader_source;
mod reading;
mod tried;
mod writer_sink;
mod writing;

pub use ends::{Failed, Sink, Source};
pub use memory_sink::MemSink;
pub use memory_source::MemSource;
pub use reader_source::{ReaderSource, StdinSource};
pub use reading::{ReadErr, read_all};
pub use writer_sink::{StdoutSink, WriterSink};
pub use writing::{WriteFault, write_all};
