//! What a program takes from outside and gives to it: files that are fetched by name, and sinks
//! that bytes are put into.
//!
//! Both are traits. `MemFiles`, `SureFiles`, `MemSink` and `CountSink` keep all in memory and say
//! exactly what they hold; `DiskFiles` and `StdSink` stand for the real files and streams.
#![tactic(auto)]

mod byte_list;
mod count_sink;
mod disk_files;
mod laws;
mod memory_files;
mod memory_sink;
mod numbers;
mod outside;
mod pieces;
mod std_sink;
mod sure_files;

pub use byte_list::Bytes;
pub use count_sink::CountSink;
pub use disk_files::DiskFiles;
pub use laws::{calls_join, counting_goes_on, files_tell, puts_join, sinks_tell};
pub use memory_files::MemFiles;
pub use memory_sink::MemSink;
pub use numbers::write_number;
pub use outside::{Fetched, Files, Put, Sink};
pub use pieces::{PutFailed, put_piece};
pub use std_sink::StdSink;
pub use sure_files::SureFiles;
