//! The outside: stores of bytes under keys, sources and sinks of bytes, in memory and over files.
#![tactic(auto)]

mod calls;
mod file_source;
mod files;
mod folder_store;
#[cfg(test)]
mod halting;
mod logged;
mod mem_sink;
mod mem_source;
mod mem_store;
mod std_sink;
mod store;
mod stream;
mod undo;

pub use file_source::FileSource;
pub use folder_store::FolderStore;
pub use logged::Logged;
pub use mem_sink::MemSink;
pub use mem_source::MemSource;
pub use mem_store::MemStore;
pub use std_sink::StdSink;
pub use store::{Got, Put, Store};
pub use stream::{Gave, Sink, Source, Took};
pub use undo::{Folder, settle};
