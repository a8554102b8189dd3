//! The bytes of a journal of puts: what a key held before a put, so that a put that was cut off is taken back.
//!
//! A journal is a head of 40 bytes and a body: the key, then the first bytes of the key's file. The body is written
//! first, then the head, whose last byte tells whether the journal counts. A put that has ended writes 0 over it.
#![tactic(auto)]

mod entry;
mod parts;
mod sum;

pub use entry::{DONE, Entry, HEAD, TOLD, entry_in, write_entry};
