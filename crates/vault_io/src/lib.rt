//! Vaults and sinks: files to read and to put and a place to print to, as traits whose contracts say which bytes come and go where
//! that is told, and when a call may fail; in memory for tests, and over the system at the edge.
#![tactic(auto)]

mod file_vault;
mod loading;
mod mem_sink;
mod mem_vault;
mod named_file;
mod outside;
mod printing;
mod std_sink;
mod tally;

pub use file_vault::FileVault;
pub use loading::{LoadError, load};
pub use mem_sink::MemSink;
pub use mem_vault::MemVault;
pub use named_file::NamedFile;
pub use outside::{Failed, Sink, Vault};
pub use printing::print_all;
pub use std_sink::StdSink;
