//! Where bytes come from and where they go: the two traits that the readers and writers of Deneva are generic over,
//! streams over memory, which fail never or by a list, and adapters over std's readers and writers.
#![tactic(auto)]

mod adapters;
mod calls;
mod memory;
mod streams;
mod sure;
#[cfg(test)]
mod tests;

pub use adapters::{ReadSource, WriteSink};
pub use memory::{MemSink, MemSource};
pub use streams::{Got, Put, Sink, Source};
pub use sure::{SureSink, SureSource};
