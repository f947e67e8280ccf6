//! Where a run reads its sources and writes its text: the traits `Inputs` and `Sink`, which
//! count their faults, and their kinds over memory and over the system.
#![tactic(auto)]

mod calls;
mod file_inputs;
mod inputs;
mod mem_inputs;
mod mem_sink;
mod named;
mod per_side;
mod sink;
mod std_sink;
mod word;

pub use file_inputs::FileInputs;
pub use inputs::Inputs;
pub use mem_inputs::MemInputs;
pub use mem_sink::MemSink;
pub use named::NamedBytes;
pub use sink::{Failed, Sink, offer_whole};
pub use std_sink::StdSink;
pub use word::Word;

#[cfg(test)]
mod tests;
