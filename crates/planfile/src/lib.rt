// The plan file: its records, the reader and the writer.
#![tactic(auto)]

pub mod read;
pub mod record;
pub mod write;
