// Rings into the bytes of a file, each number with its lowest byte first.
#![tactic(auto)]

mod records;

pub use records::put_rings;
