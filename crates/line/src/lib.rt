// A stream of bytes cut into lines, and the record of each: document 01, 'The line program'.
#![tactic(auto)]

mod feeding;
mod pending;
pub mod program;
mod puts;
mod records;
mod stored;

pub use feeding::{Fed, feed, finish};
pub use pending::Pending;
pub use records::{LONGEST_RECORD, Record, Stored, Texts};
