// The chip for Rattle hosts: docs/HOSTS.md.
#![tactic(auto)]

pub mod display; // display.rt: scan lines for the display
pub mod kept; // kept.rt: a chip kept as a state block, and read back
pub mod lent; // lent.rt: calls that advance a chip state lent by reference
mod older; // older.rt: blocks of older forms, which are read too
