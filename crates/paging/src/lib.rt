// The calls on banks and pages: access, precharge, duplicate, and blocks between memory and the pixel buffer.
#![tactic(auto)]

pub mod blocks; // blocks.rt: read block, write block
pub mod pages; // pages.rt: access, precharge, duplicate
