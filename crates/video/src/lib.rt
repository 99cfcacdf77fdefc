// The calls of the display: a scan line into a video buffer, and two of its bytes put out.
#![tactic(auto)]

pub mod clocks; // clocks.rt: video clock
pub mod transfers; // transfers.rt: video transfer
