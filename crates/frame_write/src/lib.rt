// Frames, as document 01's "Bytes" has them, written into a slice under a profile of document 02, 2/13; and a datagram's head.

#![tactic(auto)]

mod head;
mod write;

pub use head::write_head;
pub use write::write_frame;
