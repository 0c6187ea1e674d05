//! MAPs as DOCSIS frames, and these in a capture file (CM-SP-MULPIv3.1, MAC frames and MAC management messages).
#![tactic(auto)]

mod capture;
mod checks;
mod frames;

pub use capture::{file_head, record};
pub use checks::{frame_check, header_check};
pub use frames::frame;
