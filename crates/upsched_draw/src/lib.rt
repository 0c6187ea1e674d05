//! `draw`: a run as a picture, and the MAPs of what it has nodes learn. It opens no file.
#![tactic(auto)]

mod draw;
mod laws;
mod learned;
mod maps;
mod transmitted;

pub use draw::{Asked, ScriptDrawing, draw_script};
pub use laws::most_learned_is_one;
pub use maps::{draw_maps, tell_maps};
