//! Drawings as XML: writers of elements, each of which adds the text of one.
#![tactic(auto)]

mod elements;
mod layers;
mod plain;

pub use elements::{
    Area, Disc, Pattern, add_arrow_head, add_circle, add_line, add_path, add_pattern,
    add_rectangle, add_titled, add_titled_circle, add_titled_path, add_words,
};
pub use layers::{Layers, Sheet, drawing, well_formed};
