//! What the program does with the word `script`: it makes a script, reads it back, runs it, and prints it where it is
//! as asked. It opens no file.
#![tactic(auto)]

mod asked;
mod refusal;
mod trial;
mod written;

pub use written::script;
