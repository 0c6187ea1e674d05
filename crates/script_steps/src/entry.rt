//! What a script asks for at once.

use crate::name::DeliverAll;
use crate::step::Step;

/// What a script asks for at once: one event in its list.
#[derive(Drop)]
pub enum Entry {
    /// One step.
    One(Step),
    /// Deliveries of all letters that wait.
    All(DeliverAll),
}
