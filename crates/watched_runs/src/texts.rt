//! A node's post as text.

ghost use Rattle.std.specs.Prelude.{◌≡◌, IfOk, string_bytes};
ghost use Rattle.watched_runs.specs.Texts.{post_text};

use crate::post::Post;
use std::alloc::{AllocError, Global};

/// What a node does as a proposer, or that it is down.
pub fn post_text(alloc: Global, post: Post) -> Result<String, AllocError>
    ensures { IfOk result (λ text. string_bytes text ≡ post_text post) }
{
    match post {
        Post::Down => String::from_str(alloc, "is down"),
        Post::Idle => String::from_str(alloc, "is idle"),
        Post::Prepares(ballot) => format!(in alloc; "prepares ballot {}", ballot.number()),
        Post::Leads(ballot) => format!(in alloc; "leads ballot {}", ballot.number()),
    }
}
