//! An event with its trace.

ghost use Rattle.std.specs.Prelude.{◌≡◌, IfOk, OnOk, string_bytes};
ghost use Rattle.serde_json.specs.View.{members_view};
ghost use Rattle.json_outputs.specs.Texts.{IsTextWhere};
ghost use Rattle.json_answers.specs.Events.{TellsTraced, with_changed, with_learned, with_post, with_post_of};
ghost use Rattle.json_answers.specs.Events.{with_sight, with_trace};
ghost use Rattle.watched_runs.specs.Shown.{shown};

use crate::events::event_fields;
use crate::letters::put_letters;
use ballots::Ballot;
use json_outputs::{put_number, put_text, put_time, text_of};
use serde_json::{Map, Value};
use std::alloc::{AllocError, Global};
use watched_runs::{Post, Row, Sight};

/// Puts what a node does with a ballot.
fn put_with_ballot(
    map: &mut Map<String, Value>,
    alloc: Global,
    post: &str,
    ballot: Ballot,
) -> Result<(), AllocError>
    ensures { OnOk result (members_view map.new.entries ≡ with_post_of post.now ballot (members_view map.old.entries)) }
{
    put_text(map, alloc, "post", post)?;
    put_time(map, alloc, "ballot", ballot.number())
}

/// Puts what a node does as a proposer.
fn put_post(map: &mut Map<String, Value>, alloc: Global, post: Post) -> Result<(), AllocError>
    ensures { OnOk result (members_view map.new.entries ≡ with_post post (members_view map.old.entries)) }
{
    match post {
        Post::Down => put_text(map, alloc, "post", "down"),
        Post::Idle => put_text(map, alloc, "post", "idle"),
        Post::Prepares(ballot) => put_with_ballot(map, alloc, "prepares", ballot),
        Post::Leads(ballot) => put_with_ballot(map, alloc, "leads", ballot),
    }
}

/// Puts what a node does as a proposer, where that changed.
fn put_changed(
    map: &mut Map<String, Value>,
    alloc: Global,
    post: Option<Post>,
) -> Result<(), AllocError>
    ensures { OnOk result (members_view map.new.entries ≡ with_changed post (members_view map.old.entries)) }
{
    match post {
        None => Ok(()),
        Some(post) => put_post(map, alloc, post),
    }
}

/// Puts a place that a node learned.
fn put_learned(
    map: &mut Map<String, Value>,
    alloc: Global,
    learned: Option<u64>,
) -> Result<(), AllocError>
    ensures { OnOk result (members_view map.new.entries ≡ with_learned learned (members_view map.old.entries)) }
{
    match learned {
        None => Ok(()),
        Some(place) => put_number(map, alloc, "learned", place),
    }
}

/// Puts what is seen of a node.
fn put_sight(
    map: &mut Map<String, Value>,
    alloc: Global,
    sight: Option<Sight>,
) -> Result<(), AllocError>
    ensures { OnOk result (members_view map.new.entries ≡ with_sight sight (members_view map.old.entries)) }
{
    let Some(sight) = sight else {
        return Ok(());
    };
    put_number(map, alloc, "node", sight.node as u64)?;
    put_changed(map, alloc, sight.post)?;
    put_learned(map, alloc, sight.learned)
}

/// Puts a trace: the letters that came and those that were sent, and what is seen of a node.
fn put_trace(map: &mut Map<String, Value>, alloc: Global, row: &Row<'_>) -> Result<(), AllocError>
    ensures { OnOk result (members_view map.new.entries ≡ with_trace (shown row.now) (members_view map.old.entries)) }
{
    put_letters(map, alloc, "came", &row.came)?;
    put_letters(map, alloc, "sent", &row.sent)?;
    put_sight(map, alloc, row.sight)
}

/// An event: its number, its answer, the outputs that it released, and its trace. Without a line's end.
pub fn traced_text(alloc: Global, row: &Row<'_>) -> Result<String, AllocError>
    ensures { IfOk result (λ text. IsTextWhere (TellsTraced (shown row.now)) (string_bytes text)) }
{
    let mut map = event_fields(alloc, row)?;
    put_trace(&mut map, alloc, row)?;
    let value = Value::Object(map);
    text_of(alloc, &value)
}
