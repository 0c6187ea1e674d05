//! Who prepares and leads, what is learned, and where places are chosen.

ghost use Rattle.std.specs.Prelude.{◌≡◌, ◌++◌, ◌<◌, ◌^◌, OnOk, IfOk, Some, string_bytes, slice_get};
ghost use Rattle.xml_text.specs.Xml.{render};
ghost use Rattle.run_picture.specs.Rows.{first_row};
ghost use Rattle.run_picture.specs.Parts.{lanes};
ghost use Rattle.run_picture.specs.Roles.{band, band_if, band_of_class, band_steps, band_title, band_to};
ghost use Rattle.run_picture.specs.Roles.{bands_from};
ghost use Rattle.run_picture.specs.Roles.{chosen_from, chosen_if};
ghost use Rattle.run_picture.specs.Roles.{chosen_line, comes_right, from_right, learned_told, new_post, node_told};
ghost use Rattle.run_picture.specs.Roles.{post_after};
ghost use Rattle.run_picture.specs.Roles.{post_if, post_seen, post_told, row_after, told_at};
ghost use Rattle.watched_runs.specs.Texts.{post_text};
ghost use Rattle.watched_runs.specs.declared.post.Post.TheVariants.{Idle};

use crate::lanes::{lane_x, lanes_end};
use crate::rows::FIRST_ROW;
use crate::scene::{Scene, lanes};
use ballots::Letter;
use std::alloc::{AllocError, Global};
use watched_runs::{Post, Sight, Watched, post_text};
use xml_text::{add_line, add_titled_path, add_words};

/// The new post of node `k`, where this is seen of it.
fn post_seen(k: u64, sight: Option<Sight>) -> Option<Post>
    ensures { result ≡ post_seen k sight }
{
    let Some(sight) = sight else {
        return None;
    };
    if sight.node as u64 == k {
        sight.post
    } else {
        None
    }
}

/// The new post of node `k` at event `i`, if it has one.
fn new_post(k: u64, run: &Watched<'_>, i: usize) -> Option<Post>
    ensures { result ≡ new_post k (slice_get run.now.rows i) }
{
    if i >= run.len() {
        return None;
    }
    let row = run.row(i);
    post_seen(k, row.sight)
}

/// What a node does as a proposer, in words.
fn post_words(alloc: Global, post: &Post) -> Result<String, AllocError>
    ensures { IfOk result (λ text. string_bytes text ≡ post_text post.now) }
{
    match post {
        Post::Down => post_text(alloc, Post::Down),
        Post::Idle => post_text(alloc, Post::Idle),
        Post::Prepares(ballot) => post_text(alloc, Post::Prepares(*ballot)),
        Post::Leads(ballot) => post_text(alloc, Post::Leads(*ballot)),
    }
}

/// What a band tells when it is pointed at.
fn band_title(alloc: Global, k: u64, post: &Post) -> Result<String, AllocError>
    ensures { IfOk result (λ text. string_bytes text ≡ band_title k post.now) }
{
    let text = post_words(alloc, post)?;
    format!(in alloc; "node {k} {text}")
}

fn band_steps(alloc: Global, x: u64, y1: u64, y2: u64) -> Result<String, AllocError>
    ensures { IfOk result (λ text. string_bytes text ≡ band_steps x y1 y2) }
{
    let left = x.saturating_sub(9);
    format!(in alloc; "M{left} {y1}h18V{y2}h-18z")
}

/// A strip of the lane of node `k`, of so many lanes, from one row to another.
#[derive(Clone, Copy)]
struct Strip {
    lanes: u64,
    k: u64,
    rows: (u64, u64),
}

/// A band of a class.
fn add_band_of(
    alloc: Global,
    out: &mut String,
    strip: &Strip,
    post: &Post,
    class: &str,
) -> Result<(), AllocError>
    requires { strip.now.k < 2 ^ 40 }
    ensures { OnOk result (string_bytes out.new ≡ string_bytes out.old ++ render
        (band_of_class strip.now.lanes strip.now.k post.now strip.now.rows.0 strip.now.rows.1 (Some class.now))) }
{
    let title = band_title(alloc, strip.k, post)?;
    let x = lane_x(strip.lanes, strip.k);
    let steps = band_steps(alloc, x, strip.rows.0, strip.rows.1)?;
    add_titled_path(alloc, out, title.as_str(), steps.as_str(), class)
}

/// The band of a node, where it has a post.
fn add_band(alloc: Global, out: &mut String, strip: &Strip, post: &Post) -> Result<(), AllocError>
    requires { strip.now.k < 2 ^ 40 }
    ensures { OnOk result (string_bytes out.new
        ≡ string_bytes out.old ++ render (band strip.now.lanes strip.now.k post.now strip.now.rows.0 strip.now.rows.1)) }
{
    match post {
        Post::Down => add_band_of(alloc, out, strip, post, "down"),
        Post::Idle => Ok(()),
        Post::Prepares(_) => add_band_of(alloc, out, strip, post, "prep"),
        Post::Leads(_) => add_band_of(alloc, out, strip, post, "lead"),
    }
}

/// The band of a node up to a row, unless that is at the upper edge.
fn add_band_to(
    alloc: Global,
    out: &mut String,
    strip: &Strip,
    post: &Post,
) -> Result<(), AllocError>
    requires { strip.now.k < 2 ^ 40 }
    ensures { OnOk result (string_bytes out.new
        ≡ string_bytes out.old ++ render (band_to strip.now.lanes strip.now.k post.now strip.now.rows.0 strip.now.rows.1)) }
{
    if strip.rows.1 < u64::from(FIRST_ROW) {
        return Ok(());
    }
    add_band(alloc, out, strip, post)
}

/// The band of a node up to a row, where it has another post from there on.
fn add_band_if(
    alloc: Global,
    out: &mut String,
    strip: &Strip,
    post: &Post,
    next: &Option<Post>,
) -> Result<(), AllocError>
    requires { strip.now.k < 2 ^ 40 }
    ensures { OnOk result (string_bytes out.new
        ≡ string_bytes out.old ++ render (band_if strip.now.lanes strip.now.k post.now strip.now.rows.0 strip.now.rows.1 next.now)) }
{
    match next {
        Some(_) => add_band_to(alloc, out, strip, post),
        None => Ok(()),
    }
}

fn row_after(start: u64, y: u64, next: &Option<Post>) -> u64
    ensures { result ≡ row_after start y next.now }
{
    match next {
        Some(_) => y,
        None => start,
    }
}

fn post_after(post: Post, next: Option<Post>) -> Post
    ensures { result ≡ post_after post next }
{
    match next {
        Some(next) => next,
        None => post,
    }
}

/// The bands of node `k`, whose lanes end at the bottom.
pub(crate) fn add_bands(
    alloc: Global,
    out: &mut String,
    scene: &Scene<'_>,
    bottom: u64,
    k: u64,
) -> Result<(), AllocError>
    requires members { scene.now.members < 2 ^ 32 }
    requires modems { scene.now.modems < 2 ^ 32 }
    requires lane { k < 2 ^ 40 }
    ensures { OnOk result (string_bytes out.new
        ≡ string_bytes out.old ++ render (bands_from (lanes scene.now) bottom k scene.now.run.now.rows Idle first_row 0 scene.now.rows.now)) }
{
    let lanes = lanes(scene);
    let mut post = Post::Idle;
    let mut start = u64::from(FIRST_ROW);
    for (i, row) in scene.rows.iter().enumerate() {
        let y = u64::from(*row);
        let next = new_post(k, scene.run, i);
        let rows = (start, y);
        let strip = Strip { lanes, k, rows };
        add_band_if(alloc, out, &strip, &post, &next)?;
        start = row_after(start, y, &next);
        post = post_after(post, next);
    }
    let rows = (start, bottom);
    let strip = Strip { lanes, k, rows };
    add_band(alloc, out, &strip, &post)
}

/// What is told beside a mark, left or right of it.
fn add_told_at(
    alloc: Global,
    out: &mut String,
    left: bool,
    at: (u64, u64),
    text: &str,
) -> Result<(), AllocError>
    requires x { at.0 < 2 ^ 50 }
    requires y { at.1 < 2 ^ 32 }
    ensures { OnOk result (string_bytes out.new ≡ string_bytes out.old ++ render (told_at left at.0 at.1 text.now)) }
{
    let (x, y) = at;
    if left {
        let before = x.saturating_sub(11);
        return add_words(alloc, out, (before, y + 4), "s halo e b", text);
    }
    add_words(alloc, out, (x + 11, y + 4), "s halo b", text)
}

/// The new post of a node, beside a mark.
fn add_post_told(
    alloc: Global,
    out: &mut String,
    left: bool,
    at: (u64, u64),
    post: Option<Post>,
) -> Result<(), AllocError>
    requires x { at.0 < 2 ^ 50 }
    requires y { at.1 < 2 ^ 32 }
    ensures { OnOk result (string_bytes out.new ≡ string_bytes out.old ++ render (post_told left at.0 at.1 post)) }
{
    let Some(post) = post else {
        return Ok(());
    };
    let text = post_text(alloc, post)?;
    add_told_at(alloc, out, left, at, text.as_str())
}

/// The place that a node learned, beside a mark.
fn add_learned_told(
    alloc: Global,
    out: &mut String,
    left: bool,
    at: (u64, u64),
    learned: Option<u64>,
) -> Result<(), AllocError>
    requires x { at.0 < 2 ^ 50 }
    requires y { at.1 < 2 ^ 32 }
    ensures { OnOk result (string_bytes out.new ≡ string_bytes out.old ++ render (learned_told left at.0 at.1 learned)) }
{
    let Some(place) = learned else {
        return Ok(());
    };
    let text = format!(in alloc; "learned p{place}")?;
    add_told_at(alloc, out, left, at, text.as_str())
}

/// What is seen of a node, beside a mark.
pub(crate) fn add_node_told(
    alloc: Global,
    out: &mut String,
    left: bool,
    at: (u64, u64),
    sight: Sight,
) -> Result<(), AllocError>
    requires x { at.0 < 2 ^ 50 }
    requires y { at.1 < 2 ^ 32 }
    ensures { OnOk result (string_bytes out.new ≡ string_bytes out.old ++ render (node_told at.0 left at.1 sight)) }
{
    add_post_told(alloc, out, left, at, sight.post)?;
    add_learned_told(alloc, out, left, at, sight.learned)
}

/// Whether a letter that comes, comes from the right or from the node itself.
pub(crate) fn comes_right(letters: &[Letter], brought: Option<usize>) -> bool
    ensures { result ≡ comes_right letters.now brought }
{
    let Some(l) = brought else {
        return false;
    };
    if l >= letters.len() {
        return false;
    }
    letters[l].from.number() >= letters[l].to.number()
}

/// The line across all lanes where a place is chosen.
fn add_chosen_line(
    alloc: Global,
    out: &mut String,
    lanes: u64,
    y: u64,
    place: u64,
) -> Result<(), AllocError>
    requires lanes { lanes < 2 ^ 40 }
    requires y { y < 2 ^ 32 }
    ensures { OnOk result (string_bytes out.new ≡ string_bytes out.old ++ render (chosen_line lanes y place)) }
{
    let end = lanes_end(lanes);
    let words = format!(in alloc; "p{place} chosen")?;
    add_line(alloc, out, (212, y), (end, y), "chosen")?;
    add_words(alloc, out, (end + 70, y + 4), "s b", words.as_str())
}

/// The line of a place that is chosen, if one is.
fn add_chosen_if(
    alloc: Global,
    out: &mut String,
    lanes: u64,
    place: Option<u64>,
    y: u64,
) -> Result<(), AllocError>
    requires lanes { lanes < 2 ^ 40 }
    requires y { y < 2 ^ 32 }
    ensures { OnOk result (string_bytes out.new ≡ string_bytes out.old ++ render (chosen_if lanes place y)) }
{
    let Some(place) = place else {
        return Ok(());
    };
    if y < u64::from(FIRST_ROW) {
        return Ok(());
    }
    add_chosen_line(alloc, out, lanes, y, place)
}

/// The line where letter `l` shows that a place is chosen, if it does.
pub(crate) fn add_chosen(
    alloc: Global,
    out: &mut String,
    scene: &Scene<'_>,
    l: usize,
) -> Result<(), AllocError>
    requires members { scene.now.members < 2 ^ 32 }
    requires modems { scene.now.modems < 2 ^ 32 }
    ensures { OnOk result (string_bytes out.new
        ≡ string_bytes out.old ++ render (chosen_from (lanes scene.now) (slice_get scene.now.choices.now l) (slice_get scene.now.senders.now l))) }
{
    let (choices, senders) = (scene.choices, scene.senders);
    if l >= choices.len() {
        return Ok(());
    }
    if l >= senders.len() {
        return Ok(());
    }
    add_chosen_if(alloc, out, lanes(scene), choices[l], u64::from(senders[l]))
}
