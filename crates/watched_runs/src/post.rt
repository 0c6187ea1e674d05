//! Who prepares and who leads.

ghost use Rattle.std.specs.Prelude.{◌≡◌};
ghost use Rattle.watched_runs.specs.declared.post.Post.TheVariants.{Down, Idle, Prepares, Leads};
ghost use Rattle.watched_runs.specs.Posts.{changed, post_of, same_post};

use ballots::Ballot;
use proposer::Role;

/// What a node does as a proposer: nothing, since it is down or is idle, or it prepares or leads a ballot.
#[derive(Clone, Copy)]
pub enum Post {
    Down,
    Idle,
    Prepares(Ballot),
    Leads(Ballot),
}

/// The post of a role.
pub(crate) fn post_of(role: &Role) -> Post
    ensures { result ≡ post_of role.now }
{
    match role {
        Role::Idle => Post::Idle,
        Role::Preparing { ballot, .. } => Post::Prepares(*ballot),
        Role::Leading { ballot, .. } => Post::Leads(*ballot),
    }
}

/// Whether a node is down.
fn is_down(post: &Post) -> bool
    ensures { result ≡ same_post Down post.now }
{
    match post {
        Post::Down => true,
        _ => false,
    }
}

/// Whether a post is idle.
fn is_idle(post: &Post) -> bool
    ensures { result ≡ same_post Idle post.now }
{
    match post {
        Post::Idle => true,
        _ => false,
    }
}

/// Whether a node prepares the ballot of this number.
fn prepares(number: u64, post: &Post) -> bool
    ensures { result ≡ same_post (Prepares number) post.now }
{
    match post {
        Post::Prepares(ballot) => number == ballot.number(),
        _ => false,
    }
}

/// Whether a node leads the ballot of this number.
fn leads(number: u64, post: &Post) -> bool
    ensures { result ≡ same_post (Leads number) post.now }
{
    match post {
        Post::Leads(ballot) => number == ballot.number(),
        _ => false,
    }
}

/// Whether two posts are one.
fn same_post(before: &Post, after: &Post) -> bool
    ensures { result ≡ same_post before.now after.now }
{
    match before {
        Post::Down => is_down(after),
        Post::Idle => is_idle(after),
        Post::Prepares(ballot) => prepares(ballot.number(), after),
        Post::Leads(ballot) => leads(ballot.number(), after),
    }
}

fn copy_of(post: &Post) -> Post
    ensures { result ≡ post.now }
{
    match post {
        Post::Down => Post::Down,
        Post::Idle => Post::Idle,
        Post::Prepares(ballot) => Post::Prepares(*ballot),
        Post::Leads(ballot) => Post::Leads(*ballot),
    }
}

/// The post after an event, where it isn't the one before.
pub(crate) fn changed(before: &Post, after: &Post) -> Option<Post>
    ensures { result ≡ changed before.now after.now }
{
    if same_post(before, after) {
        None
    } else {
        Some(copy_of(after))
    }
}
