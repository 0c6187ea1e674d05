//! What holds of the lives of processes.

ghost use Rattle.node_lives.specs.Beginnings.{BeginningsAreLives};
ghost use Rattle.node_lives.specs.Lives.{LivesAreLegal, LivesAreSound};

use node_lines::one_meaning;

/// Processes whose lines and replies are those of their lives, each begun over what the one before left, killed at any
/// point, in an order in which each letter that came was sent before: what their nodes did is sound, so that it is a
/// run, and all that holds of every run holds of what they replied.
pub fn lives_are_sound()
    ensures sound { LivesAreSound }
    ensures legal { LivesAreLegal }
{
    one_meaning();
}

/// The first turns of a life are a life too, at the end of which the node may be killed, and leaves its content. So a
/// process whose last calls no file kept has lived, up to these.
pub fn beginnings_are_lives()
    ensures { BeginningsAreLives }
{}
