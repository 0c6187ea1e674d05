//! What holds of all replies.

ghost use Rattle.std.specs.Prelude.{ℕ, List, [], Option};
ghost use Rattle.flow_state.specs.Rows.{Rows};
ghost use Rattle.grant_machine.specs.declared.command.Command.{Command};
ghost use Rattle.scheduler_lines.specs.declared.form.ReplyForm.{ReplyForm};
ghost use Rattle.scheduler_lines.specs.declared.outgoing.Reply.{Reply};
ghost use Rattle.scheduler_lines.specs.Replying.{RepliesFrom};
ghost use Rattle.scheduler_lines.specs.Serving.{WritesReplies, replied_in};
ghost use Rattle.upsched_scheduler.specs.Laws.{AsksForEach, PrintsAsMaps};

use scheduler_lines::one_meaning;

/// Where each line asks for a command, and there is memory for it, what is written is what `maps` prints of these
/// commands, or `maps --json`.
pub fn prints_as_maps()
    ensures { (form : ReplyForm) (turns : List (List ℕ × Reply)) (cs : List Command) (after : Rows) (old new : Option (List ℕ))
        → RepliesFrom [] turns after → AsksForEach turns cs → WritesReplies form (replied_in turns) old new → PrintsAsMaps form cs old new }
{
    one_meaning();
}
