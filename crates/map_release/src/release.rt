ghost use Rattle.std.specs.Prelude.{◌≡◌, [], IsOk, IfOk};
ghost use Rattle.map_release.specs.Released.{applied_outputs, has_ended, released};

use crate::numbered::Numbered;
use command_log::Log;
use grant_machine::{Output, again};
use std::alloc::{AllocError, Global};
use std::marker::Model;

/// Whether an output is a MAP that has ended by a time in minislots: its last minislot lies before it. It takes
/// constant time.
pub fn has_ended(output: &Output, now: u64) -> bool
    ensures { result ≡ has_ended now output.now }
{
    match output {
        Output::Map { start, len, .. } => start.get() + u64::from(*len) <= now,
        _ => false,
    }
}

/// The outputs of the places behind the cursor that the log has applied, without the MAPs that have
/// ended.
fn outputs_behind(
    alloc: Global,
    log: &Log,
    cursor: u64,
    now: u64,
) -> Result<Vec<Numbered>, AllocError>
    ensures released { IfOk result (λ outputs. outputs.items ≡ released now cursor (applied_outputs log.now)) }
    ensures nothing { released now cursor (applied_outputs log.now) ≡ [] → IsOk result }
{
    let mut outputs = Vec::new(alloc);
    for passed in cursor..log.prefix_len() {
        let place = passed + 1;
        if let Some(output) = log.output(place) {
            if !has_ended(output, now) {
                let output = again(output)?;
                outputs
                    .push(Numbered { place, output })
                    .map_err(AllocError::from)?;
            }
        }
    }
    Ok(outputs)
}

/// Which outputs of a log were released: those of the places up to the cursor.
#[derive(Clone, Copy, Debug)]
pub struct Release {
    cursor: u64,
}

impl Model for Release {
    ghost use Rattle.std.specs.Prelude.{ℕ};

    ghost Value = { ℕ };

    ghost view = { λ a. a.cursor };

    ghost inverse = { λ n. record { cursor = n } };
}

impl Release {
    ghost use Rattle.std.specs.Prelude.{◌≡◌, ◌≤◌, [], IsOk, IsOkAnd, IfOk, OnOk, OnErr};
    ghost use Rattle.map_release.specs.Released.{applied_outputs, released};

    /// Nothing was released. A node that starts again releases from place 1 on.
    pub fn new() -> Release
        ensures { result ≡ 0 }
    {
        Release { cursor: 0 }
    }

    /// The last place that was passed, 0 at first.
    pub fn cursor(&self) -> u64
        ensures { result ≡ self.now }
    {
        self.cursor
    }

    /// The outputs of the places behind the cursor that the log has applied, in order, without the
    /// MAPs that end at `now` (in minislots) or before. The cursor moves to the last applied place. Where
    /// nothing is to be released, the call takes no memory.
    pub fn next(&mut self, alloc: Global, log: &Log, now: u64) -> Result<Vec<Numbered>, AllocError>
        ensures released { IfOk result (λ outputs. outputs.items ≡ released now self.old (applied_outputs log.now)) }
        ensures nothing { released now self.old (applied_outputs log.now) ≡ [] → IsOk result }
        ensures none_behind { log.now.applied ≤ self.old → IsOkAnd result (λ outputs. outputs.items ≡ []) }
        ensures cursor { OnOk result (self.new ≡ log.now.applied) }
        ensures err { OnErr result (self.new ≡ self.old) }
    {
        let outputs = outputs_behind(alloc, log, self.cursor, now)?;
        self.cursor = log.prefix_len();
        Ok(outputs)
    }
}
