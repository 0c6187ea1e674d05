//! Where the outputs stand that the records released.

ghost use Rattle.std.specs.Prelude.{length, ◌≤◌, MatchOption};
ghost use Rattle.node_worker.specs.Legal.{outputs_of};
ghost use Rattle.node_worker.specs.Runs.{IsOutputAt};
ghost use Rattle.node_worker.specs.Places.{IsPlaceOf};

use crate::entry::Record;
use grant_machine::Output;

/// A place among the outputs: the number of a record, and how many outputs the records before it released.
#[derive(Clone, Copy, Debug, Drop)]
pub struct OutputPlace {
    pub record: usize,
    pub before: usize,
}

// Where the search for output number i begins: at the place, or before all records where the output stands before the
// place.
fn begin_of(records: &[Record], place: OutputPlace, i: usize) -> OutputPlace
    requires { IsPlaceOf records.now place.record place.before }
    ensures place { IsPlaceOf records.now result.record result.before }
    ensures below { result.before ≤ i }
{
    if place.before <= i {
        place
    } else {
        OutputPlace {
            record: 0,
            before: 0,
        }
    }
}

/// Output number i of all that the records released. The search for it begins at a place, or at the first record where
/// it stands before the place, and leaves the place where it found it: so outputs that are looked for in their order
/// are each found at once.
pub fn output_at<'a>(records: &'a [Record], i: usize, place: &mut OutputPlace) -> Option<&'a Output>
    requires { IsPlaceOf records.now place.old.record place.old.before }
    ensures found { MatchOption result (length (outputs_of records.now) ≤ i) (λ o. IsOutputAt records.now i o.now) }
    ensures place { IsPlaceOf records.now place.new.record place.new.before }
{
    let begin = begin_of(records, *place, i);
    let mut left = i - begin.before;
    for j in begin.record..records.len() {
        let outputs = records[j].entry.outputs();
        if left < outputs.len() {
            *place = OutputPlace {
                record: j,
                before: i - left,
            };
            return Some(&outputs[left].output);
        }
        left -= outputs.len();
    }
    None
}
