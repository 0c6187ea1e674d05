//! Bytes are one state at most.

ghost use Rattle.std.specs.Prelude.{◌≡◌, ℕ, List};
ghost use Rattle.flow_state.specs.Rows.{Rows};
ghost use Rattle.host_states.specs.States.{IsFramed, IsState, IsStateFault, IsWant};
ghost use Rattle.host_states.specs.declared.fault.StateFault.{StateFault};
ghost use Rattle.host_states.specs.declared.head.StateHead.{StateHead};

use row_bytes::one_spelling_of_rows;

/// Bytes are one state at most, and have one head and one spelling of tables where they are whole. Bytes with a fault,
/// but for want of memory, are no state.
pub fn one_spelling_of_states()
    ensures one { (bytes : List ℕ) (h g : StateHead) (rows others : Rows) → IsState bytes h rows → IsState bytes g others → (h ≡ g) × (rows ≡ others) }
    ensures frame { (bytes : List ℕ) (h g : StateHead) (x y : List ℕ) → IsFramed bytes h x → IsFramed bytes g y → (h ≡ g) × (x ≡ y) }
    ensures none { (bytes : List ℕ) (fault : StateFault) (h : StateHead) (rows : Rows) → IsStateFault bytes fault → IsState bytes h rows → IsWant fault }
{
    one_spelling_of_rows()
}
