//! Why bytes are no state.

use row_bytes::RowsFault;
use thiserror::Error;

/// The first thing that is wrong with bytes.
#[derive(Clone, Copy, Debug, PartialEq, Eq, Error)]
pub enum StateFault {
    /// They don't begin with the line of a state.
    #[error("NoState")]
    NoState,
    /// They end too early, or their sum isn't that of the bytes before it: they were cut or changed.
    #[error("NotWhole")]
    NotWhole,
    /// They are whole, and what stands where tables are spells none; or want of memory, as `RowsFault` tells it.
    #[error("{0}")]
    Rows(RowsFault),
}
