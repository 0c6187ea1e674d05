//! What holds of every list of tables and of any bytes.

ghost use Rattle.std.specs.Prelude.{◌≡◌, ℕ, List, Err, Ok};
ghost use Rattle.flow_state.specs.Rows.{Rows};
ghost use Rattle.row_bytes.specs.declared.fault.RowsFault.{RowsFault};
ghost use Rattle.row_bytes.specs.Reading.{AreBytes, Read};
ghost use Rattle.row_bytes.specs.Tables.{AreRead, Spells, SpellsNone};

/// Tables that commands could leave are read from their spelling, and that spelling is of no others. Bytes that are read
/// as tables spell them, and those that have a fault spell none. What is read of bytes is one thing.
pub fn one_spelling_of_rows()
    ensures spelled { (bytes : List ℕ) (rows : Rows) → Spells bytes rows → AreRead bytes (Ok rows) }
    ensures one { (bytes : List ℕ) (rows others : Rows) → Spells bytes rows → Spells bytes others → rows ≡ others }
    ensures read { (bytes : List ℕ) (rows : Rows) → AreBytes bytes → AreRead bytes (Ok rows) → Spells bytes rows }
    ensures none { (bytes : List ℕ) (fault : RowsFault) → AreRead bytes (Err fault) → SpellsNone bytes }
    ensures once { (bytes : List ℕ) (read other : Read Rows) → AreRead bytes read → AreRead bytes other → read ≡ other }
{}
