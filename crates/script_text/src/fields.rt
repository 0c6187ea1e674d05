//! What the keys of a table of TOML hold.

ghost use Rattle.std.specs.Prelude.{◌≡◌, ℕ, Some, IfSome, map, option_map};
ghost use Rattle.std.specs.List.{list_all};
ghost use Rattle.toml.specs.Data.{get_member};
ghost use Rattle.toml.specs.View.{view, table_view};
ghost use Rattle.script_text.specs.Fields.{HasNode, HasNumber};
ghost use Rattle.script_text.specs.Items.{is_table, items_at, tables_at};

use ballots::NodeId;
use minislot_time::Slot;
use toml::{Table, Value};

/// What the key of the table that is the text holds.
pub fn member<'a>(table: &'a Table, key: &str) -> Option<&'a Value>
    ensures { option_map (λ v. view v.now) result ≡ get_member key.now (table_view table.now) }
{
    table.get(key)
}

/// The items of the array that the key of the text's table holds, none without the key. Nothing where it holds no
/// array.
pub fn items_at<'a>(table: &'a Table, key: &str) -> Option<&'a [Value]>
    ensures { option_map (λ items. map view items.now) result ≡ items_at (table_view table.now) key.now }
{
    let Some(value) = member(table, key) else {
        return Some(&[]);
    };
    let items = value.as_array()?;
    Some(items.as_slice())
}

fn are_tables(items: &[Value]) -> bool
    ensures { result ≡ list_all (λ v. is_table (view v)) items.now }
{
    items.iter().all(|item| item.is_table())
}

/// Likewise, and nothing either where an item is no table.
pub fn tables_at<'a>(table: &'a Table, key: &str) -> Option<&'a [Value]>
    ensures { option_map (λ items. map view items.now) result ≡ tables_at (table_view table.now) key.now }
{
    let items = items_at(table, key)?;
    if are_tables(items) { Some(items) } else { None }
}

pub fn u8_at(table: &Value, key: &str) -> Option<u8>
    ensures found { IfSome result (HasNumber (view table.now) key.now 8) }
    ensures only { (n : ℕ) → HasNumber (view table.now) key.now 8 n → result ≡ Some n }
{
    let number = table.get(key)?.as_integer()?;
    u8::try_from(number).ok()
}

pub fn u16_at(table: &Value, key: &str) -> Option<u16>
    ensures found { IfSome result (HasNumber (view table.now) key.now 16) }
    ensures only { (n : ℕ) → HasNumber (view table.now) key.now 16 n → result ≡ Some n }
{
    let number = table.get(key)?.as_integer()?;
    u16::try_from(number).ok()
}

pub fn u32_at(table: &Value, key: &str) -> Option<u32>
    ensures found { IfSome result (HasNumber (view table.now) key.now 32) }
    ensures only { (n : ℕ) → HasNumber (view table.now) key.now 32 n → result ≡ Some n }
{
    let number = table.get(key)?.as_integer()?;
    u32::try_from(number).ok()
}

pub fn u64_at(table: &Value, key: &str) -> Option<u64>
    ensures found { IfSome result (HasNumber (view table.now) key.now 64) }
    ensures only { (n : ℕ) → HasNumber (view table.now) key.now 64 n → result ≡ Some n }
{
    let number = table.get(key)?.as_integer()?;
    u64::try_from(number).ok()
}

pub fn usize_at(table: &Value, key: &str) -> Option<usize>
    ensures found { IfSome result (HasNumber (view table.now) key.now 64) }
    ensures only { (n : ℕ) → HasNumber (view table.now) key.now 64 n → result ≡ Some n }
{
    let number = table.get(key)?.as_integer()?;
    usize::try_from(number).ok()
}

pub fn slot_at(table: &Value, key: &str) -> Option<Slot>
    ensures found { IfSome result (HasNumber (view table.now) key.now 63) }
    ensures only { (n : ℕ) → HasNumber (view table.now) key.now 63 n → result ≡ Some n }
{
    Slot::new(u64_at(table, key)?)
}

pub fn node_at(table: &Value, key: &str) -> Option<NodeId>
    ensures found { IfSome result (HasNode (view table.now) key.now) }
    ensures only { (n : ℕ) → HasNode (view table.now) key.now n → result ≡ Some n }
{
    NodeId::new(u8_at(table, key)?)
}
