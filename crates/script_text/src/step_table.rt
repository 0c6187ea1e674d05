//! A step as a table of TOML.

ghost use Rattle.std.specs.Prelude.{◌≡◌, ℕ, Bool, None, Option, Some, IfSome, IfOk, codes};
ghost use Rattle.toml.specs.Data.{get};
ghost use Rattle.toml.specs.View.{view};
ghost use Rattle.script_steps.specs.declared.name.Kind.{Kind};
ghost use Rattle.script_steps.specs.declared.name.Name.{Name};
ghost use Rattle.script_steps.specs.declared.step.Step.{Step};
ghost use Rattle.script_text.specs.EntryTable.{IsExcept, says_any};
ghost use Rattle.script_text.specs.Fields.{HasNode, HasNumber, HasText};
ghost use Rattle.script_text.specs.StepTable.{HasAgain, HasFields, HasKind, HasName, HasParts, MayHave};
ghost use Rattle.script_text.specs.StepTable.{MeansStep, NamesNone, kind_word, says_whose};

use crate::event_table::event_of;
use crate::fields::{node_at, u64_at};
use ballots::NodeId;
use script_steps::{Kind, Name, Step};
use std::alloc::{AllocError, Global};
use toml::Value;

/// The kind that a word names.
fn kind_of(word: &str) -> Option<Kind>
    ensures found { IfSome result (λ kind. word.now ≡ kind_word kind) }
    ensures only { (kind : Kind) → word.now ≡ kind_word kind → result ≡ Some kind }
{
    match word {
        "prepare" => Some(Kind::Prepare),
        "promise" => Some(Kind::Promise),
        "accept" => Some(Kind::Accept),
        "voted" => Some(Kind::Voted),
        "higher" => Some(Kind::Higher),
        "known" => Some(Kind::Known),
        _ => None,
    }
}

fn kind_at(table: &Value) -> Option<Kind>
    ensures found { IfSome result (HasKind (view table.now)) }
    ensures only { (kind : Kind) → HasKind (view table.now) kind → result ≡ Some kind }
{
    kind_of(table.get("note")?.as_str()?)
}

/// The kind that is named, or that none is.
fn kind_part(table: &Value) -> Option<Option<Kind>>
    ensures found { IfSome result (MayHave (HasKind (view table.now)) (view table.now) (codes "note")) }
    ensures only { (part : Option Kind) → MayHave (HasKind (view table.now)) (view table.now) (codes "note") part → result ≡ Some part }
{
    match table.get("note") {
        Some(_) => Some(Some(kind_at(table)?)),
        None => Some(None),
    }
}

/// The node that is named, or that none is.
fn node_part(table: &Value, key: &str) -> Option<Option<NodeId>>
    ensures found { IfSome result (MayHave (HasNode (view table.now) key.now) (view table.now) key.now) }
    ensures only { (part : Option ℕ) → MayHave (HasNode (view table.now) key.now) (view table.now) key.now part → result ≡ Some part }
{
    match table.get(key) {
        Some(_) => Some(Some(node_at(table, key)?)),
        None => Some(None),
    }
}

/// The number that is named, or that none is.
fn number_part(table: &Value, key: &str) -> Option<Option<u64>>
    ensures found { IfSome result (MayHave (HasNumber (view table.now) key.now 64) (view table.now) key.now) }
    ensures only { (part : Option ℕ) → MayHave (HasNumber (view table.now) key.now 64) (view table.now) key.now part → result ≡ Some part }
{
    match table.get(key) {
        Some(_) => Some(Some(u64_at(table, key)?)),
        None => Some(None),
    }
}

/// Whether a letter comes again, which is not so without the key.
fn again_of(table: &Value) -> Option<bool>
    ensures found { IfSome result (HasAgain (view table.now)) }
    ensures only { (again : Bool) → HasAgain (view table.now) again → result ≡ Some again }
{
    match table.get("again") {
        Some(value) => value.as_bool(),
        None => Some(false),
    }
}

/// What a table says of a letter that comes, or comes again.
pub(crate) fn parts_of(table: &Value, again: bool) -> Option<Name>
    ensures found { IfSome result (λ name. HasParts (view table.now) name × (name.again ≡ again)) }
    ensures only { (name : Name) → HasParts (view table.now) name → name.again ≡ again → result ≡ Some name }
{
    Some(Name {
        from: node_part(table, "from")?,
        to: node_part(table, "to")?,
        kind: kind_part(table)?,
        ballot: number_part(table, "ballot")?,
        place: number_part(table, "place")?,
        again,
    })
}

fn fields_of(table: &Value) -> Option<Name>
    ensures found { IfSome result (HasFields (view table.now)) }
    ensures only { (name : Name) → HasFields (view table.now) name → result ≡ Some name }
{
    let again = again_of(table)?;
    parts_of(table, again)
}

/// Whether a name says something of a letter.
fn says_any(name: &Name) -> bool
    ensures { result ≡ says_any name.now }
{
    name.from.is_some()
        || name.to.is_some()
        || name.kind.is_some()
        || name.ballot.is_some()
        || name.place.is_some()
}

/// The letters that a table excepts.
pub(crate) fn except_of(table: &Value) -> Option<Name>
    ensures found { IfSome result (IsExcept (view table.now)) }
    ensures only { (name : Name) → IsExcept (view table.now) name → result ≡ Some name }
{
    let name = parts_of(table, false)?;
    if says_any(&name) { Some(name) } else { None }
}

/// Whether a name says more than a ballot or a place.
fn names_letter(name: &Name) -> bool
    ensures { result ≡ says_whose name.now }
{
    name.from.is_some() || name.to.is_some() || name.kind.is_some()
}

/// The letter that a table names.
fn name_of(table: &Value) -> Option<Name>
    ensures found { IfSome result (HasName (view table.now)) }
    ensures only { (name : Name) → HasName (view table.now) name → result ≡ Some name }
{
    let name = fields_of(table)?;
    if names_letter(&name) {
        Some(name)
    } else {
        None
    }
}

/// The delivery of a table of this kind without a letter's number.
fn delivery_of(table: &Value) -> Option<Step>
    requires kind { HasText (view table.now) (codes "kind") (codes "deliver") }
    requires unnumbered { get (codes "letter") (view table.now) ≡ None }
    ensures found { IfSome result (MeansStep (view table.now)) }
    ensures only { (step : Step) → MeansStep (view table.now) step → result ≡ Some step }
{
    Some(Step::Deliver(name_of(table)?))
}

/// Likewise, where the node crashes.
fn last_delivery_of(table: &Value) -> Option<Step>
    requires kind { HasText (view table.now) (codes "kind") (codes "deliver_then_crash") }
    requires unnumbered { get (codes "letter") (view table.now) ≡ None }
    ensures found { IfSome result (MeansStep (view table.now)) }
    ensures only { (step : Step) → MeansStep (view table.now) step → result ≡ Some step }
{
    Some(Step::DeliverThenCrash(name_of(table)?))
}

/// The event of a table that names no letter.
fn plain_step_of(alloc: Global, table: &Value) -> Result<Option<Step>, AllocError>
    requires { NamesNone (view table.now) }
    ensures found { IfOk result (λ found. IfSome found (MeansStep (view table.now))) }
    ensures only { IfOk result (λ found. (step : Step) → MeansStep (view table.now) step → found ≡ Some step) }
{
    match event_of(alloc, table)? {
        Some(event) => Ok(Some(Step::Plain(event))),
        None => Ok(None),
    }
}

/// The step of a table without a letter's number.
fn unnumbered_step_of(alloc: Global, table: &Value) -> Result<Option<Step>, AllocError>
    requires { get (codes "letter") (view table.now) ≡ None }
    ensures found { IfOk result (λ found. IfSome found (MeansStep (view table.now))) }
    ensures only { IfOk result (λ found. (step : Step) → MeansStep (view table.now) step → found ≡ Some step) }
{
    let Some(kind) = table.get("kind") else {
        return Ok(None);
    };
    match kind.as_str() {
        Some("deliver") => Ok(delivery_of(table)),
        Some("deliver_then_crash") => Ok(last_delivery_of(table)),
        _ => plain_step_of(alloc, table),
    }
}

/// The step that a table means. None where a key is missing, holds something else than its field asks for, or doesn't
/// fit it. Further keys are ignored.
pub fn step_of(alloc: Global, table: &Value) -> Result<Option<Step>, AllocError>
    ensures found { IfOk result (λ found. IfSome found (MeansStep (view table.now))) }
    ensures only { IfOk result (λ found. (step : Step) → MeansStep (view table.now) step → found ≡ Some step) }
{
    match table.get("letter") {
        Some(_) => plain_step_of(alloc, table),
        None => unnumbered_step_of(alloc, table),
    }
}
