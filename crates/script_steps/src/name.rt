//! The name of a letter: what is known of it.

ghost use Rattle.std.specs.Prelude.{◌≡◌, ◌++◌, ◌∷◌, [], true, OnOk, OnErr};
ghost use Rattle.script_steps.specs.Names.{about_of, ballot_of, fits, fits_kind, fits_part, has_parts, is_same_kind};
ghost use Rattle.script_steps.specs.Names.{kind_of, parts_of, place_of};

use ballots::{Letter, NodeId, Note};
use std::alloc::{AllocError, Global};
use std::marker::Model;

/// What a letter may say, without what it says it of.
#[derive(Clone, Copy, Debug, PartialEq, Eq, Drop)]
pub enum Kind {
    Prepare,
    Promise,
    Accept,
    Voted,
    Higher,
    Known,
}

/// What letters are asked for. What isn't given fits each letter.
#[derive(Clone, Copy, Debug, PartialEq, Eq, Drop)]
pub struct Name {
    pub from: Option<NodeId>,
    pub to: Option<NodeId>,
    pub kind: Option<Kind>,
    /// The number of a ballot. A letter without a ballot doesn't fit it.
    pub ballot: Option<u64>,
    /// A place. A letter without a place doesn't fit it.
    pub place: Option<u64>,
    /// Whether it is a letter that came before.
    pub again: bool,
}

/// From whom, to whom, and of what kind a letter is.
#[derive(Clone, Copy, Debug, PartialEq, Eq, Drop)]
pub struct About {
    pub from: NodeId,
    pub to: NodeId,
    pub kind: Kind,
}

/// What a name says of that.
#[derive(Clone, Copy, Drop)]
pub(crate) struct Parts {
    pub from: Option<NodeId>,
    pub to: Option<NodeId>,
    pub kind: Option<Kind>,
}

fn is_node(node: Option<NodeId>, has: NodeId) -> bool
    ensures { result ≡ fits_part node (Some has) }
{
    match node {
        Some(node) => node.number() == has.number(),
        None => true,
    }
}

fn is_number(number: Option<u64>, has: Option<u64>) -> bool
    ensures { result ≡ fits_part number has }
{
    match (number, has) {
        (None, _) => true,
        (Some(_), None) => false,
        (Some(number), Some(has)) => number == has,
    }
}

fn is_same_kind(kind: Kind, other: Kind) -> bool
    ensures { result ≡ is_same_kind kind other }
{
    match (kind, other) {
        (Kind::Prepare, Kind::Prepare) => true,
        (Kind::Promise, Kind::Promise) => true,
        (Kind::Accept, Kind::Accept) => true,
        (Kind::Voted, Kind::Voted) => true,
        (Kind::Higher, Kind::Higher) => true,
        (Kind::Known, Kind::Known) => true,
        _ => false,
    }
}

fn fits_kind(kind: Option<Kind>, has: Kind) -> bool
    ensures { result ≡ fits_kind kind has }
{
    match kind {
        Some(kind) => is_same_kind(kind, has),
        None => true,
    }
}

fn kind_of(note: &Note) -> Kind
    ensures { result ≡ kind_of note.now }
{
    match note {
        Note::Prepare { .. } => Kind::Prepare,
        Note::Promise { .. } => Kind::Promise,
        Note::Accept { .. } => Kind::Accept,
        Note::Voted { .. } => Kind::Voted,
        Note::Higher { .. } => Kind::Higher,
        Note::Known { .. } => Kind::Known,
    }
}

pub(crate) fn about_of(letter: &Letter) -> About
    ensures { result ≡ about_of letter.now }
{
    About {
        from: letter.from,
        to: letter.to,
        kind: kind_of(&letter.note),
    }
}

fn ballot_of(note: &Note) -> Option<u64>
    ensures { result ≡ ballot_of note.now }
{
    match note {
        Note::Prepare { ballot, .. } => Some(ballot.number()),
        Note::Promise { ballot, .. } => Some(ballot.number()),
        Note::Accept { ballot, .. } => Some(ballot.number()),
        Note::Voted { ballot, .. } => Some(ballot.number()),
        Note::Higher { ballot } => Some(ballot.number()),
        Note::Known { .. } => None,
    }
}

fn place_of(note: &Note) -> Option<u64>
    ensures { result ≡ place_of note.now }
{
    match note {
        Note::Prepare { place, .. } => Some(*place),
        Note::Promise { place, .. } => Some(*place),
        Note::Accept { place, .. } => Some(*place),
        Note::Voted { place, .. } => Some(*place),
        Note::Higher { .. } => None,
        Note::Known { place, .. } => Some(*place),
    }
}

fn is_same_node(node: Option<NodeId>, other: Option<NodeId>) -> bool
    ensures { result ≡ true → node ≡ other }
{
    match (node, other) {
        (Some(node), Some(other)) => node.number() == other.number(),
        (None, None) => true,
        _ => false,
    }
}

fn are_same_kinds(kind: Option<Kind>, other: Option<Kind>) -> bool
    ensures { result ≡ true → kind ≡ other }
{
    match (kind, other) {
        (Some(kind), Some(other)) => is_same_kind(kind, other),
        (None, None) => true,
        _ => false,
    }
}

impl Parts {
    /// Whether a letter has them.
    pub(crate) fn has(&self, about: &About) -> bool
        ensures { result ≡ has_parts self.now about.now }
    {
        is_node(self.from, about.from)
            && is_node(self.to, about.to)
            && fits_kind(self.kind, about.kind)
    }

    /// Whether they are these.
    pub(crate) fn are(&self, other: &Parts) -> bool
        ensures { result ≡ true → self.now ≡ other.now }
    {
        is_same_node(self.from, other.from)
            && is_same_node(self.to, other.to)
            && are_same_kinds(self.kind, other.kind)
    }
}

impl Name {
    pub(crate) fn parts(&self) -> Parts
        ensures { result ≡ parts_of self.now }
    {
        Parts {
            from: self.from,
            to: self.to,
            kind: self.kind,
        }
    }

    /// Whether a letter has all that is named.
    pub fn fits(&self, letter: &Letter) -> bool
        ensures { result ≡ fits self.now letter.now }
    {
        self.parts().has(&about_of(letter))
            && is_number(self.ballot, ballot_of(&letter.note))
            && is_number(self.place, place_of(&letter.note))
    }
}

/// Letters that come, a round at a time: each round those that were there as it began, and haven't come.
#[derive(Drop)]
pub struct DeliverAll {
    /// Letters that have all that one of these names stay.
    except: Vec<Name>,
    rounds: usize,
}

impl Model for DeliverAll {
    ghost use Rattle.script_steps.specs.Sweep.{Sweep};

    ghost Value = { Sweep };

    ghost view = { λ all. record { except = all.except.items; rounds = all.rounds } };
}

impl DeliverAll {
    /// So many rounds, in which no letter stays.
    pub fn new(alloc: Global, rounds: usize) -> DeliverAll
        ensures { result ≡ record { except = []; rounds = rounds } }
    {
        DeliverAll {
            except: Vec::new(alloc),
            rounds,
        }
    }

    /// Letters that have all that this names stay, too.
    pub fn leave(&mut self, name: &Name) -> Result<(), AllocError>
        ensures ok { OnOk result (self.new ≡ record { except = self.old.except ++ name.now ∷ []; rounds = self.old.rounds }) }
        ensures err { OnErr result (self.new ≡ self.old) }
    {
        let from: Option<NodeId> = name.from;
        let kind: Option<Kind> = name.kind;
        let name = Name {
            from,
            kind,
            ..*name
        };
        self.except.push(name)?;
        Ok(())
    }

    /// The letters that stay.
    pub fn except(&self) -> &[Name]
        ensures { result.now ≡ self.now.except }
    {
        self.except.as_slice()
    }

    /// How many rounds there are.
    pub fn rounds(&self) -> usize
        ensures { result ≡ self.now.rounds }
    {
        self.rounds
    }
}
