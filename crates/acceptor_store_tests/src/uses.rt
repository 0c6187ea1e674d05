//! Records that are opened, used and closed. Few functions know what they stand in: the proof of
//! one that does is dear.

ghost use Rattle.std.specs.Prelude.{IsTrue};
ghost use Rattle.acceptor.specs.Content.{Content};
ghost use Rattle.acceptor.specs.Found.{Holds};

use crate::files::{Bodies, Fused, Stopped, connected, found, left_behind, run, stopping};
use acceptor::Records;
use acceptor_store::{OpenFault, OwnerFault, SqlRecords};
use ballots::{Ballot, Bytes, Members, NodeId, Place, Value, Votes};
use sqlite::{Connection, Files};
use sqlite_disk::Disk;
use std::alloc::Global;
use std::test::Fail;
use store_anew::OpensAnew;

/// What is done with records, whatever they stand in.
pub trait RecordsUse: Drop {
    /// What comes of it.
    type Answer: Drop;

    /// Uses the records.
    fn use_records<R: Records>(self, alloc: Global, records: &mut R) -> Result<Self::Answer, Fail>;
}

/// How the records of node 1 of three are opened.
#[derive(Clone, Copy, PartialEq, Eq)]
pub enum Way {
    /// By `open`.
    Plain,
    /// By `open_as`, where the database may be new.
    New,
    /// By `open_as`, where it may not.
    Old,
    /// By `adopt`.
    Adopt,
}

/// Why records aren't opened over a connection, as tables tell it. Another owner is told in a table of its own.
#[derive(Clone, Copy, Debug, PartialEq, Eq)]
pub enum Refusal {
    Open(OpenFault),
    Blank,
    Unowned,
    Other,
}

pub fn refusal_of(fault: OwnerFault) -> Refusal {
    match fault {
        OwnerFault::Open(fault) => Refusal::Open(fault),
        OwnerFault::Blank => Refusal::Blank,
        OwnerFault::Unowned => Refusal::Unowned,
        OwnerFault::OtherNode(_) | OwnerFault::OtherMembers(_) => Refusal::Other,
    }
}

/// Why records aren't open.
#[derive(Clone, Copy)]
pub enum Unopened {
    /// There is no connection to their files.
    Unlinked,
    /// They don't open over the connection.
    Fault(OwnerFault),
}

/// What comes of records that are used, and what they stood in.
pub type Used<A, S> = (Result<A, Unopened>, S);

fn opened<S: OpensAnew>(
    alloc: Global,
    conn: Connection<S>,
    way: Way,
    node: NodeId,
) -> Result<SqlRecords<S>, (OwnerFault, S)> {
    match way {
        Way::Plain => match SqlRecords::open(alloc, conn) {
            Ok(records) => Ok(records),
            Err((fault, store)) => Err((OwnerFault::Open(fault), store)),
        },
        Way::Adopt => SqlRecords::adopt(alloc, conn, node, Members::Three),
        _ => SqlRecords::open_as(alloc, conn, node, Members::Three, way == Way::New),
    }
}

/// Uses the records, and closes them.
fn used<S: OpensAnew, U: RecordsUse>(
    alloc: Global,
    mut records: SqlRecords<S>,
    user: U,
) -> Result<Used<U::Answer, S>, Fail> {
    let answer = user.use_records(alloc, &mut records);
    let store = records.into_store();
    let answer = answer?;
    match store {
        Some(store) => Ok((Ok(answer), store)),
        None => Err(Fail::new("no store")),
    }
}

/// Opens records over the connection, uses them, and closes them.
pub fn used_over<S: OpensAnew, U: RecordsUse>(
    alloc: Global,
    conn: Connection<S>,
    way: Way,
    user: U,
) -> Result<Used<U::Answer, S>, Fail> {
    let node = NodeId::new(1).ok_or("a node")?;
    match opened(alloc, conn, way, node) {
        Ok(records) => used(alloc, records, user),
        Err((fault, store)) => Ok((Err(Unopened::Fault(fault)), store)),
    }
}

/// What is done with a connection, whatever its store is.
pub trait StoreUse: Drop {
    /// What comes of it.
    type Answer: Drop;

    /// Uses the connection, and gives its store back.
    fn use_store<S: OpensAnew>(
        self,
        alloc: Global,
        conn: Connection<S>,
    ) -> Result<(Self::Answer, S), Fail>;
}

/// Uses a connection to the files, where there is one. The files come back. All that is done with a
/// connection goes through here: the proof of this call is dear.
pub fn used_files<D: Disk + Drop, U: StoreUse>(
    alloc: Global,
    files: Files<D>,
    user: U,
) -> Result<(Option<U::Answer>, Files<D>), Fail> {
    match connected(alloc, files) {
        Ok(conn) => {
            let (answer, store) = user.use_store(alloc, conn)?;
            Ok((Some(answer), store.close()))
        }
        Err(files) => Ok((None, files)),
    }
}

/// Runs these texts over a connection, opens records over it, uses them, and closes them.
#[derive(Drop)]
struct OpensAfter<'a, U: RecordsUse> {
    texts: &'a [&'a str],
    way: Way,
    user: U,
}

impl<'a, U: RecordsUse> StoreUse for OpensAfter<'a, U> {
    type Answer = Result<U::Answer, Unopened>;

    fn use_store<S: OpensAnew>(
        self,
        alloc: Global,
        mut conn: Connection<S>,
    ) -> Result<Used<U::Answer, S>, Fail> {
        run(&mut conn, self.texts)?;
        used_over(alloc, conn, self.way, self.user)
    }
}

/// Runs these texts in the files, opens records in them, uses them, and closes them. The files come
/// back.
fn used_after<D: Disk + Drop, U: RecordsUse>(
    alloc: Global,
    files: Files<D>,
    texts: &[&str],
    way: Way,
    user: U,
) -> Result<Used<U::Answer, Files<D>>, Fail> {
    let (answer, files) = used_files(alloc, files, OpensAfter { texts, way, user })?;
    Ok((answer.unwrap_or(Err(Unopened::Unlinked)), files))
}

/// Runs a text over a connection.
#[derive(Drop)]
struct Runs<'a>(&'a str);

impl<'a> StoreUse for Runs<'a> {
    type Answer = ();

    fn use_store<S: OpensAnew>(
        self,
        _alloc: Global,
        mut conn: Connection<S>,
    ) -> Result<((), S), Fail> {
        run(&mut conn, &[self.0])?;
        Ok(((), conn.into_store()))
    }
}

/// The files after this text.
fn files_after<D: Disk + Drop>(
    alloc: Global,
    files: Files<D>,
    text: &str,
) -> Result<Files<D>, Fail> {
    match used_files(alloc, files, Runs(text))? {
        (Some(()), files) => Ok(files),
        (None, _) => Err(Fail::new("no connection")),
    }
}

/// What files leave after this text.
pub fn bodies_after(alloc: Global, text: &str) -> Result<Bodies, Fail> {
    let files = stopping(alloc, (&[], &[]), Stopped::Log, u64::MAX)?;
    left_behind(alloc, files_after(alloc, files, text)?)
}

/// The files after this text, as they were written.
pub fn found_after(alloc: Global, text: &str) -> Result<Files<Fused>, Fail> {
    let bodies = bodies_after(alloc, text)?;
    Ok(found(alloc, &bodies, (true, true))?)
}

/// Opens records in the files, uses them, and closes them. The files come back.
pub fn used_in<D: Disk + Drop, U: RecordsUse>(
    alloc: Global,
    files: Files<D>,
    way: Way,
    user: U,
) -> Result<Used<U::Answer, Files<D>>, Fail> {
    used_after(alloc, files, &[], way, user)
}

/// That records aren't open which have to be.
pub fn failed(unopened: Unopened) -> Fail {
    match unopened {
        Unopened::Unlinked => Fail::new("no connection"),
        Unopened::Fault(fault) => Fail::new(format_args!("it doesn't open: {fault}")),
    }
}

/// The answer of records that have to open.
pub fn answered<A: Drop>(answer: Result<A, Unopened>) -> Result<A, Fail> {
    match answer {
        Ok(answer) => Ok(answer),
        Err(unopened) => Err(failed(unopened)),
    }
}

/// Uses records in the files, which have to open. The files come back.
pub fn answer_in<D: Disk + Drop, U: RecordsUse>(
    alloc: Global,
    files: Files<D>,
    way: Way,
    user: U,
) -> Result<(U::Answer, Files<D>), Fail> {
    let (answer, files) = used_in(alloc, files, way, user)?;
    Ok((answered(answer)?, files))
}

/// Records that are opened alone.
#[derive(Drop)]
pub struct Opens;

impl RecordsUse for Opens {
    type Answer = ();

    fn use_records<R: Records>(self, _alloc: Global, _records: &mut R) -> Result<(), Fail> {
        Ok(())
    }
}

/// How records open over a database that these texts made.
pub fn fault_after(alloc: Global, texts: &[&str], way: Way) -> Result<Option<OwnerFault>, Fail> {
    let files = stopping(alloc, (&[], &[]), Stopped::Log, u64::MAX)?;
    let (answer, _) = used_after(alloc, files, texts, way, Opens)?;
    match answer {
        Ok(()) => Ok(None),
        Err(Unopened::Fault(fault)) => Ok(Some(fault)),
        Err(unopened) => Err(failed(unopened)),
    }
}

/// What is done with records of one's own, which hold something where they are honest.
pub trait OwnedUse: Drop {
    /// What comes of it.
    type Answer: Drop;

    /// Uses the records up.
    fn use_owned<R: Records + Drop>(self, alloc: Global, records: R) -> Result<Self::Answer, Fail>
        requires certain { IsTrue (R.is_honest records) → ∥ ((c : Content) × Holds (R.may_find records) c) ∥₁ };
}

/// Uses the records up that open over the connection. It knows no store: at a store over files the
/// proof is dear.
fn owned<S: OpensAnew, U: OwnedUse>(
    alloc: Global,
    conn: Connection<S>,
    user: U,
) -> Result<U::Answer, Fail> {
    match SqlRecords::open(alloc, conn) {
        Ok(records) => user.use_owned(alloc, records),
        Err((fault, _store)) => Err(Fail::new(format_args!("it doesn't open: {fault}"))),
    }
}

/// Uses the records up that open in these files.
pub fn owned_in<D: Disk + Drop, U: OwnedUse>(
    alloc: Global,
    files: Files<D>,
    user: U,
) -> Result<U::Answer, Fail> {
    match connected(alloc, files) {
        Ok(conn) => owned(alloc, conn, user),
        Err(_files) => Err(Fail::new("no connection")),
    }
}

/// The value of these bytes.
pub fn value(alloc: Global, bytes: &[u8]) -> Result<Value, Fail> {
    let bytes = Vec::from_slice(alloc, bytes)?;
    Ok(Value::new(Bytes::new(bytes)).ok_or("a value")?)
}

/// The place of this number.
pub fn place(number: u64) -> Result<Place, Fail> {
    Ok(Place::new(number).ok_or("a place")?)
}

/// The ballot of this number.
pub fn ballot(number: u64) -> Result<Ballot, Fail> {
    Ok(Ballot::new(number).ok_or("a ballot")?)
}

/// Writes a vote of a place and a ballot, for a byte.
pub fn put_vote<R: Records>(
    alloc: Global,
    records: &mut R,
    vote: (u64, u64, u8),
) -> Result<(), Fail> {
    let place = place(vote.0)?;
    let ballot = ballot(vote.1)?;
    let value = value(alloc, &[vote.2])?;
    Ok(records.put_vote(place, ballot, &value)?)
}

pub fn number(ballot: Option<Ballot>) -> u64 {
    match ballot {
        Some(ballot) => ballot.number(),
        None => 0,
    }
}

/// Place, ballot and bytes of each vote, behind this text.
fn with_votes(alloc: Global, mut text: String, votes: &Votes) -> Result<String, Fail> {
    for (place, cast) in votes.rows() {
        let vote = format!(in alloc;
            " {place} {} {:?}",
            cast.ballot.number(),
            cast.value.as_slice()
        )?;
        text.push_str(vote.as_str())?;
    }
    Ok(text)
}

/// The ballot tried and the promised one, and place, ballot and bytes of each vote.
pub fn content<R: Records>(alloc: Global, records: &mut R) -> Result<String, Fail> {
    let tried = number(records.tried()?);
    let promised = number(records.promised()?);
    let votes = records.votes_from(place(1)?)?;
    let text = format!(in alloc; "{tried} {promised}")?;
    with_votes(alloc, text, &votes)
}

/// What the records hold, as `content` has it.
#[derive(Drop)]
pub struct ReadsContent;

impl RecordsUse for ReadsContent {
    type Answer = String;

    fn use_records<R: Records>(self, alloc: Global, records: &mut R) -> Result<String, Fail> {
        content(alloc, records)
    }
}
