//! What has happened to the flow of a SID.

ghost use Rattle.std.specs.Prelude.{◌≡◌, ◌+◌, IfOk};
ghost use Rattle.plan_account.specs.Accounts.{told_why, why_last};
ghost use Rattle.plan_account.specs.Pasts.{fate_on, is_term, lease_row, request_row, since_of, until};

use crate::happening::Happening;
use crate::reach::{Ask, Lease, Reach, Term};
use crate::why::{Why, why_in};
use crate::windows::{count_missed, count_past, windows_of};
use std::alloc::{AllocError, Global};
use std::marker::Model;

/// That a request waits: the MAP that begins here tells so.
#[derive(Clone, Copy)]
pub struct Told {
    pub start: u64,
    pub why: Why,
}

/// What became of a request.
#[derive(Clone, Copy)]
pub enum Fate {
    /// It waits where the plan ends.
    Waits(Why),
    /// Its flow was dropped, or its lease ended.
    Gone,
    /// Granted in this MAP of its channel, counted from 1, from this minislot on.
    Granted { map: u64, start: u64 },
}

/// A request for n minislots that was accepted, of the command of this number. The key is channel * 2^16 + SID.
#[derive(Clone, Copy)]
pub struct RequestRow {
    pub key: u32,
    /// The lease under which it was accepted: 0 for the SID's first one, else that one's first minislot.
    pub since: u64,
    pub command: u64,
    pub n: u16,
    pub sent: u64,
    /// The last MAP that had it wait.
    pub told: Option<Told>,
    pub fate: Fate,
}

/// A lease of a SID, until its flow ended. The key is channel * 2^16 + SID.
#[derive(Clone, Copy)]
pub struct LeaseRow {
    pub key: u32,
    /// 0 of the SID's first lease, else its first minislot.
    pub since: u64,
    pub lease: Lease,
    /// Where its flow ended: with a drop, with the lease, or with the channel's last MAP.
    pub until: u64,
    /// How many windows ended before.
    pub windows: u64,
    /// In how many of these no grant began.
    pub missed: u64,
}

/// Why a request waits where the plan ends; of one that waits no more, why the last MAP had it wait that did.
pub fn why_last(row: &RequestRow) -> Option<Why>
    ensures { result ≡ why_last row.now.told row.now.fate }
{
    let RequestRow { told, fate, .. } = *row;
    match fate {
        Fate::Waits(why) => Some(why),
        Fate::Gone => told_why(told),
        Fate::Granted { .. } => told_why(told),
    }
}

fn told_why(told: Option<Told>) -> Option<Why>
    ensures { result ≡ told_why told }
{
    match told {
        Some(told) => Some(told.why),
        None => None,
    }
}

/// What has happened to the flow of a SID.
#[derive(Drop)]
pub struct FlowPast {
    key: u32,
    term: Option<Term>,
    since: u64,
    lease: Option<Lease>,
    ask: Option<Ask>,
    told: Option<Told>,
    starts: Vec<u64>,
    requests: Vec<RequestRow>,
    leases: Vec<LeaseRow>,
}

impl Model for FlowPast {
    ghost use Rattle.plan_account.specs.Pasts.{Past};

    ghost Value = { Past };

    ghost view = { λ p. record {
      key = p.key;
      term = p.term;
      since = p.since;
      lease = p.lease;
      ask = p.ask;
      told = p.told;
      starts = p.starts.items;
      requests = p.requests.items;
      leases = p.leases.items;
    } };
}

/// The number behind a count, unless that is 2^64 - 1.
pub(crate) fn next(count: u64) -> Result<u64, AllocError>
    ensures { IfOk result (λ number. number ≡ count + 1) }
{
    count.checked_add(1).ok_or(AllocError)
}

fn request_row(key: u32, since: u64, ask: Ask, told: Option<Told>, fate: Fate) -> RequestRow
    ensures { result ≡ request_row key since ask told fate }
{
    let Ask {
        command,
        n,
        sent,
        ..
    } = ask;
    RequestRow {
        key,
        since,
        command,
        n,
        sent,
        told,
        fate,
    }
}

/// Until when a flow goes, where the channel's MAPs end here.
fn until(lease: Lease, end: u64) -> u64
    ensures { result ≡ until lease end }
{
    end.min(lease.term.last.saturating_add(1))
}

fn lease_row(key: u32, since: u64, lease: Lease, until: u64, starts: &[u64]) -> LeaseRow
    ensures { result ≡ lease_row key since lease until starts.now }
{
    let windows = windows_of(lease.kind);
    LeaseRow {
        key,
        since,
        lease,
        until,
        windows: count_past(windows, until),
        missed: count_missed(windows, until, starts),
    }
}

impl FlowPast {
    ghost use Rattle.std.specs.Prelude.{◌≡◌, ◌++◌, IfOk, OnOk};
    ghost use Rattle.plan_account.specs.Pasts.{no_past, answered, closed, settled, with_lease, with_ask, started};
    ghost use Rattle.plan_account.specs.Pasts.{with_given, waits_on, past_step, requests_at, leases_at};

    /// Nothing has happened.
    pub(crate) fn new(alloc: Global, key: u32) -> FlowPast
        ensures { result ≡ no_past key }
    {
        FlowPast {
            key,
            term: None,
            since: 0,
            lease: None,
            ask: None,
            told: None,
            starts: Vec::new(alloc),
            requests: Vec::new(alloc),
            leases: Vec::new(alloc),
        }
    }

    /// Its lease: 0 of the SID's first one, else that one's first minislot.
    pub(crate) fn since(&self) -> u64
        ensures { result ≡ self.now.since }
    {
        self.since
    }

    /// The request that waits has this fate.
    fn answer(&mut self, fate: Fate) -> Result<(), AllocError>
        ensures { OnOk result (self.new ≡ answered self.old fate) }
    {
        if let Some(ask) = self.ask {
            let row = request_row(self.key, self.since, ask, self.told, fate);
            self.requests.push(row)?;
            self.ask = None;
            self.told = None;
        }
        Ok(())
    }

    /// The flow is over where the channel's MAPs end here.
    fn close(&mut self, end: u64) -> Result<(), AllocError>
        ensures { OnOk result (self.new ≡ closed self.old end) }
    {
        if let Some(lease) = self.lease {
            let until = until(lease, end);
            let row = lease_row(self.key, self.since, lease, until, &self.starts);
            self.leases.push(row)?;
            self.lease = None;
            self.starts.clear();
        }
        Ok(())
    }

    /// The same, with its request.
    fn settle(&mut self, end: u64) -> Result<(), AllocError>
        ensures { OnOk result (self.new ≡ settled self.old end) }
    {
        self.answer(Fate::Gone)?;
        self.close(end)
    }

    fn lease(&mut self, end: u64, lease: Lease) -> Result<(), AllocError>
        ensures { OnOk result (self.new ≡ with_lease self.old end lease) }
    {
        if is_term(self.term, lease.term) {
            return Ok(());
        }
        self.settle(end)?;
        self.since = since_of(self.term, lease.term);
        self.term = Some(lease.term);
        self.lease = Some(lease);
        Ok(())
    }

    fn ask(&mut self, ask: Ask) -> Result<(), AllocError>
        ensures { OnOk result (self.new ≡ with_ask self.old ask) }
    {
        self.answer(Fate::Gone)?;
        self.ask = Some(ask);
        Ok(())
    }

    fn start(&mut self, at: u64) -> Result<(), AllocError>
        ensures { OnOk result (self.new ≡ started self.old.lease self.old at) }
    {
        if self.lease.is_some() {
            self.starts.push(at)?;
        }
        Ok(())
    }

    fn give(&mut self, map: u64, at: u64, answers: bool) -> Result<(), AllocError>
        ensures { OnOk result (self.new ≡ with_given self.old map at answers) }
    {
        if answers && self.ask.is_some() {
            self.answer(Fate::Granted { map, start: at })
        } else {
            self.start(at)
        }
    }

    /// A MAP has the request wait that waits.
    fn wait(&mut self, reach: Reach)
        ensures { self.new ≡ waits_on self.old.term self.old.ask self.old reach }
    {
        let (Some(term), Some(ask)) = (self.term, self.ask) else {
            return;
        };
        self.told = Some(Told {
            start: reach.start,
            why: why_in(reach, term.last, ask.n, ask.maps),
        });
    }

    /// One happening more, behind the MAPs of the channel.
    pub(crate) fn step(&mut self, reach: Reach, happening: Happening) -> Result<(), AllocError>
        ensures { OnOk result (self.new ≡ past_step reach self.old happening) }
    {
        match happening {
            Happening::Leased {
                command,
                modem,
                first,
                last,
                kind,
            } => {
                let term = Term { first, last };
                let lease = Lease {
                    command,
                    modem,
                    term,
                    kind,
                };
                self.lease(reach.end, lease)
            }
            Happening::Asked { command, n, sent } => self.ask(Ask {
                command,
                n,
                sent,
                maps: reach.maps,
            }),
            Happening::Dropped => self.settle(reach.end),
            Happening::Given { at, answers } => self.give(next(reach.maps)?, at, answers),
            Happening::Waits => {
                self.wait(reach);
                Ok(())
            }
            Happening::Mapped { .. } => Ok(()),
        }
    }

    /// Appends the rows of its requests, where the channel's MAPs are these.
    pub(crate) fn put_requests(
        &self,
        out: &mut Vec<RequestRow>,
        reach: Reach,
    ) -> Result<(), AllocError>
        ensures { OnOk result (out.new.items ≡ out.old.items ++ requests_at reach self.now) }
    {
        out.extend_from_slice(&self.requests)?;
        if let Some(ask) = self.ask {
            let fate = fate_on(self.term, self.ask, reach);
            out.push(request_row(self.key, self.since, ask, self.told, fate))?;
        }
        Ok(())
    }

    /// Appends the rows of its leases, likewise.
    pub(crate) fn put_leases(&self, out: &mut Vec<LeaseRow>, reach: Reach) -> Result<(), AllocError>
        ensures { OnOk result (out.new.items ≡ out.old.items ++ leases_at reach self.now) }
    {
        out.extend_from_slice(&self.leases)?;
        if let Some(lease) = self.lease {
            let until = until(lease, reach.end);
            out.push(lease_row(self.key, self.since, lease, until, &self.starts))?;
        }
        Ok(())
    }
}

/// What becomes of a request where the channel's MAPs are these and no more come.
fn fate_on(term: Option<Term>, ask: Option<Ask>, reach: Reach) -> Fate
    ensures { result ≡ fate_on term ask reach }
{
    let (Some(term), Some(ask)) = (term, ask) else {
        return Fate::Gone;
    };
    if reach.end <= term.last {
        Fate::Waits(why_in(reach, term.last, ask.n, ask.maps))
    } else {
        Fate::Gone
    }
}

/// What a lease behind this one, if there is one, is known by.
fn since_of(before: Option<Term>, term: Term) -> u64
    ensures { result ≡ since_of before term }
{
    match before {
        Some(_) => term.first,
        None => 0,
    }
}

fn is_term(term: Option<Term>, other: Term) -> bool
    ensures { result ≡ is_term term other }
{
    match term {
        Some(term) => term.first == other.first && term.last == other.last,
        None => false,
    }
}
