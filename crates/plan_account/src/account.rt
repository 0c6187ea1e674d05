//! One account of a plan.

ghost use Rattle.plan_account.specs.Accounts.{IsAccount};

use crate::deed::Deed;
use crate::flows::Flows;
use crate::past::{LeaseRow, RequestRow};
use crate::rows::{lease_rows, request_rows};
use std::alloc::{AllocError, Global};
use std::marker::Model;

/// What each command of a plan did, its requests with what became of each, and the leases of SIDs. Requests and leases
/// are in the order of their commands.
#[derive(Drop)]
pub struct Account {
    deeds: Vec<Deed>,
    requests: Vec<RequestRow>,
    leases: Vec<LeaseRow>,
}

impl Model for Account {
    ghost use Rattle.plan_account.specs.Accounts.{Rows};

    ghost Value = { Rows };

    ghost view = { λ a. record { deeds = a.deeds.items; requests = a.requests.items; leases = a.leases.items } };
}

impl Account {
    ghost use Rattle.std.specs.Prelude.{◌≡◌, IfOk, List};
    ghost use Rattle.grant_machine.specs.declared.command.Command.{Command};
    ghost use Rattle.grant_machine.specs.declared.output.Output.{Output};
    ghost use Rattle.plan_account.specs.Deeds.{AreDeeds};
    ghost use Rattle.plan_account.specs.FlowsHeld.{HoldsFlows};

    /// That of deeds, of which the tables hold what they tell.
    pub fn new(alloc: Global, deeds: Vec<Deed>, flows: &Flows) -> Result<Account, AllocError>
        requires { HoldsFlows deeds.items flows.now }
        ensures same { IfOk result (λ account. account.deeds ≡ deeds.items) }
        ensures is { IfOk result (λ account. (cs : List Command) (os : List Output) → AreDeeds cs os deeds.items → IsAccount cs os account) }
    {
        let requests = request_rows(alloc, flows)?;
        let leases = lease_rows(alloc, flows)?;
        Ok(Account {
            deeds,
            requests,
            leases,
        })
    }

    /// What each command did.
    pub fn deeds(&self) -> &[Deed]
        ensures { result.now ≡ self.now.deeds }
    {
        self.deeds.as_slice()
    }

    /// The requests that were accepted.
    pub fn requests(&self) -> &[RequestRow]
        ensures { result.now ≡ self.now.requests }
    {
        self.requests.as_slice()
    }

    /// The leases of SIDs.
    pub fn leases(&self) -> &[LeaseRow]
        ensures { result.now ≡ self.now.leases }
    {
        self.leases.as_slice()
    }
}
