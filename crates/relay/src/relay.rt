//! A relay and its mark.

ghost use Rattle.std.specs.Prelude.{◌≡◌, ◌≢◌, ◌↔◌, ◌≤◌, ◌+◌, ◌⊎◌, Err, OnOk, OnErr, IfErr, IsTrue, false};
ghost use Rattle.sqlite.specs.Held.{state};
ghost use Rattle.relay.specs.Route.{AreIn, AreFromEither};
ghost use Rattle.relay.specs.Relay.{IsLast};
ghost use Rattle.relay.specs.Call.{MakesJob, ReadsService, Steps};
ghost use Rattle.relay.specs.declared.fault.RelayFault.TheVariants.{RouteFailed, Stranger};

use crate::fault::{RelayFault, fault_of};
use crate::route::Route;
use attributes::Batch;
use outbox::Service;
use paging::MAX_PAGE;
use sqlite::Alter;
use std::marker::Model;

/// Sends the rows of a service to a route. The mark is the number of the last row that the route
/// has accepted; the rows after it are still to be sent.
#[derive(Clone, Copy, Debug, PartialEq, Eq)]
pub struct Relay {
    site: u32,
    mark: u64,
}

impl Model for Relay {
    ghost use Rattle.relay.specs.Relay.{RelayMark, mark_code};

    ghost Value = { RelayMark };

    ghost coded = { mark_code };

    ghost view = { λ r. record { site = r.site; mark = r.mark } };

    ghost inverse = { λ m. record { site = m.site; mark = m.mark } };
}

/// Rows to be carried to the route of a site: those after `first - 1`, the last of which is `last`.
#[derive(Drop)]
pub struct Job {
    pub site: u32,
    pub first: u64,
    pub last: u64,
    pub rows: Batch,
}

/// What became of a job: whether its rows were accepted.
#[derive(Clone, Copy, Debug, PartialEq, Eq, Drop)]
pub struct Outcome {
    pub site: u32,
    pub first: u64,
    pub last: u64,
    pub sent: bool,
}

/// The number of the last of a relay's rows, or the mark where there is none.
fn last_number(mark: u64, rows: &Batch) -> u64
    ensures { IsLast mark rows.now result }
{
    let count = rows.len();
    if count == 0 {
        return mark;
    }
    rows.at(count - 1).number().number()
}

/// Carries a relay's job to a route. Needs no database, so that a worker can do it.
pub fn carry<R: Route>(job: Job, route: &mut R) -> Outcome
    ensures job { (result.site ≡ job.site) × (result.first ≡ job.first)
        × (result.last ≡ job.last) }
    ensures sent { IsTrue result.sent → AreIn job.rows (R.accepted route.new) }
    ensures took { IsTrue result.sent → R.takes route.old job.rows route.new }
    ensures failed { result.sent ≡ false → R.has_failed route.old route.new }
    ensures kept { AreIn (R.accepted route.old) (R.accepted route.new) }
    ensures new { AreFromEither (R.accepted route.new) (R.accepted route.old) job.rows }
{
    let sent = match route.send(&job.rows) {
        Ok(()) => true,
        Err(_) => false,
    };
    Outcome {
        site: job.site,
        first: job.first,
        last: job.last,
        sent,
    }
}

impl Relay {
    /// A relay to this site whose route has accepted all rows up to the mark.
    pub fn at(site: u32, mark: u64) -> Relay
        ensures { result ≡ record { site = site; mark = mark } }
    {
        Relay { site, mark }
    }

    /// The number of the relay's site.
    pub fn site(&self) -> u32
        ensures { result ≡ self.now.site }
    {
        self.site
    }

    /// The relay's mark: the number of the last row that its route accepted.
    pub fn mark(&self) -> u64
        ensures { result ≡ self.now.mark }
    {
        self.mark
    }

    /// Sends the route the next rows, at most 100, and raises the relay's mark to the last; answers
    /// how many. Without rows nothing is sent. The fault is `RouteFailed`, `Store` or want of
    /// memory, and the mark is then as it was, so that the rows are sent again.
    pub fn step<S: Alter, R: Route>(
        &mut self,
        service: &mut Service<S>,
        route: &mut R,
    ) -> Result<u64, RelayFault>
        ensures reads { ReadsService (λ conn. state S.Store conn) service.old service.new result }
        ensures steps { Steps (λ conn. state S.Store conn) R.accepted R.takes R.has_failed
            service.old service.new self.old self.new route.old route.new result }
    {
        let rows = match service.rows_after(self.mark, MAX_PAGE) {
            Ok(rows) => rows,
            Err(fault) => return Err(fault_of(fault)),
        };
        if rows.is_empty() {
            return Ok(0);
        }
        match route.send(&rows) {
            Ok(()) => {}
            Err(_) => return Err(RelayFault::RouteFailed),
        }
        self.mark = last_number(self.mark, &rows);
        Ok(rows.len())
    }

    /// The relay's next rows, at most 100, as a job that a worker can carry; none without rows. The
    /// fault is `Store` or want of memory. The mark rises when the outcome is settled.
    pub fn job<S: Alter>(&self, service: &mut Service<S>) -> Result<Option<Job>, RelayFault>
        ensures reads { ReadsService (λ conn. state S.Store conn) service.old service.new result }
        ensures job { MakesJob (λ conn. state S.Store conn) service.old service.new self.now
            result }
    {
        let rows = match service.rows_after(self.mark, MAX_PAGE) {
            Ok(rows) => rows,
            Err(fault) => return Err(fault_of(fault)),
        };
        if rows.is_empty() {
            return Ok(None);
        }
        let last = last_number(self.mark, &rows);
        match self.mark.checked_add(1) {
            Some(first) => Ok(Some(Job {
                site: self.site,
                first,
                last,
                rows,
            })),
            None => Err(RelayFault::Store),
        }
    }

    /// Raises the relay's mark to the last row of an outcome of this site, of the next rows, that
    /// was sent. The fault is `Stranger` where site or rows are others, else `RouteFailed` where it
    /// wasn't sent.
    pub fn settle(&mut self, outcome: Outcome) -> Result<(), RelayFault>
        requires { outcome.first ≤ outcome.last }
        ensures settled { OnOk result ((outcome.site ≡ self.old.site)
            × (outcome.first ≡ self.old.mark + 1) × IsTrue outcome.sent
            × (self.new ≡ record self.old { mark = outcome.last })) }
        ensures refused { OnErr result (self.new ≡ self.old) }
        ensures stranger { (result ≡ Err Stranger)
            ↔ ((outcome.site ≢ self.old.site) ⊎ (outcome.first ≢ self.old.mark + 1)) }
        ensures failed { IfErr result (λ f.
            f ≢ Stranger → (f ≡ RouteFailed) × (outcome.sent ≡ false)) }
    {
        if outcome.site != self.site || outcome.first == 0 || outcome.first - 1 != self.mark {
            return Err(RelayFault::Stranger);
        }
        if !outcome.sent {
            return Err(RelayFault::RouteFailed);
        }
        self.mark = outcome.last;
        Ok(())
    }
}
