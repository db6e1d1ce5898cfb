//! Questions asked in a turn.

ghost use Rattle.std.specs.Prelude.{◌≡◌, ◌≢◌, ◌≤◌, [], OnErr};
ghost use Rattle.coverage.specs.Summary.{version_of};
ghost use Rattle.inbox.specs.Sets.{set_of};
ghost use Rattle.site.specs.Delta.{delta};
ghost use Rattle.site.specs.Desk.{answered, paged, summed};
ghost use Rattle.site.specs.Machine.{HasRightReply, call};
ghost use Rattle.site.specs.Page.{max_page, page};
ghost use Rattle.site.specs.declared.call.Command.TheVariants as command;
ghost use Rattle.site_lock.specs.Pass.{Made, leaves};
ghost use Rattle.views.specs.Question.{MayWantMemory};

use super::SharedSite;
use crate::held::Held;
use crate::pass::Pass;
use attributes::Batch;
use coverage::Summary;
use site::{DeskFault, Site};
use std::marker::Brand;
use std::sync::Wait;
use views::{Answer, Query};

/// The answer to a question in a turn with the shared site, as a desk answers.
fn answer(site: &Site, query: Query) -> Result<Answer, DeskFault>
    ensures answers { HasRightReply site.now (call (command.Query query) (answered result)) }
    ensures err { OnErr result (set_of site.now ≢ []) }
    ensures rows { OnErr result (MayWantMemory query (set_of site.now)) }
{
    Ok(site.query(query)?)
}

/// The summary in a turn with the shared site, as a desk answers.
fn summary(site: &mut Site) -> Result<Summary, DeskFault>
    ensures same { site.new ≡ site.old }
    ensures answers { HasRightReply site.old (call command.Summary (summed result)) }
    ensures err { OnErr result (set_of site.old ≢ []) }
{
    Ok(site.summary()?)
}

/// What a peer lacks, in a turn with the shared site, as a desk answers.
fn delta_page(site: &mut Site, peer: &Summary, from: u64, limit: u64) -> Result<Batch, DeskFault>
    requires low { 1 ≤ limit }
    requires high { limit ≤ max_page }
    ensures same { site.new ≡ site.old }
    ensures answers { HasRightReply site.old
        (call (command.DeltaPage peer.now from limit) (paged result)) }
    ensures err { OnErr result (set_of site.old ≢ []) }
    ensures err_of_numbers { OnErr result (version_of peer.now ≡ 1
        → page (delta (set_of site.old) peer.now) from limit ≢ []) }
{
    Ok(site.next_delta_page(peer, from, limit)?)
}

/// A page in key order in a turn with the shared site, as a desk answers.
fn key_page(site: &Site, from: u64, limit: u64) -> Result<Batch, DeskFault>
    requires low { 1 ≤ limit }
    requires high { limit ≤ max_page }
    ensures answers { HasRightReply site.now (call (command.Page from limit) (paged result)) }
    ensures err { OnErr result (page (set_of site.now) from limit ≢ []) }
{
    Ok(site.page(from, limit)?)
}

/// The events that came to the shared site after the first n, as a desk answers.
fn arrivals_after(site: &Site, n: u64, limit: u64) -> Result<Batch, DeskFault>
    requires low { 1 ≤ limit }
    requires high { limit ≤ max_page }
    ensures answers { HasRightReply site.now (call (command.Fresh n limit) (paged result)) }
    ensures err { OnErr result (page site.now n limit ≢ []) }
{
    Ok(site.arrivals_after(n, limit)?)
}

impl SharedSite {
    /// Waits for a turn and asks the shared site a question, as `Site::query` does.
    pub fn query<R: Wait>(&self, rt: &R, pass: &mut Pass, query: Query) -> Result<Answer, DeskFault>
        requires { pass.old.table ≡ self.now }
        ensures made { Made pass.old pass.new (call (command.Query query) (answered result)) }

        // A site without events wants no memory, nor does one without conflicts or days for these.
        ensures err { OnErr result (set_of (leaves pass.new) ≢ []) }
        ensures rows { OnErr result (MayWantMemory query (set_of (leaves pass.new))) }
    {
        let seat = &mut pass.seat;
        let Held { site } = self.turns.enter(rt, seat);
        let reply = answer(&site, query);
        self.end::<Brand, _, _>(seat, site, &query, &reply);
        reply
    }

    /// Waits for a turn and asks the shared site for the summary, as `Site::summary` does.
    pub fn summary<R: Wait>(&self, rt: &R, pass: &mut Pass) -> Result<Summary, DeskFault>
        requires { pass.old.table ≡ self.now }
        ensures made { Made pass.old pass.new (call command.Summary (summed result)) }

        // A site without events wants no memory.
        ensures err { OnErr result (set_of (leaves pass.new) ≢ []) }
    {
        let seat = &mut pass.seat;
        let Held { mut site } = self.turns.enter(rt, seat);
        let reply = summary(&mut site);
        self.end::<Brand, _, _>(seat, site, &(), &reply);
        reply
    }

    /// Waits for the shared site's turn and asks what a peer lacks, as `Site::delta_page` does.
    pub fn delta_page<R: Wait>(
        &self,
        rt: &R,
        pass: &mut Pass,
        peer: &Summary,
        from: u64,
        limit: u64,
    ) -> Result<Batch, DeskFault>
        requires own { pass.old.table ≡ self.now }
        requires low { 1 ≤ limit }
        requires high { limit ≤ max_page }
        ensures made { Made pass.old pass.new
            (call (command.DeltaPage peer.now from limit) (paged result)) }

        // A site without events wants no memory.
        ensures err { OnErr result (set_of (leaves pass.new) ≢ []) }

        // For a peer of version 1 memory is wanted for events alone.
        ensures err_of_numbers { OnErr result (version_of peer.now ≡ 1
            → page (delta (set_of (leaves pass.new)) peer.now) from limit ≢ []) }
    {
        let seat = &mut pass.seat;
        let Held { mut site } = self.turns.enter(rt, seat);
        let reply = delta_page(&mut site, peer, from, limit);
        self.end::<Brand, _, _>(seat, site, &(peer, from, limit), &reply);
        reply
    }

    /// Waits for the shared site's turn and asks for a page in key order, as `Site::page` does.
    pub fn page<R: Wait>(
        &self,
        rt: &R,
        pass: &mut Pass,
        from: u64,
        limit: u64,
    ) -> Result<Batch, DeskFault>
        requires own { pass.old.table ≡ self.now }
        requires low { 1 ≤ limit }
        requires high { limit ≤ max_page }
        ensures made { Made pass.old pass.new (call (command.Page from limit) (paged result)) }

        // Memory is wanted for events alone.
        ensures err { OnErr result (page (set_of (leaves pass.new)) from limit ≢ []) }
    {
        let seat = &mut pass.seat;
        let Held { site } = self.turns.enter(rt, seat);
        let reply = key_page(&site, from, limit);
        self.end::<Brand, _, _>(seat, site, &(from, limit), &reply);
        reply
    }

    /// Waits for a turn and asks the shared site for the events that came after the first n, as
    /// `Site::arrivals_after` does.
    pub fn fresh<R: Wait>(
        &self,
        rt: &R,
        pass: &mut Pass,
        n: u64,
        limit: u64,
    ) -> Result<Batch, DeskFault>
        requires own { pass.old.table ≡ self.now }
        requires low { 1 ≤ limit }
        requires high { limit ≤ max_page }
        ensures made { Made pass.old pass.new (call (command.Fresh n limit) (paged result)) }

        // Memory is wanted for events alone.
        ensures err { OnErr result (page (leaves pass.new) n limit ≢ []) }
    {
        let seat = &mut pass.seat;
        let Held { site } = self.turns.enter(rt, seat);
        let reply = arrivals_after(&site, n, limit);
        self.end::<Brand, _, _>(seat, site, &(n, limit), &reply);
        reply
    }
}
