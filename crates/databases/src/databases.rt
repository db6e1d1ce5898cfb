//! Databases by the names of their files.
ghost use Rattle.std.specs.Prelude.{◌≡◌, ◌≤◌, ℕ, length, IfErr, IfOk, IfSome, IsErrOf};
ghost use Rattle.attributes.specs.Sequence.{max_sequence};
ghost use Rattle.inbox_table.specs.Rows.{AreNumbered};
ghost use Rattle.line_intake.specs.Acknowledged.{TellsAll};
ghost use Rattle.databases.specs.Described.{SaysDatabase};
ghost use Rattle.databases.specs.Fault.{IsOfOrder, OrOfNamed};
ghost use Rattle.databases.specs.Held.{HasArrived, HasDelta, HasEvents, IsNoOrders, IsNoRows, IsUntold, SaysAllRows, SaysArrivals, SaysDelta, SaysOrder, SaysPage, SaysRows, SaysSummary};
ghost use Rattle.databases.specs.Name.{IsNoFile};
ghost use Rattle.databases.specs.Print.{counts_line};
ghost use Rattle.databases.specs.Service.{SaysService};
ghost use Rattle.databases.specs.Streams.{AcknowledgesUntil};
ghost use Rattle.databases.specs.declared.trouble.Trouble.TheVariants as trouble;
ghost use Rattle.outbox.specs.Shown.{IsSource};
ghost use Rattle.outbox.specs.Order.{IsOrder, IsShortTime};

use crate::fault::CommandFault;
use crate::pages::EventPages;
use crate::stream::StreamFault;
use crate::trouble::Trouble;
use attributes::{Batch, Moment, Text};
use coverage::Summary;
use inbox_table::Watch;
use outbox::Status;
use std::alloc::Global;
use std::io::{Read, Write};

/// The commands over databases, by the names of their files. Each opens the database, makes its
/// file where there is none unless it says otherwise, and closes it in the end; what was committed
/// stays, also where the closing fails. The clauses here say of which form an answer is, for some
/// events or some service: the page from that place, what the summary lacks, the command that was
/// given. What it is for what the file held, those of [`perform_named`] and its like say: here a
/// command is given to a database in the same way, where nothing is known of its files.
pub trait Databases {
    /// Keeps the events that a database's inbox lacks, and answers the line of how many were new.
    /// The watch is told meanwhile.
    fn take<W: Watch>(
        &self,
        alloc: Global,
        name: &str,
        events: &Batch,
        watch: &W,
    ) -> Result<Text, CommandFault>
        ensures answer { IfOk result (λ text. (fresh : ℕ)
            × (text ≡ counts_line (length events.now) fresh)) }
        ensures fault { IfErr result (OrOfNamed IsUntold) };

    /// Keeps in a database the events of each line of an input, and acknowledges it on `out` behind
    /// that; how many lines were refused.
    fn follow<R: Read, W: Write>(
        &self,
        alloc: Global,
        name: &str,
        input: &mut R,
        out: &mut W,
    ) -> Result<u64, StreamFault>
        ensures told { IfOk result
            (TellsAll (R.remaining input.old) (W.contents out.old) (W.contents out.new)) }
        ensures until { IfErr result (λ f. AcknowledgesUntil f
            (R.remaining input.old) (W.contents out.old) (W.contents out.new)) };

    /// The events that a database's inbox holds. A file that isn't there is not made: `CannotRead`.
    fn events(&self, alloc: Global, name: &str) -> Result<Batch, CommandFault>
        ensures answer { IfOk result AreNumbered }
        ensures fault { IfErr result (OrOfNamed IsUntold) };

    /// The line of the inbox's summary. A file that isn't there is not made: `CannotRead`.
    fn summary(&self, alloc: Global, name: &str) -> Result<Text, CommandFault>
        ensures answer { IfOk result SaysSummary }
        ensures fault { IfErr result (OrOfNamed IsUntold) };

    /// The events of a database's inbox that a summary lacks, in key order, to be printed page
    /// after page. A file that isn't there is not made: `CannotRead`.
    fn delta_pages(
        &self,
        alloc: Global,
        name: &str,
        summary: Summary,
    ) -> Result<EventPages, CommandFault>
        ensures answer { IfOk result (HasDelta summary) }
        ensures fault { IfErr result (OrOfNamed IsUntold) };

    /// The events of a database's inbox in key order, to be printed page after page. A file that
    /// isn't there is not made: `CannotRead`.
    fn scrub_pages(&self, alloc: Global, name: &str) -> Result<EventPages, CommandFault>
        ensures answer { IfOk result HasEvents }
        ensures fault { IfErr result (OrOfNamed IsUntold) };

    /// The page of a database's events that a summary lacks, from a place of key order on.
    fn delta(
        &self,
        alloc: Global,
        name: &str,
        summary: &Summary,
        from: u64,
    ) -> Result<Text, CommandFault>
        ensures answer { IfOk result (SaysDelta summary.now from) }
        ensures fault { IfErr result (OrOfNamed IsUntold) };

    /// The page of a database's events from a place of key order on.
    fn scrub(&self, alloc: Global, name: &str, from: u64) -> Result<Text, CommandFault>
        ensures answer { IfOk result (SaysPage from) }
        ensures fault { IfErr result (OrOfNamed IsUntold) };

    /// The page of a database's events behind the first so many that came. A file that isn't there
    /// is not made: `CannotRead`.
    fn arrivals(&self, alloc: Global, name: &str, after: u64) -> Result<Text, CommandFault>
        ensures answer { IfOk result (SaysArrivals after) }
        ensures fault { IfErr result (OrOfNamed IsUntold) };

    /// A database's events behind the first so many that came, to be printed page after page. A
    /// file that isn't there is not made: `CannotRead`.
    fn arrival_pages(
        &self,
        alloc: Global,
        name: &str,
        after: u64,
    ) -> Result<EventPages, CommandFault>
        ensures answer { IfOk result (HasArrived after) }
        ensures fault { IfErr result (OrOfNamed IsUntold) };

    /// Gives an order of a database's service a status, and answers the line of the event that says
    /// so. The service is made with this source where there is none.
    fn order(
        &self,
        alloc: Global,
        name: &str,
        source: &Text,
        is_source_named: bool,
        status: Status,
        order: u64,
        at: &Moment,
    ) -> Result<Text, CommandFault>
        requires source { IsSource source.now }
        requires order { IsOrder order }
        requires short { IsShortTime at.now }
        ensures answer { IfOk result (SaysOrder is_source_named source.now
            (record { status = status; order = order; at = at.now })) }
        ensures fault { IfErr result (OrOfNamed IsOfOrder) };

    /// The line that tells of a database's service, which is made with this source and base where
    /// there is none.
    fn service(
        &self,
        alloc: Global,
        name: &str,
        source: &Text,
        is_source_named: bool,
        base: Option<u64>,
    ) -> Result<Text, CommandFault>
        requires source { IsSource source.now }
        requires base { IfSome base (λ n. n ≤ max_sequence) }
        ensures answer { IfOk result (SaysService is_source_named source.now base) }
        ensures fault { IfErr result (OrOfNamed IsNoOrders) };

    /// The lines that tell what a database is: its inbox and its service. A file that isn't there
    /// is not made: `CannotRead`.
    fn describe(&self, alloc: Global, name: &str) -> Result<Text, Trouble>
        ensures answer { IfOk result (SaysDatabase name.now) }
        ensures none { IsNoFile name.now → IsErrOf result trouble.NoFile }
        ensures name { IfErr result (λ why. why ≡ trouble.NoFile → IsNoFile name.now) };

    /// The page of the rows of a database's service behind a number, and whether it was made.
    fn relay(
        &self,
        alloc: Global,
        name: &str,
        source: &Text,
        after: u64,
    ) -> Result<Relayed, CommandFault>
        requires { IsSource source.now }
        ensures answer { IfOk result (λ r. SaysRows after r.text) }
        ensures fault { IfErr result (OrOfNamed IsNoRows) };

    /// All rows of a database's service behind a number, in pages. A file that isn't there is not
    /// made: `CannotRead`.
    fn relay_all(&self, alloc: Global, name: &str, after: u64) -> Result<Text, CommandFault>
        ensures answer { IfOk result (SaysAllRows after) }
        ensures fault { IfErr result (OrOfNamed IsUntold) };

    /// Whether there is something of a database's name, so that no command makes it.
    fn is_there(&self, name: &str) -> bool;

    /// The same databases, each of which is tried again where another process has it open, for so
    /// many seconds at most.
    fn waiting(&self, seconds: u64) -> Self;
}

/// The page of a service's rows, and whether the service was made for it.
#[derive(Drop)]
pub struct Relayed {
    pub text: Text,
    pub is_made: bool,
}
