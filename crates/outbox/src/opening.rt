//! The service of a database, whether it is there or not.

ghost use Rattle.std.specs.Prelude.{◌≡◌, ◌≤◌, true, IfErr, IfOk};
ghost use Rattle.std.specs.Result.{IsErrAnd};
ghost use Rattle.sqlite.specs.Held.{state};
ghost use Rattle.attributes.specs.Sequence.{max_sequence};
ghost use Rattle.database_layout.specs.Layout.{has_name, lacks_name};
ghost use Rattle.outbox.specs.Shown.{IsSource};
ghost use Rattle.outbox.specs.Opening.{IsOpeningRefused, OpensService};
ghost use Rattle.outbox.specs.declared.fault.OutboxFault.TheVariants.{Foreign};

use crate::service::{NotMade, Service};
use attributes::Text;
use database_layout::has_name;
use sqlite::{Alter, Connection};
use std::alloc::Global;

impl<S: Alter + Drop> Service<S> {
    /// The service of a database: the one whose tables are there, as [`Service::adopt`] takes it
    /// over, with its own source and base; where no table of one of their names is there, a new
    /// one with this source and base, as [`Service::create`] makes it.
    ///
    /// The fault is `Foreign` where some of the three tables are there without the others, or
    /// with rows that the calls of a service don't leave, `Store` where the database stands inside
    /// a transaction or has tables beside them that aren't an inbox's, or want of memory; the
    /// connection comes back, and the database is as it was. To take over reads all rows once, in
    /// time and memory in proportion to them; to make is one transaction.
    pub fn open(
        alloc: Global,
        conn: Connection<S>,
        source: &Text,
        base: u64,
    ) -> Result<Service<S>, NotMade<S>>
        requires source { IsSource source.now }
        requires base { base ≤ max_sequence }
        ensures opened { IfOk result (λ s. OpensService source.now base
            (state S.Store conn) s (state S.Store s.conn)) }
        ensures refused { IfErr result (λ e. IsOpeningRefused source.now base
            (state S.Store conn) (state S.Store e.conn) e.fault) }

        // Where some are there and others missing, this is found before any memory is asked for.
        ensures missing { has_name (state S.Store conn).now.schema ≡ true
            → lacks_name (state S.Store conn).now.schema ≡ true
            → IsErrAnd result (λ e. e.fault ≡ Foreign) }
    {
        if has_name(conn.schema()) {
            return match Service::adopt(alloc, conn) {
                Ok(service) => Ok(service),
                Err(refused) => Err(refused),
            };
        }
        match Service::create(alloc, conn, source, base) {
            Ok(service) => Ok(service),
            Err(refused) => Err(refused),
        }
    }
}
