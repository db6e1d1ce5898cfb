//! Which tables of ours a database has, and where they lie.

ghost use Rattle.std.specs.Prelude.{◌≡◌, [], ◌∷◌, IsTrue, IfSome};
ghost use Rattle.database_layout.specs.Layout.{GainsInbox2, GainsService, HasInbox, HasInbox2, HasService, has_inbox, has_name, lacks_name, schema_in, schema_of};

use crate::form::{are_inbox, are_inbox2, are_service};
use sqlite_schema::schema::{Index, Schema, Table};

/// Which tables of ours a database has, in the order in which they were made. The rows of a table
/// lie in a tree with a number, an index in one of its own; a new one gets the number above all
/// others and keeps it, so an upgrade leaves a gap. The number in a comment is that of a part's
/// first tree.
#[derive(Clone, Copy, PartialEq, Eq, Debug)]
pub enum Layout {
    /// None.
    Empty,
    /// A service at 0.
    Service,
    /// An inbox of version 1 at 0.
    Inbox,
    /// An inbox of version 1 at 0, a service at 2.
    InboxService,
    /// A service at 0, an inbox of version 1 at 3.
    ServiceInbox,
    /// An inbox of version 2 at 0.
    Inbox2,
    /// An inbox of version 2 at 0, a service at 2.
    Inbox2Service,
    /// A service at 0, an inbox of version 2 at 3.
    ServiceInbox2,
    /// An inbox of version 2 at 2, which was made in place of one of version 1.
    Upgraded,
    /// Such an inbox at 2, a service at 4, made after the upgrade.
    UpgradedService,
    /// A service at 0, such an inbox at 5.
    ServiceUpgraded,
    /// A service at 2, such an inbox at 5; version 1 had come before the service.
    ShiftedUpgraded,
}

/// The layout of an inbox alone.
fn of_one(table: &Table, index: &Index) -> Option<Layout>
    ensures { IfSome result (λ l.
        schema_of (table.now ∷ []) (index.now ∷ []) ≡ schema_in l) }
{
    if are_inbox(table, index, 0) {
        return Some(Layout::Inbox);
    }
    if are_inbox2(table, index, 0) {
        return Some(Layout::Inbox2);
    }
    if are_inbox2(table, index, 2) {
        return Some(Layout::Upgraded);
    }
    None
}

/// The layout of a service alone.
fn of_three(a: &Table, b: &Table, c: &Table) -> Option<Layout>
    ensures { IfSome result (λ l.
        schema_of (a.now ∷ b.now ∷ c.now ∷ []) [] ≡ schema_in l) }
{
    if are_service(a, b, c, 0) {
        return Some(Layout::Service);
    }
    None
}

/// The layout of an inbox, then a service.
fn of_inbox_first(a: &Table, b: &Table, c: &Table, d: &Table, index: &Index) -> Option<Layout>
    ensures { IfSome result (λ l.
        schema_of (a.now ∷ b.now ∷ c.now ∷ d.now ∷ []) (index.now ∷ []) ≡ schema_in l) }
{
    if are_inbox(a, index, 0) && are_service(b, c, d, 2) {
        return Some(Layout::InboxService);
    }
    if are_inbox2(a, index, 0) && are_service(b, c, d, 2) {
        return Some(Layout::Inbox2Service);
    }
    if are_inbox2(a, index, 2) && are_service(b, c, d, 4) {
        return Some(Layout::UpgradedService);
    }
    None
}

/// The layout of a service, then an inbox.
fn of_service_first(a: &Table, b: &Table, c: &Table, d: &Table, index: &Index) -> Option<Layout>
    ensures { IfSome result (λ l.
        schema_of (a.now ∷ b.now ∷ c.now ∷ d.now ∷ []) (index.now ∷ []) ≡ schema_in l) }
{
    if are_service(a, b, c, 0) && are_inbox(d, index, 3) {
        return Some(Layout::ServiceInbox);
    }
    if are_service(a, b, c, 0) && are_inbox2(d, index, 3) {
        return Some(Layout::ServiceInbox2);
    }
    if are_service(a, b, c, 0) && are_inbox2(d, index, 5) {
        return Some(Layout::ServiceUpgraded);
    }
    if are_service(a, b, c, 2) && are_inbox2(d, index, 5) {
        return Some(Layout::ShiftedUpgraded);
    }
    None
}

impl Layout {
    /// The layout of a schema, where it has tables of ours alone, each in its whole form. None
    /// where there is any other table, index or view.
    pub fn of(schema: &Schema) -> Option<Layout>
        ensures { IfSome result (λ l. schema.now ≡ schema_in l) }
    {
        if !schema.views.is_empty() {
            return None;
        }
        match (schema.tables.as_slice(), schema.indexes.as_slice()) {
            ([], []) => Some(Layout::Empty),
            ([table], [index]) => of_one(table, index),
            ([a, b, c], []) => of_three(a, b, c),
            ([a, b, c, d], [index]) => {
                if let Some(layout) = of_inbox_first(a, b, c, d, index) {
                    return Some(layout);
                }
                of_service_first(a, b, c, d, index)
            }
            _ => None,
        }
    }

    /// Whether a service is among the tables of the layout.
    pub fn has_service(self) -> bool
        ensures { IsTrue result → HasService self }
    {
        match self {
            Layout::Empty | Layout::Inbox | Layout::Inbox2 | Layout::Upgraded => false,
            _ => true,
        }
    }

    /// Whether an inbox of version 1 is among the layout's tables.
    pub fn has_inbox(self) -> bool
        ensures { IsTrue result → HasInbox self }
    {
        matches!(
            self,
            Layout::Inbox | Layout::InboxService | Layout::ServiceInbox
        )
    }

    /// Whether an inbox of version 2 is among the layout's tables.
    pub fn has_inbox2(self) -> bool
        ensures { IsTrue result → HasInbox2 self }
    {
        match self {
            Layout::Empty
            | Layout::Service
            | Layout::Inbox
            | Layout::InboxService
            | Layout::ServiceInbox => false,
            _ => true,
        }
    }

    /// The layout once a service is made too, where there is none yet.
    pub fn with_service(self) -> Option<Layout>
        ensures { IfSome result (λ l. GainsService self l) }
    {
        match self {
            Layout::Empty => Some(Layout::Service),
            Layout::Inbox => Some(Layout::InboxService),
            Layout::Inbox2 => Some(Layout::Inbox2Service),
            Layout::Upgraded => Some(Layout::UpgradedService),
            _ => None,
        }
    }

    /// The layout once an inbox of version 2 is made too, where there is none of any version yet.
    pub fn with_inbox2(self) -> Option<Layout>
        ensures { IfSome result (λ l. GainsInbox2 self l) }
    {
        match self {
            Layout::Empty => Some(Layout::Inbox2),
            Layout::Service => Some(Layout::ServiceInbox2),
            _ => None,
        }
    }
}

/// Whether a table of the file has one of the three names of a service's, in whatever form.
pub fn has_name(schema: &Schema) -> bool
    ensures { result ≡ has_name schema.now }
{
    schema.table_named(b"service").is_some()
        || schema.table_named(b"orders").is_some()
        || schema.table_named(b"outbox").is_some()
}

/// Whether the file lacks a table of one of the three names of a service's.
pub fn lacks_name(schema: &Schema) -> bool
    ensures { result ≡ lacks_name schema.now }
{
    schema.table_named(b"service").is_none()
        || schema.table_named(b"orders").is_none()
        || schema.table_named(b"outbox").is_none()
}

/// Whether a table of the file has the name of an inbox, of either version, in whatever form.
pub fn has_inbox(schema: &Schema) -> bool
    ensures { result ≡ has_inbox schema.now }
{
    schema.table_named(b"inbox").is_some() || schema.table_named(b"inbox2").is_some()
}
