//! Laws of the tables of a file, each as the contract of a function that does nothing.

ghost use Rattle.database_layout.specs.Law.{TreesTellTables};

/// A file that is opened again has the tables that it was left with: two databases with the same
/// trees are one. With it the crash clauses of the crates above, which speak of trees, tell what an
/// opening finds.
pub fn trees_tell_tables()
    ensures { TreesTellTables }
{}
