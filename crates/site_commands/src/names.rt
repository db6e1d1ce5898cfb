//! What a plan names, for the lines that say why it has no answer.
ghost use Rattle.std.specs.Prelude.{◌≡◌, [], unwrap_or};
ghost use Rattle.site_commands.specs.Lines.{name_at};
ghost use Rattle.site_commands.specs.Names.{lent, of_check, names_of_follow, of_number, of_once, of_run, of_split};

use attributes::Text;
use command_words::{Check, Follow, Number, Once, Run, Split};

/// What a plan names.
#[derive(Clone, Copy)]
pub struct Names<'a> {
    /// The database; empty where there is none.
    pub db: &'a str,
    /// The number of the order; 0 where there is none.
    pub order: u64,
    /// The file before the others, where there is one.
    first: Option<&'a str>,
    files: &'a [Text],
}

impl<'a> Names<'a> {
    /// What an error line names of a plan: a database alone.
    fn of_db(db: &'a str) -> Names<'a>
        ensures { lent result ≡ record { db = db.now; order = 0; files = [] } }
    {
        Names {
            db,
            order: 0,
            first: None,
            files: &[],
        }
    }

    /// What an error line names of a plan: files alone.
    pub fn of_files(files: &'a [Text]) -> Names<'a>
        ensures { lent result ≡ record { db = []; order = 0; files = files.now } }
    {
        Names {
            db: "",
            order: 0,
            first: None,
            files,
        }
    }

    /// What the error line of a plan with one answer names.
    pub fn of_once(plan: &'a Once) -> Names<'a>
        ensures { lent result ≡ of_once plan.now }
    {
        match plan {
            Once::Ask { db, files, .. } => Names {
                db: given_name(db),
                order: 0,
                first: None,
                files: files.as_slice(),
            },
            Once::Summary { db } => Names::of_db(db.as_str()),
            Once::Take { db, files, .. } => Names {
                db: db.as_str(),
                order: 0,
                first: None,
                files: files.as_slice(),
            },
            Once::Delta { db, summary, .. } => Names {
                db: db.as_str(),
                order: 0,
                first: Some(summary.as_str()),
                files: &[],
            },
            Once::Scrub { db, .. } => Names::of_db(db.as_str()),
            Once::Arrivals { db, .. } => Names::of_db(db.as_str()),
            Once::Service { db, .. } => Names::of_db(db.as_str()),
            Once::Order(request) => Names {
                db: request.db.as_str(),
                order: request.order,
                first: None,
                files: &[],
            },
            Once::Relay { db, .. } => Names::of_db(db.as_str()),
            Once::Part { files, .. } => Names::of_files(files.as_slice()),
        }
    }

    /// What the error line of the command `follow` names.
    pub fn of_follow(plan: &'a Follow) -> Names<'a>
        ensures { lent result ≡ names_of_follow plan.now }
    {
        Names {
            db: plan.db.as_str(),
            order: 0,
            first: Some(plan.file.as_str()),
            files: &[],
        }
    }

    /// What the error line of a stream of lines that are numbered names.
    pub fn of_number(plan: &'a Number) -> Names<'a>
        ensures { lent result ≡ of_number plan.now }
    {
        Names {
            db: plan.db.as_str(),
            order: 0,
            first: Some(plan.file.as_str()),
            files: &[],
        }
    }

    /// What the error line of the command `check` names.
    pub fn of_check(plan: &'a Check) -> Names<'a>
        ensures { lent result ≡ of_check plan.now }
    {
        Names {
            db: "",
            order: 0,
            first: None,
            files: plan.files.as_slice(),
        }
    }

    /// What the error line of a plan of parts names, refused for a file that it reads.
    pub fn of_split(plan: &'a Split) -> Names<'a>
        ensures { lent result ≡ of_split plan.now }
    {
        Names::of_files(plan.files.as_slice())
    }

    /// What the error line of a run names, its peer's file first.
    pub fn of_run(plan: &'a Run) -> Names<'a>
        ensures { lent result ≡ of_run plan.now }
    {
        match &plan.peer {
            Some(peer) => Names {
                db: plan.db.as_str(),
                order: 0,
                first: Some(peer.as_str()),
                files: plan.files.as_slice(),
            },
            None => Names {
                db: plan.db.as_str(),
                order: 0,
                first: None,
                files: plan.files.as_slice(),
            },
        }
    }

    /// An error line's file at a place, from 0; empty where there is none.
    pub fn file(self, place: u64) -> &'a str
        ensures { result.now ≡ name_at (lent self.entry).files place }
    {
        match self.first {
            Some(first) if place == 0 => first,
            Some(_) => name_at(self.files, place - 1),
            None => name_at(self.files, place),
        }
    }
}

/// The name that a plan gives for an error line; empty where none is given.
fn given_name(name: &Option<Text>) -> &str
    ensures { result.now ≡ unwrap_or name.now [] }
{
    match name {
        Some(name) => name.as_str(),
        None => "",
    }
}

/// The name for an error line at a place, from 0; empty where there is none.
pub(crate) fn name_at(names: &[Text], place: u64) -> &str
    ensures { result.now ≡ name_at names.now place }
{
    match names.get(place as usize) {
        Some(name) => name.as_str(),
        None => "",
    }
}
