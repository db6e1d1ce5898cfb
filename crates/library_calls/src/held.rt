//! A site in a caller's room, in memory or over files, and the text of its last answer.

ghost use Rattle.std.specs.Prelude.{◌≡◌, []};
ghost use Rattle.library_calls.specs.Offers.{no_offers};

use crate::offers::Offers;
use attributes::Text;
use durable_site::{FileSite, Unknown};
use site::Site;
use std::alloc::Global;

/// The site that lies in a caller's room.
#[derive(Drop)]
pub enum HeldSite {
    Memory(Site),
    /// Over the files of a database.
    File(FileSite<Unknown>),
    /// None, since its files weren't opened.
    Closed,
}

/// What lies in the room that a caller gave: the site, the answer that it gave last, and the bodies
/// that are to come in one transaction.
#[derive(Drop)]
pub struct Held {
    pub(crate) site: HeldSite,
    pub(crate) text: Text,
    pub(crate) offers: Offers,
    pub(crate) alloc: Global,
}

impl Held {
    /// The site of libjumbetai that lies in a room, with the empty text and no bodies. It takes no
    /// memory.
    pub(crate) fn of(alloc: Global, site: HeldSite) -> Held
        ensures site { result.site ≡ site }
        ensures text { result.text ≡ [] }
        ensures offers { result.offers ≡ no_offers }
    {
        Held {
            site,
            text: Text::from_string(String::new(alloc)),
            offers: Offers::none(alloc),
            alloc,
        }
    }
}
