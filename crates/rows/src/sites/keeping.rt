//! Views beside an inbox, fed by what comes to it.

ghost use Rattle.std.specs.Prelude.{◌≡◌, ◌<◌, ◌∷◌, [], IfSome, IsTrue, false};
ghost use Rattle.inbox.specs.KeyOrder.{key_cmp};
ghost use Rattle.inbox.specs.Ordered.{append_new};
ghost use Rattle.kept_views.specs.Tables.{AreTablesOfShown};

use crate::said::{line, lines};
use crate::shelf::Shelf;
use crate::words::query_of;
use attributes::{Sequenced, Text};
use inbox::Inbox;
use kept_views::Views;
use std::alloc::{AllocError, Global};
use std::hash::RandomState;
use std::marker::Model;
use views::{Answer, Query, answer, print};

/// An inbox, and the views of what came to it.
#[derive(Drop)]
pub struct Kept {
    inbox: Inbox,
    views: Views,
}

impl Model for Kept {
    ghost use Rattle.inbox.specs.Codes.{kept_code};
    ghost use Rattle.inbox.specs.Kept.{Kept as Came};
    ghost use Rattle.kept_views.specs.Tables.{AreTablesOfShown};

    ghost Value = { Came };

    ghost coded = { kept_code };

    ghost view = { λ k. k.inbox };

    ghost invariant = { λ k. AreTablesOfShown k.inbox.arrivals k.views };
}

/// Makes room for an event. What is refused is tried once more.
fn grow(inbox: &mut Inbox) -> bool
    ensures same { inbox.new.arrivals ≡ inbox.old.arrivals }
    ensures room { IsTrue result → 0 < inbox.new.spare }
{
    match inbox.reserve(1) {
        Ok(()) => true,
        Err(_) => match inbox.reserve(1) {
            Ok(()) => true,
            Err(_) => false,
        },
    }
}

/// The views take an event. What is refused is tried once more.
fn note(views: &mut Views, inbox: &Inbox, event: &Sequenced) -> bool
    requires { AreTablesOfShown inbox.now.arrivals views.old }
    ensures stands { IsTrue result
        → AreTablesOfShown (append_new key_cmp inbox.now.arrivals (event.now ∷ [])) views.new }
    ensures same { result ≡ false → views.new ≡ views.old }
{
    match views.put(inbox, event) {
        Ok(()) => true,
        Err(_) => match views.put(inbox, event) {
            Ok(()) => true,
            Err(_) => false,
        },
    }
}

/// The views of all that came to an inbox. What is refused is tried once more.
fn views_of(alloc: Global, state: RandomState, inbox: &Inbox) -> Option<Views>
    ensures { IfSome result (AreTablesOfShown inbox.now.arrivals) }
{
    match Views::of(alloc, state, inbox) {
        Ok(views) => Some(views),
        Err(_) => Views::of(alloc, state, inbox).ok(),
    }
}

/// An event comes to the views, and then to the inbox.
fn take_event(inbox: &mut Inbox, views: &mut Views, event: Sequenced) -> bool
    requires { AreTablesOfShown inbox.old.arrivals views.old }
    ensures { AreTablesOfShown inbox.new.arrivals views.new }
{
    if !grow(inbox) {
        return false;
    }
    if !note(views, inbox, &event) {
        return false;
    }
    inbox.put(event);
    true
}

/// The lines of an answer.
fn printed(alloc: Global, found: Result<Answer, AllocError>) -> Result<Text, AllocError> {
    match found {
        Ok(found) => print(alloc, &found),
        Err(error) => Err(error),
    }
}

/// Adds the lines of what the views answer, and whether the inbox answers the same from scratch.
fn add_both(out: &mut String, kept: &Text, made: &Text) -> bool {
    out.push_str(kept.as_str()).is_ok()
        && line(
            out,
            if kept.as_str() == made.as_str() {
                "the same from scratch"
            } else {
                "another answer from scratch"
            },
        )
}

impl Kept {
    /// An event comes.
    fn take(&mut self, event: &Sequenced) -> bool {
        match event.copy() {
            Ok(event) => take_event(&mut self.inbox, &mut self.views, event),
            Err(_) => false,
        }
    }

    /// Puts views that are made of the inbox in the place of those that were fed.
    fn remake(&mut self, alloc: Global, state: RandomState) -> bool {
        match views_of(alloc, state, &self.inbox) {
            Some(views) => {
                self.views = views;
                true
            }
            None => false,
        }
    }

    /// Adds the answer to a question, of the views and from scratch.
    fn tell(&self, alloc: Global, query: Query, out: &mut String) -> bool {
        let kept = printed(alloc, self.views.answer(&self.inbox, query));
        let made = printed(alloc, answer(alloc, &self.inbox, query));
        match (kept, made) {
            (Ok(kept), Ok(made)) => add_both(out, &kept, &made),
            _ => false,
        }
    }
}

/// `views NAME known|seeded`: no events yet, and views that hash by the seed that everybody knows,
/// or by one of their own.
pub fn begin(rt: &HostRuntime, all: &mut Shelf<Kept>, words: &[&str]) -> bool {
    let alloc = rt.alloc();
    match words {
        [name, "known"] => {
            let (inbox, views) = (Inbox::empty(alloc), Views::empty(alloc));
            all.put(alloc, name, Kept { inbox, views })
        }
        [name, "seeded"] => match RandomState::new(rt) {
            Ok(state) => {
                let (inbox, views) = (Inbox::empty(alloc), Views::with_hasher(alloc, state));
                all.put(alloc, name, Kept { inbox, views })
            }
            Err(_) => false,
        },
        _ => false,
    }
}

/// `feed NAME EVENT..`: events come to the inbox and to its views.
pub fn feed(all: &mut Shelf<Kept>, events: &Shelf<Sequenced>, words: &[&str]) -> bool {
    let [name, names @ ..] = words else {
        return false;
    };
    let Some(kept) = all.get_mut(name) else {
        return false;
    };
    for name in names {
        let is_taken = match events.get(name) {
            Some(event) => kept.take(event),
            None => false,
        };
        if !is_taken {
            return false;
        }
    }
    true
}

/// `view NAME QUESTION`: what the views answer, and whether the inbox answers so from scratch.
pub fn view(alloc: Global, all: &Shelf<Kept>, words: &[&str], out: &mut String) -> bool {
    let [name, query] = words else {
        return false;
    };
    match (all.get(name), query_of(query)) {
        (Some(kept), Some(query)) => kept.tell(alloc, query, out),
        _ => false,
    }
}

/// `remake NAME`: views of all that came, by a seed of their own, in the place of those that were
/// fed.
pub fn remake(rt: &HostRuntime, all: &mut Shelf<Kept>, words: &[&str]) -> bool {
    let [name] = words else {
        return false;
    };
    match (all.get_mut(name), RandomState::new(rt)) {
        (Some(kept), Ok(state)) => kept.remake(rt.alloc(), state),
        _ => false,
    }
}
