//! Views that are kept as events come.

ghost use Rattle.std.specs.Prelude.{◌≡◌, ◌∷◌, ◌++◌, [], IfSome, IsSomeAnd, None, OnErr, OnOk, Some, false, replicate, true};
ghost use Rattle.inbox.specs.Kept.{events};
ghost use Rattle.inbox.specs.KeyOrder.{key_cmp};
ghost use Rattle.inbox.specs.Ordered.{IsGapFor, append_new, has};
ghost use Rattle.inbox.specs.Sets.{set_of};
ghost use Rattle.inbox.specs.Shown.{is_shown};
ghost use Rattle.kept_views.specs.Tables.{AreTablesOfShown};

use super::Site;
use attributes::Sequenced;
use inbox::Inbox;
use kept_views::Views;
use std::alloc::{AllocError, Global};
use std::hash::RandomState;

/// An event that isn't there comes to the site's views, where they are kept, before the inbox takes
/// it at a gap of key order. Where memory is refused to them they are let go: no event is refused
/// for their sake.
pub(super) fn bring(views: &mut Option<Box<Views>>, inbox: &Inbox, event: &Sequenced, gap: u64)
    requires views { IfSome views.old (λ v. AreTablesOfShown inbox.now.arrivals v.value) }
    requires new { has key_cmp inbox.now.arrivals event.now ≡ false }
    requires gap { IsGapFor key_cmp (events inbox.now) event.now gap }
    ensures stand { IfSome views.new
        (λ v. AreTablesOfShown (append_new key_cmp inbox.now.arrivals (event.now ∷ [])) v.value) }
    ensures none { views.old ≡ None → views.new ≡ None }

    // They are let go only at an event that is shown: no other wants memory.
    ensures let_go { views.new ≡ None → IfSome views.old
        (λ _. is_shown (set_of (inbox.now.arrivals ++ event.now ∷ [])) event.now ≡ true) }
    ensures states { IfSome views.new
        (λ v. IfSome views.old (λ o. v.value.states ≡ o.value.states)) }
{
    let is_refused = match views {
        Some(kept) => kept.put_at(inbox, event, gap).is_err(),
        None => false,
    };
    if is_refused {
        *views = None;
    }
}

/// Makes the site's views of what came anew, by the random state. After want of memory those that
/// are kept stay.
fn renew(
    views: &mut Option<Box<Views>>,
    alloc: Global,
    state: RandomState,
    inbox: &Inbox,
) -> Result<(), AllocError>
    ensures kept { OnOk result (IsSomeAnd views.new (λ v. AreTablesOfShown inbox.now.arrivals v.value
        × (v.value.states ≡ replicate 3 (Some state)))) }
    ensures same { OnErr result (views.new ≡ views.old) }
{
    let made = Views::of(alloc, state, inbox)?;
    *views = Some(Box::new(alloc, made)?);
    Ok(())
}

impl Site {
    /// Keeps the views of what came, from now on: a `query` of types, of types by day and of the
    /// latest events then costs what its answer costs, and each event that comes a little more. The
    /// answers are the same, and so is all else that the site says. Keys are hashed by the random
    /// state, which nobody else knows. Views that are kept already are made anew. Time and memory
    /// in proportion to the events. After want of memory nothing has changed.
    ///
    /// Where memory for the views of an event is refused later, the site takes the event and lets
    /// the views go: it answers as one that keeps none, until it is asked to keep them again.
    pub fn keep_views(&mut self, state: RandomState) -> Result<(), AllocError>
        ensures { self.new ≡ self.old }
    {
        match renew(&mut self.views, self.alloc, state, &self.inbox) {
            Ok(()) => Ok(()),
            Err(error) => Err(error),
        }
    }

    /// Whether the site keeps views.
    pub fn keeps_views(&self) -> bool {
        self.views.is_some()
    }
}
