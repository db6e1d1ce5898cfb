//! Where an event goes in among others.

ghost use Rattle.std.specs.Prelude.{◌≡◌, ◌<◌, Some, length, slice_get};
ghost use Rattle.std.specs.List.{list_any};
ghost use Rattle.attributes.specs.Event.{EventValue, id_of, source_of};
ghost use Rattle.inbox.specs.Kept.{events};
ghost use Rattle.inbox.specs.KeyOrder.{key_cmp};
ghost use Rattle.inbox.specs.Ordered.{IsGapFor};
ghost use Rattle.inbox.specs.Shown.{has_key};

use attributes::Sequenced;
use inbox::Inbox;

/// Whether the event at place i of key order has the source and id of one new to the views.
fn has_key_at(inbox: &Inbox, i: u64, event: &Sequenced) -> bool
    requires { i < length (events inbox.now) }
    ensures { (e : EventValue) → slice_get (events inbox.now) i ≡ Some e
        → result ≡ has_key (source_of event.now) (id_of event.now) e }
{
    let (other, event) = (inbox.at(i).event(), event.event());
    other.source() == event.source() && other.id() == event.id()
}

/// Whether there is an event with the source and the id of one new to the views. The two that it
/// would come between tell, since events with one source and id stand side by side.
pub(crate) fn has_key_of(inbox: &Inbox, event: &Sequenced, gap: u64) -> bool
    requires { IsGapFor key_cmp (events inbox.now) event.now gap }
    ensures { result
        ≡ list_any (has_key (source_of event.now) (id_of event.now)) (events inbox.now) }
{
    if gap > 0 && has_key_at(inbox, gap - 1, event) {
        return true;
    }
    gap < inbox.len() && has_key_at(inbox, gap, event)
}
