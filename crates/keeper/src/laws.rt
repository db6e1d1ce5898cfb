//! Laws of keepers, each as the contract of a function that does nothing.

ghost use Rattle.keeper.specs.Law.{AcknowledgedAreKept, FirstArrivalsStay};

use site_lock::laws::calls_follow;

/// What a keeper's table has of the first arrivals of a site, it has of them whatever is done with
/// the site: a keeper that may make a step with one pass may make it with each pass of that site
/// that has seen as much.
pub fn first_arrivals_stay()
    ensures { FirstArrivalsStay }
{}

/// Where n arrivals are acknowledged, a caller was told that none come after the first n, and the
/// keeper's pass has seen that since, the table has all that the caller had seen by then: all that
/// it took, too.
pub fn acknowledged_are_kept()
    ensures { AcknowledgedAreKept }
{
    calls_follow();
}
