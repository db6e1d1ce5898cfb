//! Laws of shared sites, each as the contract of a function that does nothing.

ghost use Rattle.site_lock.specs.Law.{CallsFollow, PassesAreSend, SharedSitesAreSync, UnsplitPassesSeeAll};

/// Where the first pass was never split, nobody else made a call: the shared site that it closes
/// comes out as its own calls left it.
pub fn unsplit_passes_see_all()
    ensures { UnsplitPassesSeeAll }
{}

/// Each call of a pass of the shared site, of whatever kind, comes behind what others added and is
/// one call of the site machine, with the reply that it has there.
pub fn calls_follow()
    ensures { CallsFollow }
{}

/// A pass may go to another thread, and threads may use one shared site by a `&`. Whoever starts
/// such threads calls it where the proof needs one of the two.
pub fn threads_share_a_site()
    ensures pass { PassesAreSend }
    ensures shared { SharedSitesAreSync }
{}
