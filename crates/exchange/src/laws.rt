//! Laws of exchanges, each as the contract of a function that does nothing.

ghost use Rattle.exchange.specs.Unite.{GossipsUnite, ScrubsUnite};

use block_digests::laws::gossips_unite;
use inbox::laws::{sets_are_members, unions_are_sets};

/// Two sites that exchange events once each way are left with the union of their sets: by scrubs
/// always; and by gossip, or at one of the two calls two different texts of one block, one of each
/// site, have one SHA-256.
pub fn exchanges_unite()
    ensures scrubs { ScrubsUnite }
    ensures gossips { GossipsUnite }
{
    sets_are_members();
    unions_are_sets();
    gossips_unite();
}
