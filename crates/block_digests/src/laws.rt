//! Laws of blocks and digests, each as the contract of a function that does nothing.

ghost use Rattle.block_digests.specs.Laws.{BlockIsOneList, BlockTextsTell, DigestsOfArrivals, GreaterAppends, OthersStay};
ghost use Rattle.block_digests.specs.Unite.{GossipsUnite};

use attributes::laws::{text_is_one_line, text_tells_events};
use inbox::laws::sets_are_members;

/// Two sets that differ in a block have two texts of that block.
pub fn block_texts_tell_blocks()
    ensures { BlockTextsTell }
{
    text_tells_events();
    text_is_one_line();
}

/// An event that comes leaves the texts of the blocks in which it doesn't stand, and one that is
/// greater by number and text than each of its block comes to the end of that block's text. What
/// rises by number and text, and has a block's events, is the block. The digests of arrivals are
/// those of their set.
pub fn blocks_change_by_events()
    ensures list { BlockIsOneList }
    ensures others { OthersStay }
    ensures greater { GreaterAppends }
    ensures arrivals { DigestsOfArrivals }
{
    text_tells_events();
    sets_are_members();
}

/// Two sites that bring one another what is lacking by digests, once each way, are left with the
/// union of their sets, or at one of the two calls two different texts of one block, one of each
/// site, have one SHA-256.
pub fn gossips_unite()
    ensures { GossipsUnite }
{
    block_texts_tell_blocks();
    sets_are_members();
    text_tells_events();
}
