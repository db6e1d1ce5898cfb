//! Laws of numberers, each as the contract of a function that does nothing.

ghost use Rattle.numbers.specs.Law.{AnswersStay, BatchesJoin, NumbersHaveNoGap, NumbersTell, OwnSource};
ghost use Rattle.numbers.specs.Numbered.{IsLonger, NumberedEvents, NumberedFits, NumberedMembers, NumberedParts};

/// The numbers of a source are base + 1, base + 2 and so on, in the order in which its events stand.
pub fn numbers_have_no_gap()
    ensures { NumbersHaveNoGap }
{}

/// Two events of one source are given two numbers, and one that ties with another has its number.
pub fn numbers_tell()
    ensures { NumbersTell }
{}

/// What a numberer answered once is answered again, whatever was taken meanwhile.
pub fn answers_stay()
    ensures { AnswersStay }
{}

/// Two batches to be numbered, one after the other, are answered as the batch of both.
pub fn batches_join()
    ensures { BatchesJoin }
{}

/// An event given its number has that number, and all else as it was; no two become one.
pub fn numbered_events()
    ensures { NumberedEvents }
{}

/// Building an event's parts with its given number gives just that, unless it is too large.
pub fn numbered_parts()
    ensures { NumberedParts }
{}

/// The text of an event given its number is 34 bytes longer than without.
pub fn numbered_is_longer()
    ensures { IsLonger }
{}

/// An event whose text has up to 262,110 bytes may be numbered; a longer one is `TooLarge`.
pub fn numbered_fits()
    ensures { NumberedFits }
{}

/// Other sources tell in no number that a numberer gives.
pub fn own_source_tells()
    ensures { OwnSource }
{}

/// The JSON object of an event given its number is that of the event with one member put to it.
pub fn numbered_members()
    ensures { NumberedMembers }
{}
