//! What the lines say of a file.

ghost use Rattle.std.specs.Prelude.{◌≡◌, ◌↔◌, ℕ, List, []};
ghost use Rattle.attributes.specs.Event.{EventValue};
ghost use Rattle.event_json.specs.Reading.{Reads};
ghost use Rattle.fault_lines.specs.Lines.{IsFaultText, IsReadingText};
ghost use Rattle.fault_lines.specs.Quiet.{IsGood};

use event_json::readings_are_one;

/// Nothing is said of a file exactly where its bytes spell events that all have numbers, which is
/// where the file is taken.
pub fn good_files_are_quiet()
    ensures { (name b : List ℕ) → IsFaultText name b [] ↔ IsGood b }
{}

/// Nothing is said of a file whose events need no numbers exactly where its bytes spell events.
pub fn events_are_quiet()
    ensures { (name b text : List ℕ) → IsReadingText name b text
        → (text ≡ []) ↔ ((events : List EventValue) × Reads b events) }
{
    readings_are_one();
}
