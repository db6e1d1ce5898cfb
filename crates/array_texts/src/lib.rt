//! The texts of JSON arrays: a comma between two of them makes one.
#![tactic(auto)]

ghost use Rattle.array_texts.specs.Arrays.{JoinTexts};

/// Two texts of arrays, neither of them empty, of which the first lacks its closing bracket and the
/// second its opening one, are the text of one array where a comma joins them (RFC 8259, section
/// 5). Which commas of a text part its members nobody has to prove: any comma at which both sides
/// read is one.
pub fn texts_join()
    ensures { JoinTexts }
{}
