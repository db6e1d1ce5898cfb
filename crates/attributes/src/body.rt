//! What an event keeps: its canonical text, the places of its attributes in it, and its key.

ghost use Rattle.std.specs.Prelude.{◌≡◌, ◌+◌, ◌-◌, ◌<◌, ◌≤◌, ◌++◌, ◌^◌, length, option_map, string_bytes, true, IfOk, IfSome, Some};
ghost use Rattle.attributes.specs.Character.{is_filled};
ghost use Rattle.attributes.specs.Members.{value_at};
ghost use Rattle.attributes.specs.steps.Place.{ArePlaces, HasPlaces, IsPlace, IsBody, IsSpan, aside_of, drafted, id_in, in_span, kind_in, payload_in, place_name, place_value, shown, source_in, text_of};
ghost use Rattle.attributes.specs.Event.{scalar_of, words_or_empty};

use std::alloc::AllocError;

/// The value of an attribute (CloudEvents 1.0.2, "Type System"), lent by its event.
#[derive(Clone, Copy, Debug, Drop)]
pub enum Attribute<'a> {
    Flag(bool),
    Whole(i32),
    Words(&'a str),
}

/// Where a text stands between quotation marks, in bytes from the beginning: `start..end`.
#[derive(Clone, Copy)]
pub(crate) struct Span {
    pub(crate) start: u32,
    pub(crate) end: u32,
}

/// Where a text stands, in bytes from the beginning: `start..end`.
#[derive(Clone, Copy)]
pub(crate) struct Stretch {
    pub(crate) start: u32,
    pub(crate) end: u32,
}

/// A value, or where it ends. A text begins behind its name and `":"`; `Escaped` ones stand, with
/// their names, aside of the canonical text and without escapes.
#[derive(Clone, Copy)]
pub(crate) enum Kind {
    Flag(bool),
    Whole(i32),
    Words(u32),
    Escaped(u32),
}

/// Where an attribute stands.
#[derive(Clone, Copy)]
pub(crate) struct Place {
    pub(crate) name: Span,
    pub(crate) value: Kind,
}

/// A canonical text as it is written, what stands aside of it, the places of the attributes, and
/// that of the payload member's value.
#[derive(Drop)]
pub(crate) struct Draft {
    pub(crate) text: String,
    pub(crate) aside: String,
    pub(crate) places: Vec<Place>,
    pub(crate) payload: Stretch,
}

/// The canonical text and behind it, in one string, what stands aside of it and the key: `"`, the
/// source, `"`, the id, `"`. So two events are compared by their keys with one look into memory
/// each. The kind is the value of `type`: in the canonical text, or aside of it where it is escaped
/// there. The payload is the value of the payload member; without one, it is empty.
#[derive(Drop)]
pub(crate) struct Body {
    pub(crate) all: String,
    pub(crate) places: Vec<Place>,
    pub(crate) text_end: u32,
    pub(crate) source: Span,
    pub(crate) kind: Span,
    pub(crate) payload: Stretch,
}

/// The part of an event's text between two marks.
fn between(text: &str, start: usize, end: usize) -> &str
    requires { IsSpan text.now (record { start = start; end = end }) }
    ensures { result.now ≡ in_span text.now (record { start = start; end = end }) }
{
    &text[start..end]
}

/// The text of a span in an event's kept string.
fn spanned(text: &str, span: Span) -> &str
    requires { IsSpan text.now span }
    ensures { result.now ≡ in_span text.now span }
{
    between(text, span.start as usize, span.end as usize)
}

/// The name of the attribute of a place in an event's kept string.
pub(crate) fn name_at<'a>(text: &'a str, aside: &'a str, place: Place) -> &'a str
    requires { IsPlace text.now aside.now place }
    ensures { result.now ≡ place_name text.now aside.now place }
{
    match place.value {
        Kind::Escaped(_) => spanned(aside, place.name),
        _ => spanned(text, place.name),
    }
}

/// The value of the attribute of a place in an event's kept string.
pub(crate) fn value_of<'a>(text: &'a str, aside: &'a str, place: Place) -> Attribute<'a>
    requires { IsPlace text.now aside.now place }
    ensures { scalar_of result ≡ place_value text.now aside.now place }
{
    let start = place.name.end as usize + 3;
    match place.value {
        Kind::Flag(flag) => Attribute::Flag(flag),
        Kind::Whole(number) => Attribute::Whole(number),
        Kind::Words(end) => Attribute::Words(between(text, start, end as usize)),
        Kind::Escaped(end) => Attribute::Words(between(aside, start, end as usize)),
    }
}

/// The place in an event's kept string of the attribute of this name.
pub(crate) fn place_in(text: &str, aside: &str, places: &[Place], name: &str) -> Option<Place>
    requires { ArePlaces text.now aside.now places.now }
    ensures stands { IfSome result (λ p. IsPlace text.now aside.now p) }
    ensures value { option_map (λ p. place_value text.now aside.now p) result
        ≡ value_at name.now (shown text.now aside.now places.now) }
{
    for place in places {
        if name == name_at(text, aside, *place) {
            return Some(*place);
        }
    }
    None
}

/// Where an attribute's words stand once the escaped ones stand behind an event's canonical text.
fn joined_span(text: &str, aside: &str, place: Place) -> Span
    requires short { length text.now + length aside.now < 2 ^ 32 }
    requires place { IsPlace text.now aside.now place }
    requires words { is_filled (words_or_empty
        (Some (place_value text.now aside.now place))) ≡ true }
    ensures span { IsSpan (text.now ++ aside.now) result }
    ensures words { in_span (text.now ++ aside.now) result
        ≡ words_or_empty (Some (place_value text.now aside.now place)) }
{
    let name = place.name;
    match place.value {
        Kind::Words(end) => Span {
            start: name.end + 3,
            end,
        },
        Kind::Escaped(end) => {
            let before = text.len() as u32;
            Span {
                start: before + (name.end + 3),
                end: before + end,
            }
        }
        Kind::Flag(_) | Kind::Whole(_) => unreachable!(),
    }
}

/// Where the words of this attribute stand once what is aside stands behind the canonical text.
pub(crate) fn words_in(draft: &Draft, name: &str) -> Span
    requires short { length (string_bytes draft.now.text) + length (string_bytes draft.now.aside)
        < 2 ^ 32 }
    requires places { HasPlaces draft.now }
    requires words { is_filled (words_or_empty (value_at name.now (drafted draft.now))) ≡ true }
    ensures span { IsSpan (string_bytes draft.now.text ++ string_bytes draft.now.aside) result }
    ensures words { in_span (string_bytes draft.now.text ++ string_bytes draft.now.aside) result
        ≡ words_or_empty (value_at name.now (drafted draft.now)) }
{
    let text = draft.text.as_str();
    let aside = draft.aside.as_str();
    match place_in(text, aside, draft.places.as_slice(), name) {
        Some(place) => joined_span(text, aside, place),
        None => unreachable!(),
    }
}

impl Body {
    /// The canonical text of the event.
    pub(crate) fn text(&self) -> &str
        requires { IsBody self.now }
        ensures { result.now ≡ text_of self.now }
    {
        &self.all[..self.text_end as usize]
    }

    /// What stands behind the event's canonical text.
    pub(crate) fn aside(&self) -> &str
        requires { IsBody self.now }
        ensures { result.now ≡ aside_of self.now }
    {
        &self.all[self.text_end as usize..]
    }

    /// The JSON text of the value of the event's payload member.
    pub(crate) fn payload(&self) -> &str
        requires { IsBody self.now }
        ensures { result.now ≡ payload_in self.now }
    {
        &self.text()[self.payload.start as usize..self.payload.end as usize]
    }

    /// The event's attribute `source`.
    pub(crate) fn source(&self) -> &str
        requires { IsBody self.now }
        ensures { result.now ≡ source_in self.now }
    {
        spanned(self.all.as_str(), self.source)
    }

    /// The event's attribute `id`.
    pub(crate) fn id(&self) -> &str
        requires { IsBody self.now }
        ensures { result.now ≡ id_in self.now }
    {
        between(
            self.all.as_str(),
            self.source.end as usize + 1,
            self.all.len() - 1,
        )
    }

    /// The event's attribute `type`.
    pub(crate) fn kind(&self) -> &str
        requires { IsBody self.now }
        ensures { result.now ≡ kind_in self.now }
    {
        spanned(self.all.as_str(), self.kind)
    }

    /// The body of an equal event, with a string of its own.
    pub(crate) fn copy(&self) -> Result<Body, AllocError>
        ensures all { IfOk result (λ s. string_bytes s.all ≡ string_bytes self.now.all) }
        ensures places { IfOk result (λ s. s.places.items ≡ self.now.places.items) }
        ensures text_end { IfOk result (λ s. s.text_end ≡ self.now.text_end) }
        ensures source { IfOk result (λ s. s.source ≡ self.now.source) }
        ensures kind { IfOk result (λ s. s.kind ≡ self.now.kind) }
        ensures payload { IfOk result (λ s. s.payload ≡ self.now.payload) }
    {
        let alloc = *self.all.allocator();
        let all = String::from_str(alloc, self.all.as_str())?;
        let places = Vec::from_slice(alloc, self.places.as_slice())?;
        Ok(Body {
            all,
            places,
            text_end: self.text_end,
            source: self.source,
            kind: self.kind,
            payload: self.payload,
        })
    }
}
