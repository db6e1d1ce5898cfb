//! What calls on databases are given by its name: events, and statements.

use crate::events;
use crate::said::line;
use crate::shelf::Shelf;
use attributes::{Batch, Sequenced, Text};
use std::alloc::Global;

/// Events and statements by their names.
#[derive(Drop)]
pub struct Known {
    events: Shelf<Sequenced>,
    names: Vec<Text>,
    statements: Shelf<Text>,
}

impl Known {
    /// None yet.
    pub fn empty(alloc: Global) -> Known {
        Known {
            events: Shelf::empty(alloc),
            names: Vec::new(alloc),
            statements: Shelf::empty(alloc),
        }
    }

    /// `event NAME ID NUMBER TYPE [MEMBER=TEXT..]`: an event has that name from now on.
    pub fn event(&mut self, alloc: Global, words: &[&str]) -> bool {
        let [name, ..] = words else {
            return false;
        };
        match Text::of(alloc, name) {
            Ok(name) => events::event(alloc, &mut self.events, words)
                && self.names.push(name).is_ok(),
            Err(_) => false,
        }
    }

    /// `statement NAME TEXT`: a statement has that name from now on.
    pub fn statement(&mut self, alloc: Global, text: &str) -> bool {
        match text.split_once(' ') {
            Some((name, text)) => match Text::of(alloc, text) {
                Ok(text) => self.statements.put(alloc, name, text),
                Err(_) => false,
            },
            None => false,
        }
    }

    /// The statement of a name, or of the text itself.
    pub fn sql<'a>(&'a self, text: &'a str) -> &'a str {
        match self.statements.get(text) {
            Some(text) => text.as_str(),
            None => text,
        }
    }

    /// The text of the event of a name.
    pub fn text(&self, name: &str) -> Option<&str> {
        match self.events.get(name) {
            Some(event) => Some(event.event().text()),
            None => None,
        }
    }

    /// Adds the event of a name to a batch, and answers whether it did.
    fn add(&self, batch: &mut Batch, name: &str) -> bool {
        match self.events.get(name) {
            Some(event) => events::add(batch, event),
            None => false,
        }
    }

    /// Adds the events of names to a batch, and answers whether it did.
    fn fill(&self, batch: &mut Batch, names: &str) -> bool {
        for name in names.split_whitespace() {
            if !self.add(batch, name) {
                return false;
            }
        }
        true
    }

    /// The events of names.
    pub fn batch(&self, alloc: Global, names: &str) -> Option<Batch> {
        let mut batch = Batch::empty(alloc);
        if self.fill(&mut batch, names) {
            Some(batch)
        } else {
            None
        }
    }

    /// The name of the event with a text, or that text where none has it.
    pub fn name_of<'a>(&'a self, text: &'a str) -> &'a str {
        for name in &self.names {
            let is_it = match self.text(name.as_str()) {
                Some(it) => it == text,
                None => false,
            };
            if is_it {
                return name.as_str();
            }
        }
        text
    }

    /// Adds the names of events, `none` where there is none; one without a name is told by its text.
    pub fn tell(&self, out: &mut String, events: &Batch) -> bool {
        if events.is_empty() {
            return out.push_str("none").is_ok();
        }
        for i in 0..events.len() {
            let name = self.name_of(events.at(i).event().text());
            let is_told = (i == 0 || out.push(' ').is_ok()) && out.push_str(name).is_ok();
            if !is_told {
                return false;
            }
        }
        true
    }

    /// The same as a line.
    pub fn tell_line(&self, out: &mut String, events: &Batch) -> bool {
        self.tell(out, events) && line(out, "")
    }
}
