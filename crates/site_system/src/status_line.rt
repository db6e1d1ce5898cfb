//! How far a long command came, and hints, for those who look on at a terminal.

use crate::causes::Causes;
use inbox_table::Watch;
use site_commands::{Progress, Shown};
use std::alloc::Global;
use std::cell::Cell;
use std::io;
use std::io::{IsTerminal, Print, Write};

/// After how many events more the line is written anew.
const STEP: u64 = 1_000;

/// One line of a terminal, written anew as the command goes on, and taken away in the end. It stays
/// silent on a stream that is no terminal, and where memory or a write is refused.
#[derive(Drop)]
pub struct StatusLine<E> {
    to: E,
    alloc: Global,
    is_terminal: bool,
    is_out_terminal: bool,
    is_shown: Cell<bool>,
    told: Cell<(u64, u64)>,
    causes: Cell<Option<Causes>>,
}

impl<E: Print + IsTerminal> StatusLine<E> {
    /// An empty status line on the terminal's stream. Where answers go to a terminal too, nothing
    /// is shown of a stream of lines, each of which has its answer there.
    pub fn on(to: E, is_out_terminal: bool, alloc: Global) -> StatusLine<E> {
        let is_terminal = to.is_terminal();
        StatusLine {
            to,
            alloc,
            is_terminal,
            is_out_terminal,
            is_shown: Cell::new(false),
            told: Cell::new((u64::MAX, u64::MAX)),
            causes: Cell::new(None),
        }
    }
}

impl<E: Print> StatusLine<E> {
    /// Writes the text in place of the status line of the terminal.
    fn show(&self, text: &str) {
        self.is_shown.set(true);
        let _written = self.to.write_all(text.as_bytes());
    }

    /// Looks at what was written of an answer, for the faults that the status line tells.
    fn note(&self, bytes: &[u8]) {
        if !self.is_terminal {
            return;
        }
        let mut causes = match self.causes.replace(None) {
            Some(causes) => causes,
            None => Causes::none(self.alloc),
        };
        causes.note(bytes);
        self.causes.set(Some(causes));
    }

    /// The causes of faults told, for the status line, with a colon behind; empty, where none was.
    fn causes_told(&self) -> String {
        let told = match self.causes.replace(None) {
            Some(causes) => causes.words().ok(),
            None => None,
        };
        match told {
            Some(mut words) => {
                if !words.is_empty() {
                    let _whole = words.push_str(": ");
                }
                words
            }
            None => String::new(self.alloc),
        }
    }

    /// Standard output, whose answers the terminal's status line looks at too.
    pub fn counting<W: Write>(&self, to: W) -> CountedOutput<'_, W, E> {
        CountedOutput { to, line: self }
    }
}

/// A writer of answers, which a status line looks at.
#[derive(Drop)]
pub struct CountedOutput<'a, W, E> {
    to: W,
    line: &'a StatusLine<E>,
}

impl<'a, W: Write, E: Print> Write for CountedOutput<'a, W, E> {
    ghost contents = { λ o. W.contents o.to };

    fn write(&mut self, buf: &[u8]) -> io::Result<usize> {
        let count = self.to.write(buf)?;
        self.line.note(&buf[..count]);
        Ok(count)
    }

    fn flush(&mut self) -> io::Result<()> {
        self.to.flush()
    }
}

impl<E: Print> Watch for StatusLine<E> {
    // What it shows on a terminal no clause says.
    ghost told = { λ _ _ _. Unit {0} };

    fn kept(&self, count: u64, all: u64) {
        let (last_count, last_all) = self.told.get();
        let is_near = count.abs_diff(last_count) < STEP && all.abs_diff(last_all) < STEP;
        if !self.is_terminal || is_near {
            return;
        }
        self.told.set((count, all));
        let line = format!(in self.alloc; "\r\u{1b}[Ksite: {count} of {all} events kept");
        if let Ok(line) = line {
            self.show(line.as_str());
        }
    }
}

impl<E: Print> Progress for StatusLine<E> {
    fn left(&self, files: u64) {
        if !self.is_terminal {
            return;
        }
        let line = format!(in self.alloc; "\r\u{1b}[Ksite: files left to read: {files}");
        if let Ok(line) = line {
            self.show(line.as_str());
        }
    }

    fn lines(&self, count: u64) {
        if !self.is_terminal || self.is_out_terminal || count == 0 {
            return;
        }
        let line = format!(in self.alloc; "\r\u{1b}[Ksite: lines followed: {count}");
        if let Ok(line) = line {
            self.show(line.as_str());
        }
    }

    fn over(&self) {
        if self.is_shown.replace(false) {
            let _written = self.to.write_all("\r\u{1b}[K".as_bytes());
        }
    }

    fn is_watched(&self) -> bool {
        self.is_terminal
    }

    fn hint(&self, _line: Shown, hint: &str) {
        if !self.is_terminal {
            return;
        }
        let causes = self.causes_told();
        if let Ok(line) = format!(in self.alloc; "site: hint: {causes}{hint}\n") {
            let _written = self.to.write_all(line.as_str().as_bytes());
        }
    }
}
