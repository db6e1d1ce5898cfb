//! What calls are of, as the word of their theme says.

use crate::player::Player;
use crate::said::Said;
use crate::{sets, sites, tables};
use std::alloc::Global;
use std::sync::Wait;

/// What calls are of.
#[derive(Clone, Copy)]
enum Theme {
    Sets,
    Sites,
    Tables,
}

/// What has a name, each theme's by itself.
#[derive(Drop)]
pub struct Values<'a, R> {
    theme: Theme,
    sets: sets::Values,
    sites: sites::Values,
    tables: tables::Values<'a, R>,
}

impl<'a, R> Values<'a, R> {
    /// Nothing yet. Calls are of sets, until a word says otherwise.
    pub fn empty(rt: &'a R, alloc: Global) -> Values<'a, R> {
        Values {
            theme: Theme::Sets,
            sets: sets::Values::empty(alloc),
            sites: sites::Values::empty(alloc),
            tables: tables::Values::empty(rt, alloc),
        }
    }
}

/// The theme of a word.
fn theme_of(word: &str) -> Option<Theme> {
    match word {
        "sets" => Some(Theme::Sets),
        "sites" => Some(Theme::Sites),
        "tables" => Some(Theme::Tables),
        _ => None,
    }
}

impl<'a, R: AllocGlobal + Wait> Player for Values<'a, R> {
    fn play(&mut self, rt: &HostRuntime, call: &str, said: &mut Said) -> bool {
        if let Some(theme) = theme_of(call) {
            self.theme = theme;
            return true;
        }
        match self.theme {
            Theme::Sets => self.sets.play(rt.alloc(), call, said),
            Theme::Sites => self.sites.play(rt, call, said),
            Theme::Tables => self.tables.play(rt.alloc(), call, said),
        }
    }
}
