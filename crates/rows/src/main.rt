//! Plays rows of calls on the libraries: values by their names, and each call with its answer below it.
#![tactic(auto)]

mod events;
mod play;
mod player;
mod said;
mod sets;
mod shelf;
mod sites;
mod tables;
mod words;

use play::Values;
use player::play_all;
use std::io;

fn main(rt: HostRuntime) -> io::Result<()> {
    let mut values = Values::empty(&rt, rt.alloc());
    play_all(&rt, &mut values)
}
