//! Lines that are played.

use crate::said::Said;
use std::io;

/// What plays calls on values that have names.
pub trait Player {
    /// Makes the call of a line, and adds what it answers; answers whether all of it is told. What is
    /// left behind where memory was refused is told beside it.
    fn play(&mut self, rt: &HostRuntime, call: &str, said: &mut Said) -> bool;
}

/// Writes what a call came to.
fn tell(rt: &HostRuntime, said: &Said, is_again: bool) -> io::Result<()> {
    let Said { text, left } = said;
    if !left.is_empty() {
        return print!(rt; "(again) {left}\n{text}");
    }
    if is_again {
        return print!(rt; "(again)\n{text}");
    }
    print!(rt; "{text}")
}

/// Plays a call, and once more where it wasn't told whole.
fn play_twice<P: Player>(
    rt: &HostRuntime,
    player: &mut P,
    call: &str,
    said: &mut Said,
) -> io::Result<()> {
    if player.play(rt, call, said) {
        return tell(rt, said, false);
    }
    said.text.clear();
    if player.play(rt, call, said) {
        return tell(rt, said, true);
    }
    println!(rt; "no answer")
}

/// Plays a call. Where there is no room to tell what it came to, there is some at the second time.
fn play_call<P: Player>(rt: &HostRuntime, player: &mut P, call: &str) -> io::Result<()> {
    let room = match Said::empty(rt.alloc()) {
        Ok(said) => Ok(said),
        Err(_) => Said::empty(rt.alloc()),
    };
    match room {
        Ok(mut said) => play_twice(rt, player, call, &mut said),
        Err(_) => println!(rt; "no room"),
    }
}

/// Writes a line, and the answer to it where it is a call.
fn show<P: Player>(rt: &HostRuntime, player: &mut P, line: &str) -> io::Result<()> {
    println!(rt; "{line}")?;
    match line.strip_prefix("> ") {
        Some(call) => play_call(rt, player, call),
        None => Ok(()),
    }
}

/// Plays the lines of standard input. One that begins with `> ` is a call; it is written again, with
/// its answer below it. Where memory was refused to it, the line `(again)` comes first, with what the
/// refused call left behind, and then the answer once there was memory. All other lines are written
/// as they are.
pub fn play_all<P: Player>(rt: &HostRuntime, player: &mut P) -> io::Result<()> {
    for line in rt.lines(rt.alloc()) {
        let line = line?;
        show(rt, player, line.as_str())?;
    }
    Ok(())
}
