//! What the operating system gives: words, and the standard streams' places.
use attributes::Text;
use std::fs::File;
use std::rt::Files;
use std::{env, io};

/// Three handles on the system's null device, for reading alone. Where a standard stream is closed,
/// one takes its place, so that no file that is opened later does; a write there still fails.
pub fn taken<R: Files>(rt: &R) -> [Option<R::File>; 3] {
    [null_device(rt), null_device(rt), null_device(rt)]
}

/// A handle on the operating system's null device, where there is one.
fn null_device<R: Files>(rt: &R) -> Option<R::File> {
    File::open(rt, "/dev/null").ok()
}

/// The operating system's words after the program's name.
pub fn words(rt: &HostRuntime) -> io::Result<Vec<Text>> {
    let mut words = Vec::new(rt.alloc());
    for word in env::args(rt)?.skip(1) {
        words.push(Text::from_string(word))?;
    }
    Ok(words)
}
