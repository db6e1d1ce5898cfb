//! `site`: keeps CloudEvents of several regions in step, and answers questions about them.
#![tactic(auto)]

mod system;

use database_commands::Opener;
use site_program::exit;
use site_system::{FileRuns, StatusLine};
use std::io::IsTerminal;
use std::process::ExitCode;
use system::{taken, words};

fn main(rt: HostRuntime) -> ExitCode {
    // Kept to the end, so that no file takes the place of a stream that is closed.
    let _taken = taken(&rt);
    let line = StatusLine::on(rt.stderr(), rt.stdout().is_terminal(), rt.alloc());
    let mut out = line.counting(rt.stdout());
    let databases = Opener::new(&rt);
    exit(
        &rt,
        &databases,
        &FileRuns::over(databases),
        words(&rt),
        &mut out,
        &mut rt.stderr(),
        &line,
    )
}
