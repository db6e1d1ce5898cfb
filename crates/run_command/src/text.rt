//! The text of a run.
ghost use Rattle.std.specs.Prelude.{◌≡◌, IfOk, string_bytes};
ghost use Rattle.run_command.specs.Run.{IsRunText, run_line};

use attributes::Text;
use site::Site;
use std::alloc::{AllocError, Global};
use views::Query;

/// A run's text: how many events were read, how many of them had no number, how many the site has
/// now, and its summary.
pub fn run_text(alloc: Global, read: u128, refused: u128, site: &Site) -> Result<Text, AllocError>
    ensures { IfOk result (IsRunText read refused site.now) }
{
    let mut text = first_line(alloc, read, refused, site.arrived())?;
    text.push_str(site.lines(Query::Cover)?.as_str())?;
    Ok(Text::from_string(text))
}

/// The line of the counts of a run.
fn first_line(alloc: Global, read: u128, refused: u128, held: u64) -> Result<String, AllocError>
    ensures { IfOk result (λ line. string_bytes line ≡ run_line read refused held) }
{
    let line = format!(in alloc; "read {read} refused {refused} held {held}\n")?;
    Ok(line)
}
