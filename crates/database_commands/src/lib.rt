//! The commands over a database: from an open connection to the printed text, and by the name of its
//! file.
#![tactic(auto)]

mod command;
mod commands;
mod described;
mod file;
mod files;
mod intake;
mod named;
mod numberers;
mod opener;
mod page;
mod service;
mod stream;
mod told;

pub use command::{Command, CommandEnd};
pub use commands::{
    ArrivalPage, ArrivalPages, DeltaPage, DeltaPages, Describe, GiveOrder, HeldEvents, RelayAll,
    RelayPage, ScrubPage, ScrubPages, SummaryLine, TakeEvents, TellService,
};
pub use described::describe;
pub use file::{close, open, open_over};
pub use intake::take;
pub use named::{describe_named, follow_named, perform_named, perform_there};
pub use numberers::number_opened;
pub use opener::Opener;
pub use page::{arrival_pages, arrivals, delta, delta_pages, held, scrub, scrub_pages, summary};
pub use service::{order, relay, relay_all};
pub use stream::{Streamed, follow};
pub use told::tell_service;
