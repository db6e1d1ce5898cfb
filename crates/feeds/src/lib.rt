//! Workers that bring events to a desk, or ask it, and report what came of it.
#![tactic(auto)]

mod aside;
mod asking;
mod feeding;
mod flush;
mod permit;
mod pulling;
mod report;
mod serving;

pub use aside::{Aside, Idle};
pub use asking::{Answers, Asked, ask};
pub use feeding::feed;
pub use pulling::{pull, pull_from};
pub use report::{Report, WorkerEnd};
pub use serving::{Jobs, Questions, ServeFault, Served, serve};
