//! Why a stream of lines into a database ended.

use crate::fault::CommandFault;
use line_intake::LineFault;
use thiserror::Error;

/// Why a stream ended before its input.
#[derive(Clone, Copy, PartialEq, Eq, Debug, Drop, Error)]
pub enum StreamFault {
    /// The input couldn't be read on.
    #[error("{0}")]
    Input(LineFault),
    /// The database refused lines, or memory for their acknowledgements was refused.
    #[error("{0}")]
    Database(CommandFault),
    /// An acknowledgement couldn't be written.
    #[error("unwritten")]
    Unwritten,
}
