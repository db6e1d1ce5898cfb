//! What each call of the library does to the site, the outbox or the numberer that its caller holds.
#![tactic(auto)]

mod calls;
mod file_calls;
mod held;
pub mod laws;
mod number_calls;
mod numbers_held;
mod offers;
mod outbox_calls;
mod outbox_held;
mod part_calls;
mod set_calls;
mod site_calls;

pub use calls::{PIECE, Piece, Reply};
pub use held::{Held, HeldSite};
pub use number_calls::{numbers_close, numbers_number, numbers_open, numbers_read};
pub use numbers_held::NumbersHeld;
pub use offers::{Head, Offers};
pub use outbox_calls::{
    OutboxReply, outbox_close, outbox_open, outbox_order, outbox_read, outbox_rows,
};
pub use outbox_held::OutboxHeld;
pub use part_calls::{CombineReply, source_part};
pub use set_calls::{Lag, Name, bytes_test};
pub use site_calls::{
    site_answer, site_close, site_combine, site_compare, site_copy, site_get, site_keep, site_name,
    site_offer, site_open, site_open_files, site_part, site_read, site_split, site_take, site_tell,
};
