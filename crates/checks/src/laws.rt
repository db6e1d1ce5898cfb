//! The laws are functions, which do nothing when they run.

use exchange::laws::exchanges_unite;
use site::laws::{sites_answer_alike, taking_unites};

#[test]
fn laws_can_be_called() {
    sites_answer_alike();
    taking_unites();
    exchanges_unite();
}
