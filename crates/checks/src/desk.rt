//! A site's own calls are what its desk answers.

use crate::shared::takes_and_tells;
use site::{DeskFault, Gate, Site, Wide};

#[test]
fn a_site_is_a_desk(rt: HostRuntime) {
    let is_so = {
        let mut site = Site::empty(rt.alloc());
        takes_and_tells(rt.alloc(), &mut site)
    };
    assert!(rt; is_so);
}

#[test]
fn the_fault_of_a_desk_has_a_number(rt: HostRuntime) {
    let fault = DeskFault::OutOfMemory { taken: 7, fresh: 3 };
    assert!(rt; fault.number() == 1);
    assert!(rt; Wide.before(0, 1).is_ok());
}
