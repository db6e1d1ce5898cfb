//! Sites that run a schedule.

ghost use Rattle.std.specs.Prelude.{◌≡◌, ◌<◌, length, map, slice_get, Some};

use site::Site;
use std::marker::Model;

/// A running site, and how many of its first arrivals outlast a restart.
#[derive(Drop)]
pub struct Hosted {
    pub site: Site,
    pub kept: u64,
}

/// Running sites, numbered from 0.
#[derive(Drop)]
pub struct World {
    pub(crate) hosts: Vec<Hosted>,
}

impl Model for World {
    ghost use Rattle.std.specs.Prelude.{List};
    ghost use Rattle.std.specs.Coded.{coded_list};
    ghost use Rattle.exchange.specs.contracts.world.Hosted as hosted;
    ghost use Rattle.exchange.specs.declared.world.Hosted.{Hosted};

    ghost Value = { List Hosted };

    ghost coded = { coded_list hosted.the_row.coded };

    ghost view = { λ w. w.hosts.items };
}

impl World {
    /// How many sites the schedule's world has.
    pub fn sites(&self) -> u64
        ensures { result ≡ length self.now }
    {
        self.hosts.len() as u64
    }

    /// The site of a number in the schedule's world.
    pub fn site(&self, i: u64) -> &Site
        requires { i < length self.now }
        ensures { slice_get (map (λ h. h.site) self.now) i ≡ Some result.now }
    {
        &self.hosts[i as usize].site
    }

    /// How many of the site's first arrivals outlast a restart in the schedule.
    pub fn kept(&self, i: u64) -> u64
        requires { i < length self.now }
        ensures { slice_get (map (λ h. h.kept) self.now) i ≡ Some result }
    {
        self.hosts[i as usize].kept
    }
}
