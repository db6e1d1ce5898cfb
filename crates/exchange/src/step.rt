//! Steps of a schedule among sites, which are numbered from 0.

ghost use Rattle.std.specs.Prelude.{◌≡◌, ◌<◌, ◌↔◌, ◌++◌, ◌∷◌, [], length, slice_get, Some, IfErr, IsTrue, OnErr, OnOk};
ghost use Rattle.std.specs.List.{AllByRecursion};
ghost use Rattle.exchange.specs.Schedule.{FitsIn};

use attributes::Batch;
use std::alloc::{AllocFailed, Global};
use std::marker::Model;

/// A step of a schedule.
#[derive(Drop)]
pub enum Step {
    /// A site takes a batch.
    Deliver { site: u32, batch: Batch },
    /// The second site takes what it lacks of the first, by the numbers and digests of both.
    Gossip { from: u32, to: u32 },
    /// The second site takes all events of the first.
    Scrub { from: u32, to: u32 },
    /// What a site has taken outlasts a restart from then on.
    Flush { site: u32 },
    /// A site has again what was flushed last, and nothing else.
    Restart { site: u32 },
}

/// Steps in an order.
#[derive(Drop)]
pub struct Steps {
    items: Vec<Step>,
}

impl Model for Steps {
    ghost use Rattle.std.specs.Prelude.{List};
    ghost use Rattle.std.specs.Coded.{coded_list};
    ghost use Rattle.exchange.specs.contracts.step.Step as step;
    ghost use Rattle.exchange.specs.declared.step.Step.{Step};

    ghost Value = { List Step };

    ghost coded = { coded_list step.the_row.coded };

    ghost view = { λ s. s.items.items };
}

impl Step {
    /// Whether each site of the step of a schedule is one of so many.
    fn fits(&self, sites: u32) -> bool
        ensures { IsTrue result ↔ FitsIn sites self.now }
    {
        match self {
            Step::Deliver { site, .. } => *site < sites,
            Step::Gossip { from, to } => *from < sites && *to < sites,
            Step::Scrub { from, to } => *from < sites && *to < sites,
            Step::Flush { site } => *site < sites,
            Step::Restart { site } => *site < sites,
        }
    }
}

impl Steps {
    /// A schedule of exchanges without a step. It takes no memory.
    pub fn empty(alloc: Global) -> Steps
        ensures { result ≡ [] }
    {
        Steps {
            items: Vec::new(alloc),
        }
    }

    /// How many steps the schedule of exchanges has.
    pub fn len(&self) -> u64
        ensures { result ≡ length self.now }
    {
        self.items.len() as u64
    }

    /// The step of the schedule of exchanges at a place, from 0.
    pub fn at(&self, place: u64) -> &Step
        requires { place < length self.now }
        ensures { slice_get self.now place ≡ Some result.now }
    {
        &self.items[place as usize]
    }

    /// Adds a step at the schedule's end, or hands it back where memory is refused.
    pub fn push(&mut self, step: Step) -> Result<(), AllocFailed<Step>>
        ensures ok { OnOk result (self.new ≡ self.old ++ step ∷ []) }
        ensures err { OnErr result (self.new ≡ self.old) }
        ensures back { IfErr result (λ f. f.value ≡ step) }
    {
        self.items.push(step)
    }

    /// Whether each site of each step of the schedule is one of so many.
    pub fn fits(&self, sites: u32) -> bool
        ensures { IsTrue result ↔ AllByRecursion (FitsIn sites) self.now }
    {
        for step in &self.items {
            if !step.fits(sites) {
                return false;
            }
        }
        true
    }
}
