//! Schedules, run.

ghost use Rattle.std.specs.Prelude.{◌≡◌, ◌≢◌, ◌<◌, List, [], length, take, vec_len, IfErr, IfOk, OnErr, OnOk};
ghost use Rattle.std.specs.List.{AllByRecursion};
ghost use Rattle.inbox.specs.KeyOrder.{key_cmp};
ghost use Rattle.inbox.specs.Ordered.{append_new};
ghost use Rattle.inbox.specs.Sets.{set_of};
ghost use Rattle.exchange.specs.Lacking.{lacking};
ghost use Rattle.exchange.specs.Place.{Place, start};
ghost use Rattle.exchange.specs.Schedule.{FitsIn, IsCutShort, IsShortOfNext, MayStopAt, world_after};
ghost use Rattle.exchange.specs.Standing.{StandAtPlaces, StoppedAt, StoppedIn};
ghost use Rattle.exchange.specs.steps.Given.{Gives, after_made, site_at};

use crate::step::{Step, Steps};
use crate::transfer::{gossip, scrub};
use crate::world::{Hosted, World};
use attributes::Batch;
use inbox::laws::sets_are_members;
use site::Site;
use std::alloc::{AllocError, Global};
use std::mem;

/// Where want of memory stopped a run: how many steps were done, and how many events of its list
/// the next step took.
#[derive(Clone, Copy, PartialEq, Eq, Debug)]
pub struct Stop {
    pub done: u64,
    pub part: u64,
}

/// A run that was stopped for want of memory: the world as it then was, how many steps were done,
/// and how many events of its list the next step took.
#[derive(Drop)]
pub struct Stopped {
    pub world: World,
    pub done: u64,
    pub part: u64,
}

/// A site of the exchange takes copies of a batch. If memory is wanted, how many events it took.
fn deliver(hosts: &mut Vec<Hosted>, to: usize, batch: &Batch) -> Result<(), u64>
    requires { to < vec_len hosts.old }
    ensures sites { vec_len hosts.new ≡ vec_len hosts.old }
    ensures gives { Gives hosts.old.items hosts.new.items to batch.now result }
    ensures short { IfErr result (λ part.
        IsShortOfNext (set_of (site_at hosts.old.items to)) part batch.now) }
{
    // A site has what its set has.
    sets_are_members();
    let host = &mut hosts[to];
    match host.site.take_copies(batch) {
        Ok(_) => Ok(()),
        Err(short) => Err(short.taken),
    }
}

/// One gossip: a site takes what it lacks of another. After want of memory the answer is how many
/// events it took.
fn gossip_between(alloc: Global, hosts: &mut Vec<Hosted>, from: usize, to: usize) -> Result<(), u64>
    requires giver { from < vec_len hosts.old }
    requires taker { to < vec_len hosts.old }
    requires others { from ≢ to }
    ensures sites { vec_len hosts.new ≡ vec_len hosts.old }
    ensures gives { Gives hosts.old.items hosts.new.items to (lacking
        (set_of (site_at hosts.old.items from)) (set_of (site_at hosts.old.items to))) result }
    ensures short { IfErr result (λ part. IsCutShort part
        (lacking (set_of (site_at hosts.old.items from)) (set_of (site_at hosts.old.items to)))) }
    ensures giver { OnErr result (set_of (site_at hosts.old.items from) ≢ []) }
{
    // Both sites are lent at once, so the second is taken out meanwhile.
    let mut site = mem::replace(&mut hosts[to].site, Site::empty(alloc));
    let done = gossip(&hosts[from].site, &mut site);
    hosts[to].site = site;
    match done {
        Ok(_) => Ok(()),
        Err(short) => Err(short.taken),
    }
}

/// One scrub: a site takes all of another. If memory is wanted, how many events it took.
fn scrub_between(alloc: Global, hosts: &mut Vec<Hosted>, from: usize, to: usize) -> Result<(), u64>
    requires giver { from < vec_len hosts.old }
    requires taker { to < vec_len hosts.old }
    requires others { from ≢ to }
    ensures sites { vec_len hosts.new ≡ vec_len hosts.old }
    ensures gives { Gives hosts.old.items hosts.new.items to
        (set_of (site_at hosts.old.items from)) result }
    ensures short { IfErr result (λ part. IsShortOfNext (set_of (site_at hosts.old.items to)) part
        (set_of (site_at hosts.old.items from))) }
{
    // A site has what its set has.
    sets_are_members();
    // Both sites are lent at once, so the second is taken out meanwhile.
    let mut site = mem::replace(&mut hosts[to].site, Site::empty(alloc));
    let done = scrub(&hosts[from].site, &mut site);
    hosts[to].site = site;
    match done {
        Ok(_) => Ok(()),
        Err(short) => Err(short.taken),
    }
}

/// A site of the first arrivals that outlast a restart, in a schedule of exchanges.
fn restarted(alloc: Global, host: &Hosted) -> Result<Site, AllocError>
    ensures arrivals { IfOk result (λ site. site
        ≡ append_new key_cmp [] (take host.now.kept host.now.site)) }
    ensures set { IfOk result (λ site. set_of site ≡ set_of (take host.now.kept host.now.site)) }
    ensures err { OnErr result (0 < host.now.kept) }
{
    let mut batch = Batch::empty(alloc);
    for i in 0..host.kept.min(host.site.arrived()) {
        batch.push(host.site.arrived_at(i).copy()?)?;
    }
    let mut site = Site::empty(alloc);
    match site.take_batch(&mut batch) {
        Ok(_) => Ok(site),
        Err(_) => Err(AllocError),
    }
}

/// One step of a schedule. After want of memory, how many of the step's events the site took.
fn make_step(alloc: Global, hosts: &mut Vec<Hosted>, step: &Step) -> Result<(), u64>
    requires { FitsIn (vec_len hosts.old) step.now }
    ensures sites { vec_len hosts.new ≡ vec_len hosts.old }
    ensures made { (w : List Place) → StandAtPlaces hosts.old.items w
        → StandAtPlaces hosts.new.items (after_made result step.now w) }
    ensures stops { IfErr result (λ part. (w : List Place) → StandAtPlaces hosts.old.items w
        → MayStopAt part step.now w) }
{
    // A site keeps each event once, and what it has already adds nothing.
    sets_are_members();
    match step {
        Step::Deliver { site, batch } => deliver(hosts, *site as usize, batch),
        Step::Gossip { from, to } => {
            if *from == *to {
                return Ok(());
            }
            gossip_between(alloc, hosts, *from as usize, *to as usize)
        }
        Step::Scrub { from, to } => {
            if *from == *to {
                return Ok(());
            }
            scrub_between(alloc, hosts, *from as usize, *to as usize)
        }
        Step::Flush { site } => {
            let host = &mut hosts[*site as usize];
            host.kept = host.site.arrived();
            Ok(())
        }
        Step::Restart { site } => {
            let host = &mut hosts[*site as usize];
            let Ok(again) = restarted(alloc, host) else {
                return Err(0);
            };
            host.site = again;
            Ok(())
        }
    }
}

/// So many sites that have nothing, before a schedule of exchanges.
fn empty_sites(alloc: Global, sites: u32) -> Result<Vec<Hosted>, AllocError>
    ensures ok { IfOk result (λ hosts. StandAtPlaces hosts.items (start sites)) }
    ensures err { OnErr result (sites ≢ 0) }
{
    let mut hosts = Vec::new(alloc);
    for i in 0..sites {
        hosts.push(Hosted {
            site: Site::empty(alloc),
            kept: 0,
        })?;
    }
    Ok(hosts)
}

/// Runs a schedule among sites. After want of memory the answer is where it stopped.
fn run_steps(alloc: Global, hosts: &mut Vec<Hosted>, steps: &Steps) -> Result<(), Stop>
    requires { AllByRecursion (FitsIn (vec_len hosts.old)) steps.now }
    ensures sites { vec_len hosts.new ≡ vec_len hosts.old }
    ensures done { OnOk result ((w : List Place) → StandAtPlaces hosts.old.items w
        → StandAtPlaces hosts.new.items (world_after steps.now w)) }
    ensures stopped { IfErr result (λ s. (w : List Place) → StandAtPlaces hosts.old.items w
        → StoppedIn w steps.now hosts.new.items s.done s.part) }
{
    for done in 0..steps.len() {
        if let Err(part) = make_step(alloc, hosts, steps.at(done)) {
            return Err(Stop { done, part });
        }
    }
    Ok(())
}

impl World {
    /// A world of so many sites that have nothing, which exchange. `AllocError` where there is no
    /// memory for the list of them, of which there is to be one at least.
    pub fn begin(alloc: Global, sites: u32) -> Result<World, AllocError>
        ensures ok { IfOk result (λ world. StandAtPlaces world (start sites)) }
        ensures err { OnErr result (sites ≢ 0) }
    {
        let hosts = empty_sites(alloc, sites)?;
        Ok(World { hosts })
    }

    /// Runs a schedule of exchanges on. Where want of memory stops it, the sites stand after the
    /// steps that were done and the first events of the next one. The time is that of the steps.
    pub fn run(&mut self, alloc: Global, steps: &Steps) -> Result<(), Stop>
        requires { AllByRecursion (FitsIn (length self.old)) steps.now }
        ensures sites { length self.new ≡ length self.old }
        ensures done { OnOk result ((w : List Place) → StandAtPlaces self.old w
            → StandAtPlaces self.new (world_after steps.now w)) }
        ensures stopped { IfErr result (λ s. (w : List Place) → StandAtPlaces self.old w
            → StoppedIn w steps.now self.new s.done s.part) }
    {
        run_steps(alloc, &mut self.hosts, steps)
    }
}

/// Runs a schedule from so many sites that have nothing. Where want of memory stops it, the world
/// stands after the steps that were done and the first events of the next one; where not even the
/// sites could be made, of which there was to be one at least, it has none. `World::begin` and
/// `World::run` tell the two apart.
pub fn run(alloc: Global, sites: u32, steps: &Steps) -> Result<World, Stopped>
    requires { AllByRecursion (FitsIn sites) steps.now }
    ensures done { IfOk result (λ world. StandAtPlaces world (world_after steps.now (start sites))) }
    ensures stopped { IfErr result (λ s. StoppedAt sites steps.now s.world s.done s.part) }
{
    let Ok(mut world) = World::begin(alloc, sites) else {
        return Err(Stopped {
            world: World {
                hosts: Vec::new(alloc),
            },
            done: 0,
            part: 0,
        });
    };
    match world.run(alloc, steps) {
        Ok(()) => Ok(world),
        Err(stop) => Err(Stopped {
            world,
            done: stop.done,
            part: stop.part,
        }),
    }
}
