//! Several hosts' plans, run interleaved.
ghost use Rattle.std.specs.Prelude.{◌≡◌, ◌<◌, [], ◌∷◌, Some, map, length, slice_get, IfOk, IfErr};
ghost use Rattle.std.specs.List.{list_all};

use crate::{Place, RunFault, Runner, Tree};
use reown_plan::Plan;
use std::alloc::{AllocError, Global};
use std::marker::Model;

/// What happens to a host, which is told by its index: hosts count from 0, in order of the plans.
#[derive(Clone, Copy, Debug, PartialEq, Eq)]
pub enum Event {
    /// One step of the host's runner.
    Advance(u32),
    /// The host stops, and its runner starts again.
    Stop(u32),
}

/// Why an event was refused.
#[derive(Clone, Copy, Debug, PartialEq, Eq)]
pub enum EventFault {
    /// 36, 37, 38, 44: the host's runner was refused.
    Run(RunFault),
    /// 39: there is no host of this index.
    NoSuchHost,
}

/// Which event was refused, and why.
#[derive(Clone, Copy, Debug, PartialEq, Eq)]
pub struct DriveFault {
    /// The index of the event; events count from 0.
    pub event: u64,
    /// Why it was refused.
    pub fault: EventFault,
}

/// The runner of each host with its tree.
#[derive(Drop)]
pub struct Campaign<'p, 'a, T> {
    runners: Vec<Runner<'p, 'a>>,
    trees: Vec<T>,
}

impl<'p, 'a, T> Model for Campaign<'p, 'a, T> {
    ghost use Rattle.std.specs.Prelude.{◌≡◌, length};
    ghost use Rattle.reown_runner.specs.World.{World};

    ghost Value = { World T };

    ghost view = { λ c. record { runners = c.runners.items; trees = c.trees.items } };

    ghost invariant = { λ c. length c.runners.items ≡ length c.trees.items };
}

ghost use Rattle.reown_runner.specs.Campaign.{host_of, host_event, refused_of, happened, Goes};
ghost use Rattle.reown_runner.specs.Campaign.{EachGoes, is_done, event_refusal, IsForHost};
ghost use Rattle.reown_runner.specs.Campaign.{AreForHosts};
ghost use Rattle.reown_runner.specs.Run.{refusal};
ghost use Rattle.reown_runner.specs.RunnerData.{RunnerData, starting};

impl Event {
    fn host(self) -> u32
        ensures { result ≡ host_of self }
    {
        match self {
            Event::Advance(host) => host,
            Event::Stop(host) => host,
        }
    }
}

// An event of one host.
fn happen_to<T: Tree>(runner: &mut Runner, tree: &mut T, event: Event) -> Result<(), RunFault>
    ensures { Goes T.known (record { runner = runner.old; tree = tree.old }) (host_event event ∷ [])
        (refusal result) (record { runner = runner.new; tree = tree.new }) }
{
    match event {
        Event::Advance(_) => match runner.advance(tree) {
            Ok(_) => Ok(()),
            Err(fault) => Err(fault),
        },
        Event::Stop(_) => {
            tree.reopen();
            runner.restart();
            Ok(())
        }
    }
}

impl<'p, 'a, T> Campaign<'p, 'a, T> {
    /// A runner at its start for each plan, with the trees. One runner of memory a plan, and one
    /// pass over its text.
    ///
    /// # Errors
    ///
    /// Want of memory, with the trees.
    pub fn new(
        alloc: Global,
        plans: &'p [Plan<'a>],
        trees: Vec<T>,
    ) -> Result<Self, (AllocError, Vec<T>)>
        requires { length plans.now ≡ length trees.items }
        ensures runners { IfOk result (λ campaign. campaign.runners ≡ map starting plans.now) }
        ensures trees { IfOk result (λ campaign. campaign.trees ≡ trees.items) }
        ensures back { IfErr result (λ refusal. refusal.1.items ≡ trees.items) }
    {
        let mut runners = match Vec::with_capacity(alloc, plans.len()) {
            Ok(runners) => runners,
            Err(error) => return Err((error, trees)),
        };
        for plan in plans {
            if runners.push(Runner::new(plan)).is_err() {
                return Err((AllocError, trees));
            }
        }
        Ok(Campaign { runners, trees })
    }

    /// Whether the plan of a host is done; hosts count from 0. Constant time.
    pub fn is_done(&self, host: usize) -> bool
        requires { host < length self.now.runners }
        ensures { (runner : RunnerData) × (slice_get self.now.runners host ≡ Some runner)
            × (result ≡ is_done runner.place) }
    {
        let runner = &self.runners[host];
        runner.place() == Place::Done
    }

    /// The trees in order of the hosts, as they are. The runners go; no tree is copied.
    pub fn into_trees(self) -> Vec<T>
        ensures { result.items ≡ self.entry.trees }
    {
        let Campaign { runners, trees } = self;
        drop(runners);
        trees
    }
}

impl<'p, 'a, T: Tree> Campaign<'p, 'a, T> {
    fn happen(&mut self, event: Event) -> Result<(), EventFault>
        ensures goes { EachGoes T.known self.old (event ∷ []) (event_refusal event result)
            self.new }
        ensures hosts { IsForHost event (length self.old.trees) result }
        ensures runners { length self.new.runners ≡ length self.old.runners }
        ensures trees { length self.new.trees ≡ length self.old.trees }
    {
        let host = event.host() as usize;
        if host >= self.trees.len() {
            return Err(EventFault::NoSuchHost);
        }
        if let Err(fault) = happen_to(&mut self.runners[host], &mut self.trees[host], event) {
            return Err(EventFault::Run(fault));
        }
        Ok(())
    }

    /// Lets the events happen in order, up to the first that is refused: those before it have
    /// happened, those after it have not. Answers whether every host is done. One advance or stop
    /// an event, with just the writes and syncs of these advances, and one pass over the hosts. It
    /// takes no memory.
    ///
    /// Of the trees it says what the contract of `Tree` says, so that it holds for whatever image a
    /// stop leaves. Which one that is, as by the choice of a `MemTree`, it does not say.
    ///
    /// # Errors
    ///
    /// The first event that is refused: as `Runner::advance` refuses it, or for want of its host.
    pub fn drive(&mut self, events: &[Event]) -> Result<bool, DriveFault>
        ensures goes { EachGoes T.known self.old (happened events.now result)
            (λ host. refused_of host events.now result) self.new }
        ensures hosts { AreForHosts events.now (length self.old.trees) result }
        ensures done { IfOk result
            (λ all. all ≡ list_all (λ runner. is_done runner.place) self.new.runners) }
        ensures runners { length self.new.runners ≡ length self.old.runners }
        ensures trees { length self.new.trees ≡ length self.old.trees }
    {
        for (i, event) in events.iter().enumerate() {
            if let Err(fault) = self.happen(*event) {
                return Err(DriveFault {
                    event: i as u64,
                    fault,
                });
            }
        }
        Ok(all_done(&self.runners))
    }
}

fn all_done(runners: &[Runner]) -> bool
    ensures { result ≡ list_all (λ runner. is_done runner.place) runners.now }
{
    runners.iter().all(|runner| runner.place() == Place::Done)
}
