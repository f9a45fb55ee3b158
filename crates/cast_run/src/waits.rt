//! Who takes the next step of a run by a schedule: the one that the schedule chooses, unless an actor has waited too long.
ghost use Rattle.std.specs.Prelude.{◌≡◌, ◌<◌, ◌+◌, ◌*◌, ◌^◌, [], length, slice_get, Some, IfOk, IfNone, IfSome};
ghost use Rattle.cast_run.specs.Waits.{AreNewActors, IsNext, IsOldest, StepsNext, HasLeft, NoneWaits, NoneWaitsTooLong, WaitsLongest};

use crate::schedule::Schedule;
use std::alloc::{AllocError, Global};
use std::marker::Model;

/// An engine or a carrier by its node, or a job by its place.
#[derive(Clone, Copy)]
pub enum Place {
    Engine(usize),
    Carrier(usize),
    Job(usize),
}

/// An actor that has not ended. `last` says how many steps the run had taken after the actor's last one. It is 0 before
/// the actor's first.
#[derive(Clone, Copy)]
pub struct LiveActor {
    pub place: Place,
    pub last: u64,
}

/// The actors of a run that have not ended, and how long each has waited for its next step.
#[derive(Drop)]
pub struct Waits {
    // A schedule chooses one by its place in this list.
    live: Vec<LiveActor>,
    // How many steps the run took.
    steps: u64,
    // No actor's last step was before this one.
    oldest: u64,
    // After how many steps of others an actor goes first.
    longest: u64,
    // How many actors there were at the beginning.
    most: u64,
}

impl Model for Waits {
    ghost use Rattle.cast_run.specs.Waits.{WaitsState, KeepsWaits};

    ghost Value = { WaitsState };

    ghost view = { λ w. record {
      live = w.live.items;
      steps = w.steps;
      longest = w.longest;
      most = w.most;
    } };

    ghost invariant = { λ w. KeepsWaits w.live.items w.steps w.oldest w.longest w.most };
}

impl Waits {
    /// An engine and a carrier of each node, and these jobs. None has taken a step. An actor that has waited for
    /// `longest` steps takes the next.
    pub fn new(alloc: Global, nodes: usize, jobs: usize, longest: u64) -> Result<Waits, AllocError>
        ensures { IfOk result (λ w. (w.steps ≡ 0) × (w.longest ≡ longest)
            × (w.most ≡ 2 * nodes + jobs) × AreNewActors nodes jobs w.live) }
    {
        let live = everyone(alloc, nodes, jobs)?;
        let most = live.len() as u64;
        Ok(Waits {
            live,
            steps: 0,
            oldest: 0,
            longest,
            most,
        })
    }

    /// The place in the list of who takes the next step, if an actor is left: the schedule's choice, unless some have
    /// waited too long. Then it is the one that has waited longest. So none ever waits for as many steps as `longest`
    /// and the number of actors make.
    pub fn next<S: Schedule>(&mut self, schedule: &mut S) -> Option<usize>
        requires { self.old.steps + 1 < 2 ^ 64 }
        ensures none { IfNone result ((self.old.live ≡ []) × (self.new.steps ≡ self.old.steps)) }
        ensures next { IfSome result (λ place. StepsNext self.old place self.new) }
        ensures fair { NoneWaitsTooLong self.new }
    {
        let place = self.choose(schedule)?;
        self.count_step(place);
        Some(place)
    }

    /// Who is at a place of the list.
    pub fn at(&self, place: usize) -> Place
        requires { place < length self.now.live }
        ensures { (a : LiveActor) → slice_get self.now.live place ≡ Some a → result ≡ a.place }
    {
        self.live[place].place
    }

    /// Takes an actor that has ended out of the list; the last one takes its place.
    pub fn end(&mut self, place: usize)
        requires { place < length self.old.live }
        ensures { HasLeft self.old place self.new }
    {
        self.live.swap_remove(place);
    }

    // Who is next.
    fn choose<S: Schedule>(&mut self, schedule: &mut S) -> Option<usize>
        ensures same { self.new ≡ self.old }
        ensures none { IfNone result (self.old.live ≡ []) }
        ensures next { IfSome result (λ place. (a : LiveActor) × IsNext self.old place a) }
    {
        if self.live.is_empty() {
            return None;
        }
        if let Some(place) = self.find_overdue() {
            return Some(place);
        }
        Some(schedule.next(self.live.len() as u64) as usize)
    }

    // The place of who has waited longest, if that is too long.
    fn find_overdue(&mut self) -> Option<usize>
        requires { 0 < length self.old.live }
        ensures same { self.new ≡ self.old }
        ensures none { IfNone result (NoneWaits self.old.longest self.old) }
        ensures some { IfSome result (λ p. (a : LiveActor) × (slice_get self.old.live p ≡ Some a) × WaitsLongest self.old a) }
    {
        if self.steps - self.oldest < self.longest {
            return None;
        }
        let place = find_oldest(&self.live);
        self.oldest = self.live[place].last;
        if self.steps - self.oldest < self.longest {
            return None;
        }
        Some(place)
    }

    // Notes that the actor at a place takes a step.
    fn count_step(&mut self, place: usize)
        requires steps { self.old.steps + 1 < 2 ^ 64 }
        requires next { (a : LiveActor) × IsNext self.old place a }
        ensures next { StepsNext self.old place self.new }
        ensures fair { NoneWaitsTooLong self.new }
    {
        self.steps += 1;
        self.live[place].last = self.steps;
    }
}

// The place of an actor whose last step is the oldest.
fn find_oldest(live: &[LiveActor]) -> usize
    requires { 0 < length live.now }
    ensures { IsOldest live.now (length live.now) result }
{
    let mut oldest = 0;
    for place in 1..live.len() {
        if live[place].last < live[oldest].last {
            oldest = place;
        }
    }
    oldest
}

fn everyone(alloc: Global, nodes: usize, jobs: usize) -> Result<Vec<LiveActor>, AllocError>
    ensures { IfOk result (λ all. AreNewActors nodes jobs all.items) }
{
    let mut all = Vec::new(alloc);
    for node in 0..nodes {
        all.push(new_actor(Place::Engine(node)))?;
        all.push(new_actor(Place::Carrier(node)))?;
    }
    for place in 0..jobs {
        all.push(new_actor(Place::Job(place)))?;
    }
    Ok(all)
}

fn new_actor(place: Place) -> LiveActor
    ensures { result ≡ record { place = place; last = 0 } }
{
    LiveActor { place, last: 0 }
}
