//! Hosts a site: a system of its own, and its processes in turns.
ghost use Rattle.std.specs.Prelude.{◌≡◌, true, false, Err, IfErr, IfOk, OnOk};
ghost use Rattle.iol_core.specs.Prelude.{IsInRange};
ghost use Rattle.flash_lite.specs.HostedSite.{HostsIfHonest, HostsOver, IsNewIfHonest};
ghost use Rattle.flash_lite.specs.Setup as spec;
ghost use Rattle.flash_lite.specs.SiteStart.{Starts, WhyNone};

use crate::actor::Actor;
use crate::setup::{is_in_range, setup};
use crate::site::Site;
use iol_back::backing::Backing;
use iol_core::configuration::Config;
use iol_core::events::Reply;
use iol_core::refusals::Refusal;
use iol_proc::choice::Choice;
use iol_proc::world::World;
use iol_system::system::System;
use std::alloc::Global;

/// The result of hosting a site.
#[derive(Drop)]
pub struct Hosted<B: Backing> {
    /// Its system and processes, in their final state.
    pub world: World<B, Actor>,

    /// The reply to each choice.
    pub replies: Vec<Reply>,

    /// Whether all were idle at the end.
    pub idle: bool,
}

/// Sets a site up in a new system with these parameters over a store, executes these choices in
/// its world, and then gives turns in rounds, up to a maximum number, until all are idle. Invalid
/// parameters or an invalid site are `BadRange`. Any other refusal is that of the first refused
/// call of the setup, or `Memory`; then all is dropped.
///
/// With an honest store, if external calls leave the site and its processes unchanged, the result
/// is right: [`hosted_is_right`](crate::laws::hosted_is_right), and
/// [`harmless_is_right`](crate::laws::harmless_is_right) for choices that can be recognized as
/// such. Without scripts all become idle if the number of turns suffices, and each connection is
/// served: [`hosted_files_become_idle`](crate::laws::hosted_files_become_idle).
pub fn host<B: Backing + Drop>(
    alloc: Global,
    config: Config,
    backing: B,
    site: &Site,
    choices: &[Choice],
    turns: usize,
) -> Result<Hosted<B>, Refusal>
    ensures sizes { ¬ IsInRange config → result ≡ Err Refusal.BadRange }
    ensures range { spec.is_in_range site.now ≡ false → result ≡ Err Refusal.BadRange }
    ensures in_range { OnOk result (IsInRange config × (spec.is_in_range site.now ≡ true)) }
    ensures refused { IfErr result (WhyNone config (B.disk backing) site.now) }

    // Over any store, the world is run by a new system with these parameters, in which the site
    // was set up. Over an honest store it is the world of the site, and its run is one over the
    // copying machine.
    ensures shared { IfOk result (λ h. HostsOver config (B.disk backing) site.now choices.now
        h.replies.items turns h.idle h.world) }
    ensures hosts { IfOk result (λ h. HostsIfHonest (B.disk backing) site.now choices.now
        h.replies.items turns h.idle h.world) }
{
    let mut world = new_world(alloc, config, backing, site)?;
    let replies = match world.run(choices) {
        Ok(replies) => replies,
        Err(_) => {
            drop(world);
            return Err(Refusal::Memory);
        }
    };
    let idle = world.until_idle(turns);
    Ok(Hosted {
        world,
        replies,
        idle,
    })
}

// Creates the world of a site that is set up.
fn new_world<B: Backing + Drop>(
    alloc: Global,
    config: Config,
    backing: B,
    site: &Site,
) -> Result<World<B, Actor>, Refusal>
    ensures sizes { ¬ IsInRange config → result ≡ Err Refusal.BadRange }
    ensures range { spec.is_in_range site.now ≡ false → result ≡ Err Refusal.BadRange }
    ensures in_range { OnOk result (IsInRange config × (spec.is_in_range site.now ≡ true)) }
    ensures refused { IfErr result (WhyNone config (B.disk backing) site.now) }
    ensures starts { IfOk result (λ w. Starts config (B.disk backing) site.now w) }
    ensures honest { IfOk result (λ w. w.machine.disk.honest ≡ (B.disk backing).honest) }
    ensures new { IfOk result (λ w. IsNewIfHonest (B.disk backing) site.now w) }
{
    if !is_in_range(site) {
        return Err(Refusal::BadRange);
    }
    let mut system = System::new(alloc, config, backing)?;
    let actors = match setup(alloc, &mut system, site) {
        Ok(actors) => actors,
        Err(refusal) => {
            drop(system);
            return Err(refusal);
        }
    };
    Ok(World::new(alloc, system, actors)?)
}
