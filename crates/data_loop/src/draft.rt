//! A loop while its epochs are added.
ghost use Rattle.std.specs.Prelude.{◌≡◌, ◌+◌, ℕ, List, IfOk, length};
ghost use Rattle.pw_graph.specs.SoundPlan.{IsSoundPlan};
ghost use Rattle.pw_graph.specs.declared.plan.Plan.{Plan};
ghost use Rattle.board_rule.specs.Known.{Known};
ghost use Rattle.cycle_model.specs.WavesFit.{WavesFit};
ghost use Rattle.data_loop.specs.Dealt.{AreLinksIn};
ghost use Rattle.data_loop.specs.Drafts.{HasFirst, HasAll, LacksEpochs, seats_of};
ghost use Rattle.data_loop.specs.Loops.{IsBetweenEpochs};
ghost use Rattle.data_loop.specs.LoopStart.{IsLoopOf};
ghost use Rattle.data_loop.specs.PlanPools.{pools_in};

use crate::dealing::DealtLinks;
use crate::epoch_state::EpochState;
use crate::epoch_states::epoch_state_of;
use crate::loop_state::LoopState;
use board_rule::LoopSeat;
use pw_graph::{Plan, PoolShape};
use pw_lists::{Items, Memory};
use std::alloc::Global;
use std::vec::IntoIter;
use wav_files::WavIn;

/// A loop that is being made: its nodes, what it has in the first epochs of the plan, and the seats
/// of the others. Loops that are made side by side, epoch by epoch, look at the links and pools of
/// an epoch while these are near.
#[derive(Drop)]
pub struct LoopDraft {
    pub(crate) nodes: Items<u32>,
    pub(crate) epoch_states: Items<EpochState>,
    pub(crate) seats: IntoIter<LoopSeat, Global>,
}

impl LoopDraft {
    /// A loop of these nodes that has no epoch yet. `seats` has one seat an epoch, in order; after
    /// `Memory` they are dropped.
    pub fn new(
        alloc: Global,
        nodes: Items<u32>,
        seats: Items<LoopSeat>,
    ) -> Result<LoopDraft, Memory>
        ensures { IfOk result (λ d. (plan : Plan) → HasFirst plan nodes seats 0 d) }
    {
        let mut epoch_states = Items::new(alloc);
        epoch_states.reserve(seats.len())?;
        Ok(LoopDraft {
            nodes,
            epoch_states,
            seats: seats.into_vec().into_iter(),
        })
    }

    /// Adds the next epoch. `pools` are those of each epoch, `links` those of this one.
    pub fn add_epoch(
        &mut self,
        alloc: Global,
        plan: &Plan,
        pools: &[Items<PoolShape>],
        links: &DealtLinks,
    ) -> Result<(), Memory>
        requires sound { IsSoundPlan plan.now }
        requires lacks { LacksEpochs plan.now self.old }
        requires pools { pools.now ≡ pools_in plan.now }
        requires links { AreLinksIn plan.now (length self.old.epoch_states) links.now }
        ensures { IfOk result (λ _. (nodes : List ℕ) (seats : List Known) (n : ℕ)
            → HasFirst plan.now nodes seats n self.old
            → HasFirst plan.now nodes seats (n + 1) self.new) }
    {
        if let Some(seat) = self.seats.next() {
            let epoch = self.epoch_states.len();
            let nodes = self.nodes.as_slice();
            let state = epoch_state_of(alloc, plan, nodes, epoch, pools, links, seat)?;
            self.epoch_states.push(state)?;
        }
        Ok(())
    }

    /// The loop before the first epoch, once it has all epochs of the plan. From then on no call
    /// takes memory.
    pub fn finish(
        self,
        alloc: Global,
        plan: &Plan,
        waves: &Items<WavIn>,
    ) -> Result<LoopState, Memory>
        requires sound { IsSoundPlan plan.now }
        requires waves { WavesFit plan.now waves.now }
        requires all { HasAll plan.now self }
        ensures between { IfOk result IsBetweenEpochs }
        ensures of { IfOk result (IsLoopOf plan.now waves.now self.nodes (seats_of self)) }
        ensures woke { IfOk result (λ s. s.woke ≡ 0) }
    {
        let LoopDraft {
            nodes,
            epoch_states,
            seats: _,
        } = self;
        LoopState::of_epochs(alloc, plan, waves, nodes, epoch_states)
    }
}
