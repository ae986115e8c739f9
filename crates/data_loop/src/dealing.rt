//! The links of a shape, dealt in one pass to the nodes that read them.
ghost use Rattle.std.specs.Prelude.{◌≡◌, ◌<◌, ◌≤◌, [], ℕ, List, IfOk, length, slice_index_or};
ghost use Rattle.pw_lists.specs.Limits.{links_limit};
ghost use Rattle.pw_graph.specs.SoundPlan.{IsSoundPlan};
ghost use Rattle.data_loop.specs.declared.inputs.Input.{Input};
ghost use Rattle.data_loop.specs.Dealt.{AreDealt, AreLinksIn};

use crate::inputs::Input;
use pw_graph::{NODES, Plan, Shape};
use pw_lists::{Items, Memory};
use std::alloc::Global;

// In a plan of so few nodes a look at each link takes no longer than to deal them.
const FEW: usize = 4;

/// The links of one epoch of a plan, dealt to the nodes that they lead to. All loops of a run read
/// the same.
#[derive(Drop)]
pub struct DealtLinks {
    /// By the number of the node; none where no node has a list.
    pub(crate) inputs: Items<Items<Input>>,
}

// So many empty lists.
fn empty_lists(alloc: Global, count: usize) -> Result<Vec<Items<Input>>, Memory>
    ensures { IfOk result (λ lists. (n : ℕ) (d : List Input) → n < length lists.items
        → slice_index_or lists.items n d ≡ []) }
{
    let mut lists = Items::new(alloc);
    lists.reserve(count)?;
    for _ in 0..count {
        lists.push(Items::new(alloc))?;
    }
    Ok(lists.into_vec())
}

// Of each number of a node the links into the node, each with its input, ascending.
fn deal(alloc: Global, shape: &Shape) -> Result<Items<Items<Input>>, Memory>
    requires few { length shape.now.links ≤ links_limit }
    ensures { IfOk result (AreDealt shape.now) }
{
    let links = shape.links.as_slice();
    let mut dealt = empty_lists(alloc, NODES)?;
    for l in 0..links.len() {
        let to = links[l].to.node as usize;
        if to < dealt.len() {
            let second = links[l].to.port == 1;
            dealt[to].push(Input {
                link: l as u32,
                second,
            })?;
        }
    }
    Ok(Items::from_vec(dealt))
}

/// The links of an epoch of a plan, for `LoopDraft::add_epoch`.
///
/// Cost: one pass over the links. Memory: for each node a list, and for each link a place; nothing
/// where the plan has four nodes or fewer.
pub fn links_in(alloc: Global, plan: &Plan, epoch: usize) -> Result<DealtLinks, Memory>
    requires sound { IsSoundPlan plan.now }
    requires inside { epoch < length plan.now.epochs }
    ensures { IfOk result (AreLinksIn plan.now epoch) }
{
    let shape = &plan.epochs.as_slice()[epoch].shape;
    let inputs = if plan.nodes.len() <= FEW {
        Items::new(alloc)
    } else {
        deal(alloc, shape)?
    };
    Ok(DealtLinks { inputs })
}
