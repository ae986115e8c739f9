//! The plan of a script's text, its parts, and their plans.
ghost use Rattle.std.specs.Prelude.{All, IfOk};
ghost use Rattle.pw_graph.specs.SoundPlan.{IsSoundPlan};
ghost use Rattle.format_filter.specs.CommonFormat.{IsSoundFormat};

use crate::ready::{Ready, TextFault, ready_of, ready_offered};
use crate::silence::{Silence, waves_of};
use format_filter::Format;
use graph_plan::{part_nodes, parts, plan};
use pw_graph::{Parts, Plan};
use pw_lists::Items;
use script_inputs::Inputs;
use std::alloc::Global;

/// The plan of a text, whose sources have these waves and whose `offer` lines these formats, each in
/// the order of the lines.
pub fn plan_offered(
    alloc: Global,
    text: &str,
    sources: &[Silence],
    formats: &[Format],
) -> Result<Plan, TextFault>
    requires { All IsSoundFormat formats.now }
    ensures { IfOk result IsSoundPlan }
{
    let waves = waves_of(alloc, sources)?;
    let Ready { script, inputs } = ready_offered(alloc, text, waves, formats)?;
    let Inputs { ports, waves } = inputs;
    Ok(plan(alloc, &script, &waves, ports)?)
}

/// The plan of a text without `offer` lines, whose sources have these waves in their order.
pub fn plan_text(alloc: Global, text: &str, sources: &[Silence]) -> Result<Plan, TextFault>
    ensures { IfOk result IsSoundPlan }
{
    let formats = Items::new(alloc);
    plan_offered(alloc, text, sources, formats.as_slice())
}

/// The nodes of the parts of a text, whose sources have these waves in their order.
pub fn parts_text(
    alloc: Global,
    text: &str,
    sources: &[Silence],
) -> Result<Items<Items<u32>>, TextFault> {
    let waves = waves_of(alloc, sources)?;
    let Ready { script, inputs } = ready_of(alloc, text, waves)?;
    let Inputs { ports, waves } = inputs;
    Ok(part_nodes(alloc, &script, &waves, ports)?)
}

/// The plans of the parts of a text, whose sources have these waves in their order.
pub fn plans_text(alloc: Global, text: &str, sources: &[Silence]) -> Result<Parts, TextFault>
    ensures { IfOk result (λ p. All (λ part. IsSoundPlan part.plan) p.parts) }
{
    let waves = waves_of(alloc, sources)?;
    let Ready { script, inputs } = ready_of(alloc, text, waves)?;
    let Inputs { ports, waves } = inputs;
    Ok(parts(alloc, &script, &waves, ports)?)
}
