//! The plan of a number's graph.
ghost use Rattle.std.specs.Prelude.{IfOk, IfSome};
ghost use Rattle.plan_support.specs.Work.{CanRun};

use graph_plan::plan;
use graph_script::Script;
use pw_graph::Plan;
use pw_lists::{Items, Memory};
use soak_graph::{Generated, generate};
use std::alloc::Global;
use wav_files::WavIn;

/// A script, its plan, and a wave for each of its sources.
#[derive(Drop)]
pub struct Work {
    pub script: Script,
    pub plan: Plan,
    pub waves: Items<WavIn>,
}

/// The plan of a number's graph with its waves. None where it has no plan.
pub fn work_of(alloc: Global, number: u32) -> Result<Option<Work>, Memory>
    ensures { IfOk result (λ o. IfSome o (λ work. CanRun work.plan work.waves)) }
{
    let Generated {
        script,
        ports,
        waves,
    } = generate(alloc, number)?;
    match plan(alloc, &script, &waves, ports) {
        Ok(plan) => Ok(Some(Work {
            script,
            plan,
            waves,
        })),
        Err(_fault) => Ok(None),
    }
}
