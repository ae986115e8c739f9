//! The epochs of a plan as text, compared with what is wanted.

use crate::counts::COUNTS;
use crate::drains::DRAINS;
use crate::epochs::EPOCHS;
use crate::fresh::FRESH;
use crate::limits::KEPT;
use plan_support::{Silence, plan_text};
use pw_graph::{Plan, PortForm, Shape};
use pw_lists::Memory;
use std::alloc::Global;
use std::test::Fail;

// Nodes with their required counts and targets; links with their two ports, channels and buffers,
// and whether they are late.
fn put_shape(alloc: Global, text: &mut String, shape: &Shape) -> Result<(), Memory> {
    for node in shape.nodes.as_slice() {
        let head = format!(in alloc; "node {} waits {} wakes", node.node, node.required)?;
        text.push_str(head.as_str())?;
        for target in node.targets.as_slice() {
            let part = format!(in alloc; " {target}")?;
            text.push_str(part.as_str())?;
        }
        text.push('\n')?;
    }
    for link in shape.links.as_slice() {
        let (from, to) = (link.from, link.to);
        let ends = format!(in alloc; "link {}.{} {}.{}", from.node, from.port, to.node, to.port)?;
        text.push_str(ends.as_str())?;
        let late = if link.delayed { " late" } else { "" };
        let numbers = format!(in alloc; " {} {}{late}\n", link.channels, link.buffers)?;
        text.push_str(numbers.as_str())?;
    }
    Ok(())
}

// A form of a port.
fn put_form(alloc: Global, text: &mut String, form: &PortForm) -> Result<(), Memory> {
    let (node, port) = (form.port.node, form.port.port);
    let line = format!(in alloc; "form {node}.{port} {} {}\n", form.rate, form.channels)?;
    text.push_str(line.as_str())?;
    Ok(())
}

/// What is shown of each epoch, after its cycles and its driver.
#[derive(Drop)]
pub enum Part {
    Nothing,
    /// The nodes and the links.
    Shape,
    /// The nodes that begin anew, and their channels.
    Fresh,
    /// The forms of ports.
    Forms,
}

// This part of all epochs.
fn plan_shown(alloc: Global, plan: &Plan, part: &Part) -> Result<String, Memory> {
    let mut text = String::new(alloc);
    for epoch in plan.epochs.as_slice() {
        let shape = &epoch.shape;
        let line = format!(in alloc;
            "from {} cycles {} driver {}\n",
            shape.first, shape.cycles, shape.driver
        )?;
        text.push_str(line.as_str())?;
        match part {
            Part::Nothing => {}
            Part::Shape => put_shape(alloc, &mut text, shape)?,
            Part::Fresh => {
                for fresh in epoch.fresh.as_slice() {
                    let line = format!(in alloc; "fresh {} {}\n", fresh.node, fresh.channels)?;
                    text.push_str(line.as_str())?;
                }
            }
            Part::Forms => {
                for form in epoch.forms.as_slice() {
                    put_form(alloc, &mut text, form)?;
                }
            }
        }
    }
    Ok(text)
}

/// A text whose sources have these waves, and what is wanted of a part of its plan's epochs.
pub struct Row {
    pub title: &'static str,
    pub text: &'static str,
    pub sources: &'static [Silence],
    pub part: Part,
    pub wanted: &'static str,
}

#[test]
fn plans_have_their_epochs(rt: HostRuntime) -> Result<(), Fail> {
    for rows in [
        COUNTS.as_slice(),
        DRAINS.as_slice(),
        EPOCHS.as_slice(),
        FRESH.as_slice(),
        KEPT.as_slice(),
    ] {
        for row in rows {
            match plan_text(rt.alloc(), row.text, row.sources) {
                Ok(plan) => {
                    let shown = plan_shown(rt.alloc(), &plan, &row.part)?;
                    assert!(rt; shown.as_str() == row.wanted, "{}\n{shown}", row.title);
                }
                Err(_fault) => assert!(rt; false, "{}", row.title),
            }
        }
    }
    Ok(())
}
