//! All parts of a script, followed together line by line.
ghost use Rattle.std.specs.Prelude.{◌≡◌, ◌≤◌, ◌∷◌, ◌++◌, [], All, IfOk, OnOk, option_to_list};
ghost use Rattle.graph_lines.specs.declared.graph.Stepped.TheVariants.{Done};
ghost use Rattle.graph_plan.specs.Conditions.{AreLinesOf};
ghost use Rattle.graph_plan.specs.working.Members.{IsReadyFor, AreReady, AreFollowed};
ghost use Rattle.graph_plan.specs.working.MovingTogether.{MoveOrPass, StepsTogether};
ghost use Rattle.graph_plan.specs.Together.{has_both, last_line, said_last, noted};

use crate::fault::PlanFault;
use crate::member::Member;
use crate::moving::move_all;
use crate::partition::is_among;
use graph_lines::{Graph, Stepped};
use graph_script::{Command, Line};
use pw_graph::LinkLine;
use pw_lists::{Items, Memory};
use wav_files::WavIn;

/// The graph of the whole script, which makes no epoch, and the parts, after some lines; and what
/// the `link` and `unlink` lines among them did.
#[derive(Drop)]
pub(crate) struct Together {
    pub(crate) whole: Graph,
    pub(crate) members: Items<Member>,
    pub(crate) lines: Items<LinkLine>,
}

// Whether a part has both nodes.
fn has_both(member: &Member, a: u32, b: u32) -> bool
    ensures { result ≡ has_both a b member.now }
{
    is_among(member.nodes.as_slice(), a) && is_among(member.nodes.as_slice(), b)
}

// What the last `link` or `unlink` line of a graph did.
fn last_line(graph: &Graph) -> Option<LinkLine>
    ensures { option_to_list result ≡ last_line graph.now }
{
    graph.lines.as_slice().last().copied()
}

// What the last one of these two nodes did: in the first part that has both, else in the whole.
fn said_last(whole: &Graph, members: &[Member], a: u32, b: u32) -> Option<LinkLine>
    ensures { option_to_list result ≡ said_last whole.now members.now a b }
{
    for member in members {
        if has_both(member, a, b) {
            return last_line(&member.graph);
        }
    }
    last_line(whole)
}

// Appends a line, if there is one.
fn append(lines: &mut Items<LinkLine>, said: Option<LinkLine>) -> Result<(), Memory>
    ensures { OnOk result (lines.new ≡ lines.old ++ option_to_list said) }
{
    match said {
        Some(line) => lines.push(line),
        None => Ok(()),
    }
}

// Notes what a line did.
fn note(
    lines: &mut Items<LinkLine>,
    whole: &Graph,
    members: &[Member],
    command: &Command,
) -> Result<(), Memory>
    ensures { OnOk result (lines.new ≡ lines.old ++ noted whole.now members.now command.now) }
{
    match command {
        Command::Link { from, to } => {
            append(lines, said_last(whole, members, from.node, to.node))
        }
        Command::Unlink { from, to } => {
            append(lines, said_last(whole, members, from.node, to.node))
        }
        _ => Ok(()),
    }
}

impl Together {
    // What a line does to all parts, after what it has done to the whole, and what it did.
    fn go_on(&mut self, line: &Line, waves: &Items<WavIn>) -> Result<Stepped, Memory>
        requires ready { All (IsReadyFor line.now) self.old.members }
        requires channels { All (λ w. 1 ≤ w.wav.channels) waves.now }
        ensures whole { IfOk result (λ stepped. self.new.whole ≡ self.old.whole) }
        ensures parts { IfOk result (λ stepped.
            MoveOrPass waves.now line.now self.old.members stepped self.new.members) }
        ensures lines { IfOk result (λ stepped. stepped ≡ Done → self.new.lines
            ≡ self.old.lines ++ noted self.new.whole self.new.members line.now.command) }
    {
        match move_all(self.whole.alloc, self.members.as_mut_slice(), line, waves) {
            Ok(Stepped::Done) => {}
            Ok(Stepped::Passed { which }) => return Ok(Stepped::Passed { which }),
            Err(Memory) => return Err(Memory),
        }
        note(
            &mut self.lines,
            &self.whole,
            self.members.as_slice(),
            &line.command,
        )?;
        Ok(Stepped::Done)
    }

    // What a line does to the whole and to all parts. After a limit and after `Memory` they are to
    // be dropped.
    fn step(&mut self, line: &Line, waves: &Items<WavIn>) -> Result<Stepped, Memory>
        requires ready { AreReady self.old }
        requires line { AreLinesOf self.old.whole.kinds (line.now ∷ []) }
        requires channels { All (λ w. 1 ≤ w.wav.channels) waves.now }
        ensures line { IfOk result
            (λ stepped. StepsTogether waves.now self.old line.now stepped self.new) }

        // Where the line is done, the next one may follow.
        ensures ready { IfOk result (λ stepped. stepped ≡ Done → AreReady self.new) }
        ensures kinds { IfOk result
            (λ stepped. stepped ≡ Done → self.new.whole.kinds ≡ self.old.whole.kinds) }
    {
        match self.whole.rehearse(&line.command, waves) {
            Ok(Stepped::Done) => self.go_on(line, waves),
            Ok(Stepped::Passed { which }) => Ok(Stepped::Passed { which }),
            Err(Memory) => Err(Memory),
        }
    }
}

/// The whole and all parts after all lines, or the first line that passes a limit.
pub(crate) fn follow_all(
    mut together: Together,
    lines: &[Line],
    waves: &Items<WavIn>,
) -> Result<Together, PlanFault>
    requires ready { AreReady together }
    requires lines { AreLinesOf together.whole.kinds lines.now }
    requires channels { All (λ w. 1 ≤ w.wav.channels) waves.now }
    ensures followed { AreFollowed waves.now together lines.now result }
    ensures ready { IfOk result AreReady }
    ensures kinds { IfOk result (λ end. end.whole.kinds ≡ together.whole.kinds) }
{
    for line in lines {
        match together.step(line, waves) {
            Ok(Stepped::Done) => {}
            Ok(Stepped::Passed { which }) => {
                return Err(PlanFault::Limit {
                    line: line.line,
                    which,
                });
            }
            Err(Memory) => return Err(PlanFault::Memory),
        }
    }
    Ok(together)
}
