//! One quantum of a node.
ghost use Rattle.std.specs.Prelude.{◌≡◌, ◌+◌, length};
ghost use Rattle.pw_graph.specs.KindFunction.{KindInputs};
ghost use Rattle.node_state.specs.StandsFor.{StandsFor, IsQuantum, HasFramesLeft, IsSameNode, node_kind, node_quantum, frames_so_far};
ghost use Rattle.node_state.specs.Streams.{Joins, followed, output_now};

use crate::node_state::NodeState;

impl NodeState {
    /// One quantum: takes the input `a`, of a mix2 also `b`, and writes the first output to `left`,
    /// of a split the second to `right`. Samples are interleaved. A port that the kind lacks or
    /// that has no form has an empty slice.
    /// Takes no memory; one pass over the slices.
    ///
    /// What is written is the last quantum of the kind's function of all that the node has
    /// received, these inputs with it.
    pub fn process(&mut self, a: &[i16], b: &[i16], left: &mut [i16], right: &mut [i16])
        requires slices { IsQuantum self.old a.now b.now left.old right.old }
        requires frames { HasFramesLeft self.old }
        ensures left { (h : KindInputs) → StandsFor self.old h
            → left.new ≡ output_now (node_kind self.old)
            (followed (node_quantum self.old) a.now b.now h) 0 (length left.old) }
        ensures right { (h : KindInputs) → StandsFor self.old h
            → right.new ≡ output_now (node_kind self.old)
            (followed (node_quantum self.old) a.now b.now h) 1 (length right.old) }
        // So the outputs of quantum after quantum join, however the streams are cut.
        ensures joins_left { (h : KindInputs) → StandsFor self.old h
            → Joins (node_kind self.old) h
            (followed (node_quantum self.old) a.now b.now h) 0 left.new }
        ensures joins_right { (h : KindInputs) → StandsFor self.old h
            → Joins (node_kind self.old) h
            (followed (node_quantum self.old) a.now b.now h) 1 right.new }

        // It then stands for what it stood for and this quantum after it.
        ensures stands { (h : KindInputs) → StandsFor self.old h
            → StandsFor self.new (followed (node_quantum self.old) a.now b.now h) }
        ensures frames { frames_so_far self.new ≡ frames_so_far self.old + node_quantum self.old }
        ensures same { IsSameNode self.old self.new }
    {
        self.frames += u64::from(self.quantum);
        self.state.process(self.quantum, a, b, left, right);
    }
}
