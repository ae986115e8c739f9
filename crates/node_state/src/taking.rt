//! What a sink has kept, moved out.
ghost use Rattle.std.specs.Prelude.{◌≡◌};
ghost use Rattle.node_state.specs.StandsFor.{node_kind, kept_stream};

use crate::kind_state::KindState;
use crate::node_state::NodeState;
use pw_lists::Items;
use std::alloc::Global;

impl NodeState {
    /// Moves a sink's stream out, without a copy: all that its input received. Of every other kind
    /// it answers nothing. What is left of a sink is prepared for no frame. Takes no memory.
    pub fn take_kept(&mut self, alloc: Global) -> Items<i16>
        ensures value { result ≡ kept_stream self.old }
        ensures kind { node_kind self.new ≡ node_kind self.old }
    {
        match &mut self.state {
            KindState::Sink(s) => {
                self.frames = 0;
                self.prepared = 0;
                s.take_stream(alloc)
            }
            _ => Items::new(alloc),
        }
    }
}
