//! The nodes that a search has reached.
ghost use Rattle.std.specs.Prelude.{◌≡◌, ◌<◌, false, true, replicate, slice_set};
ghost use Rattle.link_negotiation.specs.working.Searching.{IsQueue, IsLonger};

use pw_graph::NODES;

/// The nodes that a search has reached, in the order in which it reached them.
#[derive(Drop)]
pub struct Reached {
    /// Of each node whether it is reached.
    pub here: [bool; NODES],
    /// The nodes that are, each once.
    pub order: [u32; NODES],
    /// How many they are.
    pub count: usize,
}

impl Reached {
    /// No node.
    fn none() -> Reached
        ensures queue { IsQueue result }
        ensures here { result.here ≡ replicate 64 false }
    {
        Reached {
            here: [false; NODES],
            order: [0; NODES],
            count: 0,
        }
    }

    /// A single node.
    pub fn of(node: u32) -> Reached
        requires { node < 64 }
        ensures queue { IsQueue result }
        ensures here { result.here ≡ slice_set (replicate 64 false) node true }
    {
        let mut reached = Reached::none();
        reached.reach(node);
        reached
    }

    /// Puts a node at the end, if it is not reached yet.
    pub fn reach(&mut self, node: u32)
        requires node { node < 64 }
        requires queue { IsQueue self.old }
        ensures queue { IsQueue self.new }
        ensures longer { IsLonger self.old self.new }
        ensures here { self.new.here ≡ slice_set self.old.here node true }
    {
        if !self.here[node as usize] {
            self.here[node as usize] = true;
            self.order[self.count] = node;
            self.count += 1;
        }
    }
}
