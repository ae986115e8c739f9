//! The forms of an epoch.
ghost use Rattle.std.specs.Prelude.{◌≡◌, ◌+◌, true, IfOk, OnOk};
ghost use Rattle.port_model.specs.PortState.{IsPort};
ghost use Rattle.graph_lines.specs.Gathering.{HasFormsBefore, HasFormsOf};
ghost use Rattle.graph_lines.specs.Searching.{is_in};
ghost use Rattle.graph_lines.specs.Ready.{HasReadyNodes};

use crate::forms::{form_in, port_count};
use crate::graph::Graph;
use crate::shaping::is_in;
use pw_graph::{PortForm, PortId};
use pw_lists::{Items, Memory};

impl Graph {
    // The form of a port of a node that is in, after those of the ports before it.
    fn add_form(
        &self,
        here: &[bool],
        port: PortId,
        forms: &mut Items<PortForm>,
    ) -> Result<(), Memory>
        requires sound { HasReadyNodes self.now.nodes self.now.kinds self.now.ports }
        requires active { is_in here.now port.node ≡ true }
        requires port { IsPort self.now.ports port }
        requires forms { HasFormsBefore self.now.ports here.now port forms.old }
        ensures { OnOk result (HasFormsBefore self.now.ports here.now
            (record { node = port.node; port = port.port + 1 }) forms.new) }
    {
        match form_in(&self.ports, self.kinds.as_slice(), port) {
            Some((rate, channels)) => forms.push(PortForm {
                port,
                rate,
                channels,
            }),
            None => Ok(()),
        }
    }

    // The forms of the ports of a node that is in, after those of the nodes before it.
    fn add_forms(&self, here: &[bool], node: u32, forms: &mut Items<PortForm>) -> Result<(), Memory>
        requires sound { HasReadyNodes self.now.nodes self.now.kinds self.now.ports }
        requires active { is_in here.now node ≡ true }
        requires forms { HasFormsBefore self.now.ports here.now
            (record { node = node; port = 0 }) forms.old }
        ensures { OnOk result (HasFormsBefore self.now.ports here.now
            (record { node = node + 1; port = 0 }) forms.new) }
    {
        for port in 0..port_count(self.kinds.as_slice(), node) {
            self.add_form(here, PortId { node, port }, forms)?;
        }
        Ok(())
    }

    // The forms of all ports of the nodes that are in.
    pub(crate) fn forms_of(&self, here: &[bool]) -> Result<Items<PortForm>, Memory>
        requires { HasReadyNodes self.now.nodes self.now.kinds self.now.ports }
        ensures { IfOk result (HasFormsOf self.now.ports here.now) }
    {
        let mut forms = Items::new(self.alloc);
        for node in 0..self.node_count() {
            if is_in(here, node) {
                self.add_forms(here, node, &mut forms)?;
            }
        }
        Ok(forms)
    }
}
