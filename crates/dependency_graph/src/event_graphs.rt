//! A graph whose nodes are events.
ghost use Rattle.std.specs.Prelude.{◌≡◌, ◌<◌, length, false, Some, MatchOption};
ghost use Rattle.gtrbac_model.specs.Graph.{item_at};
ghost use Rattle.gtrbac_model.specs.Same.{lists, same_event};

use crate::building::find;
use gt_base::Event;
use indexmap::IndexSet;
use least_walk::Graph;
use std::marker::Model;

/// Events by their nodes, and edges by their triggers and their places there.
pub struct EventGraph {
    pub(crate) events: IndexSet<Event>,
    pub(crate) graph: Graph,
    pub(crate) places: Vec<(u32, u32)>,
}

impl Drop for EventGraph {
    fn drop(self) {
        let EventGraph {
            events: _,
            graph: _,
            places: _,
        } = self;
    }
}

impl Model for EventGraph {
    ghost use Rattle.dependency_graph.specs.Nets.{EventNet, IsEventNet};

    ghost Value = { EventNet };

    ghost view = { λ g. record { events = g.events.keys; net = g.graph; places = g.places.items } };

    ghost invariant = { λ g. IsEventNet
        (record { events = g.events.keys; net = g.graph; places = g.places.items }) };
}

impl EventGraph {
    /// The nodes and edges, without what they stand for. The marked edges are the conflict edges.
    pub fn graph(&self) -> &Graph
        ensures { result.now ≡ self.now.net }
    {
        &self.graph
    }

    /// The event of a node.
    pub fn event(&self, node: u32) -> Event
        requires { node < self.now.net.nodes }
        ensures { item_at self.now.events node ≡ Some result }
    {
        *self.events.get_index(node as usize).unwrap()
    }

    /// The node of an event, none where it is no node.
    pub fn node(&self, e: Event) -> Option<u32>
        ensures { MatchOption result (lists same_event self.now.events e ≡ false)
            (λ n. item_at self.now.events n ≡ Some e) }
    {
        find(&self.events, e)
    }

    /// The trigger of an edge and its place there, both from 0: body events come first, then
    /// settled conditions.
    pub fn place(&self, edge: u32) -> (u32, u32)
        requires { edge < length self.now.net.edges }
        ensures { item_at self.now.places edge ≡ Some result }
    {
        self.places[edge as usize]
    }
}
