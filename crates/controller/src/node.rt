// A node: its settings, its two spans, its pacer and its stations.
ghost use Rattle.std.specs.Prelude.{◌≡◌, ⊤};

use crate::sides::Spans;
use pacer::Pacer;
use settings::Settings;
use stations::Table;
use std::alloc::AllocError;
use std::marker::Model;
use wire::Refusal;

#[derive(Drop)]
pub struct Node {
    pub(crate) settings: Settings,
    pub(crate) spans: Spans,
    pub(crate) pacer: Pacer,
    pub(crate) table: Table,
}

impl Model for Node {
    ghost use Rattle.controller.specs.State.{Node as Held};

    ghost Value = { Held };

    ghost use Rattle.controller.specs.Kept.{Kept};

    ghost view = { λ n. record { settings = n.settings; spans = n.spans; stations = n.table; pacer = n.pacer } };

    ghost invariant = { λ n. Kept (record { settings = n.settings; spans = n.spans; stations = n.table; pacer = n.pacer }) };
}

// A copy of the node as it is, to keep or to go back to; it never fails.
impl Clone for Node {
    ghost is_clone = { λ n m. m ≡ n };

    ghost is_infallible = { λ _. ⊤ };

    fn clone(&self) -> Result<Node, AllocError> {
        Ok(Node {
            settings: self.settings,
            spans: self.spans,
            pacer: self.pacer,
            table: self.table.clone()?,
        })
    }
}

impl Node {
    ghost use Rattle.settings.specs.Kept.{SettingsKept};
    ghost use Rattle.settings.specs.Ranges.{defaults};
    ghost use Rattle.controller.specs.State.{started};
    ghost use Rattle.controller.specs.Node.{choice_of, node_of, started_in};
    ghost use Rattle.controller.specs.Promise.{Begun};

    // The node of the default settings with address zero, as a start that is refused leaves it.
    #[tactic(auto, using(crate::proofs::Nodes::default_kept), unfolding(crate::specs::State::started))]
    pub fn new() -> Node
        ensures { result ≡ node_of (defaults 0) (started (choice_of (defaults 0))) }
    {
        let settings = Settings::default();
        Node {
            settings,
            spans: Spans::at_start(),
            pacer: Pacer::at_start(settings.ticks().fast),
            table: Table::new(),
        }
    }

    // The state of a start with these settings.
    #[tactic(auto, using(crate::proofs::Nodes::begun_kept), unfolding(crate::specs::State::started))]
    fn begin(&mut self, settings: Settings)
        requires { SettingsKept settings }
        ensures { self.new ≡ node_of settings (started (choice_of settings)) }
    {
        self.settings = settings;
        self.spans = Spans::at_start();
        self.pacer = Pacer::at_start(settings.ticks().fast);
        self.table.clear();
    }

    // A node of the settings that a record brings; refused, of the default settings with address zero. What the node was before does not matter.
    #[tactic(auto, using(crate::proofs::Records::begun), unfolding(crate::specs::Node::started_with, settings::specs::Reading::settings_in))]
    pub fn start(&mut self, bytes: &[u8]) -> Result<(), Refusal>
        ensures { Begun bytes.now (started_in self.new result) }
    {
        match settings::read_settings(bytes) {
            Ok(settings) => {
                self.begin(settings);
                Ok(())
            }
            Err(refusal) => {
                self.begin(Settings::default());
                Err(refusal)
            }
        }
    }
}
