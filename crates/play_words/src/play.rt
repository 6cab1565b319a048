//! What the words of a play say.
ghost use Rattle.std.specs.Prelude.{◌≡◌, ◌++◌, ◌∷◌, [], OnOk, OnErr, IfErr};

use grid_types::{HubConfig, NoMemory, Text};
use std::alloc::Global;
use std::marker::Model;

/// A node in memory that the words ask for.
#[derive(Debug, Drop)]
pub struct PlayNode {
    /// Its browser's name.
    pub browser: Text,
    /// Its browser's version.
    pub version: Text,
    /// How many starts it refuses before its first session.
    pub refuses: u32,
    /// How many slots it has, and how many sessions at most.
    pub slots: u16,
}

/// The nodes in the order of the words, seen as their list.
#[derive(Debug, Drop)]
pub struct PlayNodes {
    nodes: Vec<PlayNode>,
}

impl Model for PlayNodes {
    ghost use Rattle.std.specs.Prelude.{List};
    ghost use Rattle.play_words.specs.declared.play.PlayNode.{PlayNode};

    ghost Value = { List PlayNode };

    ghost view = { λ n. n.nodes.items };
}

impl PlayNodes {
    /// No nodes. It takes no memory.
    pub fn new(alloc: Global) -> Self
        ensures { result ≡ [] }
    {
        PlayNodes {
            nodes: Vec::new(alloc),
        }
    }

    /// Puts the node last; without memory all stays as it is and the node comes back.
    pub fn push(&mut self, node: PlayNode) -> Result<(), PlayNode>
        ensures ok { OnOk result (self.new ≡ self.old ++ node ∷ []) }
        ensures err { OnErr result (self.new ≡ self.old) }
        ensures back { IfErr result (λ back. back ≡ node) }
    {
        match self.nodes.push(node) {
            Ok(()) => Ok(()),
            Err(refused) => Err(refused.value),
        }
    }

    /// The nodes in order.
    pub fn items(&self) -> &[PlayNode]
        ensures { result.now ≡ self.now }
    {
        self.nodes.as_slice()
    }
}

/// What the words say.
#[derive(Debug, Drop)]
pub struct PlayWords {
    /// How the hub is set up.
    pub config: HubConfig,
    /// Its nodes, 1 to 16.
    pub nodes: PlayNodes,
}

/// Why nothing is played.
#[derive(Clone, Copy, Debug, PartialEq, Eq)]
pub enum WordsFault {
    /// The words do not fit.
    Refused,
    /// Memory was wanted and there was none.
    Memory,
}

impl From<NoMemory> for WordsFault {
    ghost use Rattle.std.specs.Prelude.{◌≡◌};
    ghost use Rattle.play_words.specs.declared.play.WordsFault.TheVariants as fault;

    ghost from_gives = { λ _ f. f ≡ fault.Memory };

    fn from(_: NoMemory) -> Self {
        WordsFault::Memory
    }
}
