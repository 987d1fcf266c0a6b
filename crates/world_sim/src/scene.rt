//! A script, and what its nodes have at hand.
ghost use Rattle.std.specs.Prelude.{◌≡◌, true, IfOk};
ghost use Rattle.yard_model.specs.Genuine.{is_node};
ghost use Rattle.yard_model.specs.Node.{new_node};
ghost use Rattle.yard_model.specs.Script.{IsScript, is_version, names_in, setting};

use behaviour_core::Behaviour;
use node_core::{Grounds, Node};
use std::alloc::{AllocError, Global};
use std::marker::Model;
use yard_model::{Charter, Config, EntityName, Incarnation};

/// A charter, with the grounds of all its nodes; seen as the script.
#[derive(Drop)]
pub(crate) struct Scene {
    charter: Charter,
    grounds: Grounds,
}

impl Model for Scene {
    ghost use Rattle.std.specs.Prelude.{◌≡◌};
    ghost use Rattle.yard_model.specs.Script.{Script};

    ghost Value = { Script };

    ghost view = { λ s. s.charter };

    ghost invariant = { λ s. s.grounds ≡ s.charter };
}

impl Scene {
    /// The scene of a charter. The only error is want of memory.
    pub(crate) fn new(alloc: Global, charter: Charter) -> Result<Scene, AllocError>
        ensures { IfOk result (λ s. s ≡ charter) }
    {
        let grounds = Grounds::new(alloc, &charter)?;
        Ok(Scene { charter, grounds })
    }

    /// The charter.
    pub(crate) fn charter(&self) -> &Charter
        ensures { result.now ≡ self.now }
    {
        &self.charter
    }

    /// A node of the script that comes up, on its grounds. The only error is want of memory.
    #[inline(always)]
    pub(crate) fn node<B: Behaviour + Drop>(
        &self,
        alloc: Global,
        who: Incarnation,
        behaviour: B,
    ) -> Result<Node<B>, AllocError>
        requires who { is_node self.now who ≡ true }
        requires kind { B.kind_of behaviour ≡ self.now.config.kind }
        requires version { is_version self.now (B.version_of behaviour) ≡ true }
        ensures script { IfOk result (λ n. n.script ≡ self.now) }
        ensures state { IfOk result (λ n. n.state ≡ new_node (setting self.now) (B.version_of behaviour) who) }
    {
        Node::new(alloc, who, &self.charter, &self.grounds, behaviour)
    }

    /// The settings.
    pub(crate) fn config(&self) -> &Config
        ensures value { result.now ≡ self.now.config }
        ensures script { IsScript self.now }
    {
        self.charter.config()
    }

    /// The names that the orders bring, each once, in the order of their bytes.
    pub(crate) fn names(&self) -> &[EntityName]
        ensures value { result.now ≡ names_in self.now.orders }
    {
        self.charter.names()
    }

    /// The charter alone.
    pub(crate) fn into_charter(self) -> Charter
        ensures { result ≡ self }
    {
        let Scene { charter, grounds } = self;
        drop(grounds);
        charter
    }
}
