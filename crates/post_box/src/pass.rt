//! The pass of one node.
ghost use Rattle.std.specs.Prelude.{◌≡◌, ◌≤◌, length};

use crate::queue::QueuePass;
use std::marker::Model;
use yard_model::NodeNo;

/// The right of one node to post to every box and to take from its own.
#[derive(Drop)]
pub struct BoxPass<P> {
    pub(crate) node: NodeNo,
    pub(crate) senders: Vec<QueuePass<P>>,
    pub(crate) taker: QueuePass<P>,
}

impl<P> Model for BoxPass<P> {
    ghost use Rattle.std.specs.Prelude.{map};
    ghost use Rattle.post_box.specs.Holding.{Holder, holder, holder_code, table_of, posted_by, taken_by, IsHolder};

    ghost Value = { Holder P };

    ghost coded = { holder_code P.code };

    ghost view = { λ p. holder (map table_of p.senders.items) p.node (map posted_by p.senders.items) (taken_by p.taker) };

    ghost invariant = { λ p. IsHolder p.node p.senders.items p.taker };
}

impl<P> BoxPass<P> {
    /// The node.
    pub fn node(&self) -> NodeNo
        ensures node { result ≡ self.now.node }
        ensures within { self.now.node ≤ length self.now.tables }
    {
        self.node
    }
}
