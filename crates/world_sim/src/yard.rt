//! The parts of a world.
ghost use Rattle.std.specs.Prelude.{◌≡◌};

use crate::mail::Mail;
use crate::scene::Scene;
use behaviour_core::Behaviour;
use members_by_age::ByAge;
use node_core::Node;
use shard_lease::LeaseBook;
use std::alloc::Global;
use std::marker::{Model, PhantomData};
use yard_model::{Body, Fact, Item, Packet, Slot, State};

/// What a world keeps: the nodes that are up, who is a member, the leases, the packets, and how many of
/// each producer's sends were ordered; the script with the number of shards in force, the behaviour in
/// force, and how many packets were posted before that number last changed.
#[derive(Drop)]
pub(crate) struct Yard<B: Behaviour> {
    pub(crate) alloc: Global,
    pub(crate) scene: Scene,
    pub(crate) behaviour: B,
    pub(crate) book: LeaseBook,
    pub(crate) nodes: Vec<Option<Node<B>>>,
    pub(crate) members: ByAge,
    pub(crate) version: u32,
    pub(crate) ups: Vec<u32>,
    pub(crate) ordered: Vec<u32>,
    pub(crate) mail: Mail,
    pub(crate) past: u32,
    pub(crate) holds: PhantomData<(Item, Fact, Packet, Body, State, Slot)>,
}

impl<B: Behaviour> Model for Yard<B> {
    ghost use Rattle.world_sim.specs.Yard.{Yard};

    ghost Value = { Yard };

    ghost view = { λ y. record {
      script = y.scene;
      force = record { kind = B.kind_of y.behaviour; version = B.version_of y.behaviour; past = y.past };
      book = y.book;
      nodes = y.nodes.items;
      members = y.members;
      version = y.version;
      ups = y.ups.items;
      ordered = y.ordered.items;
      mail = y.mail;
    } };
}

impl<B: Behaviour> Yard<B> {
    /// Whether a packet past the limit was to be posted.
    pub(crate) fn is_full(&self) -> bool
        ensures { result ≡ self.now.mail.full }
    {
        self.mail.is_full()
    }
}
