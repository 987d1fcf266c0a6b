//! What live nodes post to one another.
ghost use Rattle.std.specs.Prelude.{◌≡◌, ◌≤◌, true, false, IfSome};
ghost use Rattle.yard_model.specs.Genuine.{is_genuine_packet};
ghost use Rattle.node_laws.specs.Members.{has_different_members, is_different_body};
ghost use Rattle.node_runner.specs.Parcels.{table_of_note, is_shown, is_confirming, is_within_body, is_within_packet, are_within_limit};

use lease_table::Note;
use std::marker::{Brand, PhantomData};
use yard_model::{Body, Members, NodeNo, Packet};

/// No incarnation of a live run has a greater number.
const LIMIT: u32 = 4_000_000_000;

/// One run: its script, and its table of leases. Each run picks its own.
pub trait Run {
    ghost use Rattle.atomic_table.specs.Seated.{TableId};
    ghost use Rattle.yard_model.specs.Script.{Script};

    ghost script: { Script };

    ghost table: { TableId };
}

impl Run for Brand {
    ghost use Rattle.lease_table.specs.Tells.{no_script};
    ghost use Rattle.node_runner.specs.Parcels.{no_table};

    ghost script = { no_script };

    ghost table = { no_table };
}

/// A packet, with a note where it confirms something. The type keeps that the packet is made of the
/// run's script, that no incarnation in it has a number above 4,000,000,000, and that the note is of the
/// run's table and has seen the record that is confirmed.
#[derive(Drop)]
pub struct Parcel<J: Run> {
    packet: Packet,
    note: Option<Note>,
    run: PhantomData<J>,
    ghost genuine: { is_genuine_packet J.script packet ≡ true },
    ghost within: { is_within_packet packet ≡ true },
    ghost belongs: { table_of_note note J.table ≡ J.table },
    ghost shown: { is_shown J.script packet.body note ≡ true },
}

impl<J: Run> Parcel<J> {
    /// A packet, with a note that has seen the record where it confirms something.
    #[tactic(auto, using(crate::proofs::ParcelLaws::belongs))]
    pub fn new(packet: Packet, note: Option<Note>) -> Parcel<J>
        requires genuine { is_genuine_packet J.script packet ≡ true }
        requires within { is_within_packet packet ≡ true }
        requires belongs { IfSome note (λ w. w.table ≡ J.table) }
        requires shown { is_shown J.script packet.body note ≡ true }
    {
        Parcel {
            packet,
            note,
            run: PhantomData,
        }
    }

    /// A packet that confirms nothing.
    pub fn plain(packet: Packet) -> Parcel<J>
        requires genuine { is_genuine_packet J.script packet ≡ true }
        requires within { is_within_packet packet ≡ true }
        requires plain { is_confirming packet.body ≡ false }
    {
        Parcel {
            packet,
            note: None,
            run: PhantomData,
        }
    }

    /// The node to which it goes, one of the run's.
    pub fn to(&self) -> NodeNo
        ensures { result ≤ J.script.config.nodes }
    {
        self.packet.to.node
    }

    /// The packet, and the note where it confirms something.
    #[tactic(auto, using(crate::proofs::ParcelLaws::of_table))]
    pub fn into_parts(self) -> (Packet, Option<Note>)
        ensures genuine { is_genuine_packet J.script result.0 ≡ true }
        ensures within { is_within_packet result.0 ≡ true }
        ensures different { has_different_members result.0 ≡ true }
        ensures belongs { IfSome result.1 (λ w. w.table ≡ J.table) }
        ensures shown { is_shown J.script result.0.body result.1 ≡ true }
    {
        let Parcel {
            packet,
            note,
            run: _,
        } = self;
        different_members(&packet.body);
        (packet, note)
    }
}

/// Whether it confirms something: only with a note that has seen the record may it be posted.
pub fn confirms(body: &Body) -> bool
    ensures { result ≡ is_confirming body.now }
{
    match body {
        Body::Request { .. } => true,
        Body::Ack { .. } => true,
        _ => false,
    }
}

/// Whether no incarnation in the packet has a number above 4,000,000,000.
pub fn is_within_limit(packet: &Packet) -> bool
    ensures { result ≡ is_within_packet packet.now }
{
    packet.from.number <= LIMIT && packet.to.number <= LIMIT && is_body_within(&packet.body)
}

/// Whether no incarnation in the body has a greater number.
fn is_body_within(body: &Body) -> bool
    ensures { result ≡ is_within_body body.now }
{
    match body {
        Body::View {
            version: _,
            members,
        } => are_within(members),
        Body::ShardHome(_, home, _) => home.number <= LIMIT,
        Body::Sequenced(message) => message.origin.number <= LIMIT,
        _ => true,
    }
}

/// Whether none of these has a greater number.
fn are_within(members: &Members) -> bool
    ensures { result ≡ are_within_limit members.now }
{
    members.have_numbers_to(LIMIT)
}

/// A view tells members of different nodes. It does nothing.
fn different_members(body: &Body)
    ensures { is_different_body body.now ≡ true }
{
    if let Body::View {
        version: _,
        members,
    } = body
    {
        members.len();
    }
}
