//! What a worker posts after a turn: what was held, the views, and what its node posted.
ghost use Rattle.std.specs.Prelude.{◌≡◌, true, [], length, IfOk, IfSome, OnOk};
ghost use Rattle.yard_model.specs.Behaviour.{is_in};
ghost use Rattle.yard_model.specs.Genuine.{is_genuine_packet};
ghost use Rattle.lease_table.specs.Belongs.{id_of, charter_of};
ghost use Rattle.node_runner.specs.Entered.{is_member};
ghost use Rattle.node_runner.specs.Mailed.{IsSameHolder};
ghost use Rattle.node_runner.specs.Posts.{ArePackets, IsGenuineTray};
ghost use Rattle.node_runner.specs.Progress.{StandsAt};
ghost use Rattle.node_runner.specs.Rested.{Rested, ArePublished};

use crate::mail::Mail;
use crate::parcel::{Parcel, Run, confirms};
use crate::roster::{Roster, Views, enter, leave};
use crate::steps::Place;
use crate::tray::Tray;
use crate::up_node::UpNode;
use behaviour_core::Behaviour;
use lease_table::{LeasePass, LeaseTable};
use post_box::PostBox;
use std::alloc::AllocError;
use std::sync::{Mutex, Wait};
use yard_model::{Charter, Incarnation, NodeNo, Packet};

/// The incarnation that is up, which may be a member of the run's roster.
#[tactic(auto, using(crate::proofs::Mailing::up_member))]
pub fn member<B: Behaviour + Drop>(
    table: &LeaseTable,
    me: NodeNo,
    place: &Place<B>,
) -> Option<Incarnation>
    requires node { is_in 1 (charter_of table.now).config.nodes me ≡ true }
    requires stands { StandsAt (id_of table.now) (charter_of table.now) me place.now.pass place.now.node }
    ensures { IfSome result (λ x. is_member (charter_of table.now) x ≡ true) }
{
    let _ = table;
    let _ = me;
    match &place.node {
        Some(node) => Some(node.who()),
        None => None,
    }
}

/// Where the node came up, or went, it enters the roster, or leaves it, and the views are posted. It may
/// wait. The only error is want of memory.
#[inline(always)]
pub fn tell_roster<J: Run, R: Wait>(
    rt: &R,
    boxes: &PostBox<Parcel<J>>,
    roster: &Mutex<Roster<J>>,
    mail: &mut Mail<J>,
    before: Option<Incarnation>,
    after: Option<Incarnation>,
) -> Result<(), AllocError>
    requires belongs { mail.old.pass.tables ≡ boxes.now.tables }
    requires nodes { length boxes.now.tables ≡ J.script.config.nodes }
    requires member { IfSome after (λ x. is_member J.script x ≡ true) }
    ensures kept { IsSameHolder mail.old.pass mail.new.pass }
{
    if before.is_some() == after.is_some() {
        return Ok(());
    }
    tell_change(rt, boxes, roster, mail, before, after)
}

/// The same where the node may have come up, or gone.
#[inline(never)]
fn tell_change<J: Run, R: Wait>(
    rt: &R,
    boxes: &PostBox<Parcel<J>>,
    roster: &Mutex<Roster<J>>,
    mail: &mut Mail<J>,
    before: Option<Incarnation>,
    after: Option<Incarnation>,
) -> Result<(), AllocError>
    requires belongs { mail.old.pass.tables ≡ boxes.now.tables }
    requires nodes { length boxes.now.tables ≡ J.script.config.nodes }
    requires member { IfSome after (λ x. is_member J.script x ≡ true) }
    ensures kept { IsSameHolder mail.old.pass mail.new.pass }
{
    match after {
        Some(who) => {
            if before.is_some() {
                return Ok(());
            }
            let views = enter(rt, roster, who);
            post_views(rt, boxes, mail, &views)
        }
        None => post_left(rt, boxes, roster, mail, before),
    }
}

/// Where the node was up, it leaves the roster, and the views are posted. It may wait. The only error is
/// want of memory.
fn post_left<J: Run, R: Wait>(
    rt: &R,
    boxes: &PostBox<Parcel<J>>,
    roster: &Mutex<Roster<J>>,
    mail: &mut Mail<J>,
    before: Option<Incarnation>,
) -> Result<(), AllocError>
    requires belongs { mail.old.pass.tables ≡ boxes.now.tables }
    requires nodes { length boxes.now.tables ≡ J.script.config.nodes }
    ensures kept { IsSameHolder mail.old.pass mail.new.pass }
{
    match before {
        Some(who) => {
            let views = leave(rt, roster, who);
            post_views(rt, boxes, mail, &views)
        }
        None => Ok(()),
    }
}

/// Posts the views, to the oldest member first. It may wait. The only error is want of memory.
fn post_views<J: Run, R: Wait>(
    rt: &R,
    boxes: &PostBox<Parcel<J>>,
    mail: &mut Mail<J>,
    views: &Views<J>,
) -> Result<(), AllocError>
    requires belongs { mail.old.pass.tables ≡ boxes.now.tables }
    requires nodes { length boxes.now.tables ≡ J.script.config.nodes }
    ensures kept { IsSameHolder mail.old.pass mail.new.pass }
{
    for place in 0..16usize {
        let Some(packet) = views.packet(place) else {
            return Ok(());
        };
        mail.send_plain(rt, boxes, &packet)?;
    }
    Ok(())
}

/// Posts what the node posted in its turn, oldest first. It may wait. The only error is want of memory.
pub fn post_place<J: Run, R: Wait, B: Behaviour + Drop>(
    rt: &R,
    table: &LeaseTable,
    boxes: &PostBox<Parcel<J>>,
    charter: &Charter,
    mail: &mut Mail<J>,
    place: Place<B>,
    tray: &mut Tray,
) -> Result<Place<B>, AllocError>
    requires belongs { mail.old.pass.tables ≡ boxes.now.tables }
    requires nodes { length boxes.now.tables ≡ J.script.config.nodes }
    requires run { (J.script ≡ charter_of table.now) × (J.table ≡ id_of table.now) }
    requires charter { charter.now ≡ charter_of table.now }
    requires stands { StandsAt (id_of table.now) (charter_of table.now) mail.old.pass.node place.pass place.node }
    requires genuine { IsGenuineTray (charter_of table.now) tray.old }
    ensures kept { IsSameHolder mail.old.pass mail.new.pass }
    ensures place { IfOk result (λ r. (r.pass ≡ place.pass) × (r.node ≡ place.node)) }
    ensures genuine { OnOk result (IsGenuineTray (charter_of table.now) tray.new) }
{
    let Place { pass, node } = place;
    let Some(node) = node else {
        tray.posts.clear();
        return Ok(Place { pass, node: None });
    };
    let pass = post_all(
        rt,
        table,
        boxes,
        charter,
        mail,
        pass,
        &node,
        tray.posts.as_slice(),
    )?;
    tray.posts.clear();
    Ok(Place {
        pass,
        node: Some(node),
    })
}

/// Posts these packets of a node that is up, one after the other. It may wait. The only error is want of memory.
fn post_all<J: Run, R: Wait, B: Behaviour + Drop>(
    rt: &R,
    table: &LeaseTable,
    boxes: &PostBox<Parcel<J>>,
    charter: &Charter,
    mail: &mut Mail<J>,
    pass: LeasePass,
    node: &UpNode<B>,
    packets: &[Packet],
) -> Result<LeasePass, AllocError>
    requires belongs { mail.old.pass.tables ≡ boxes.now.tables }
    requires nodes { length boxes.now.tables ≡ J.script.config.nodes }
    requires run { (J.script ≡ charter_of table.now) × (J.table ≡ id_of table.now) }
    requires charter { charter.now ≡ charter_of table.now }
    requires rested { Rested (id_of table.now) (charter_of table.now) mail.old.pass.node pass node.now }
    requires published { ArePublished (charter_of table.now) pass node.now.state }
    requires genuine { ArePackets (charter_of table.now) packets.now }
    ensures kept { IsSameHolder mail.old.pass mail.new.pass }
    ensures pass { IfOk result (λ p. p ≡ pass) }
{
    let mut pass = pass;
    for place in 0..packets.len() {
        pass = post_next(rt, table, boxes, charter, mail, pass, node, &packets[place])?;
    }
    Ok(pass)
}

/// Posts a packet of a node that is up. It may wait. The only error is want of memory.
#[inline(always)]
fn post_next<J: Run, R: Wait, B: Behaviour + Drop>(
    rt: &R,
    table: &LeaseTable,
    boxes: &PostBox<Parcel<J>>,
    charter: &Charter,
    mail: &mut Mail<J>,
    pass: LeasePass,
    node: &UpNode<B>,
    packet: &Packet,
) -> Result<LeasePass, AllocError>
    requires belongs { mail.old.pass.tables ≡ boxes.now.tables }
    requires nodes { length boxes.now.tables ≡ J.script.config.nodes }
    requires run { (J.script ≡ charter_of table.now) × (J.table ≡ id_of table.now) }
    requires charter { charter.now ≡ charter_of table.now }
    requires rested { Rested (id_of table.now) (charter_of table.now) mail.old.pass.node pass node.now }
    requires published { ArePublished (charter_of table.now) pass node.now.state }
    requires genuine { is_genuine_packet (charter_of table.now) packet.now ≡ true }
    ensures kept { IsSameHolder mail.old.pass mail.new.pass }
    ensures pass { IfOk result (λ p. p ≡ pass) }
{
    if confirms(&packet.body) {
        return mail.send(rt, boxes, table, pass, node, charter, packet);
    }
    mail.send_other(rt, boxes, packet)?;
    Ok(pass)
}
