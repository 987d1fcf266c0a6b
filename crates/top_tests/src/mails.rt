//! What no clause says: what becomes of a packet for each draw.
ghost use Rattle.std.specs.Prelude.{◌≡◌, ◌≤◌, true, false, length};
ghost use Rattle.yard_model.specs.declared.packet.Body.TheVariants as body;
ghost use Rattle.yard_model.specs.Genuine.{is_genuine_packet};
ghost use Rattle.node_runner.specs.Parcels.{is_confirming, is_within_packet};

use node_runner::{Draws, Mail, Parcel, Run};
use post_box::{BoxPass, PostBox};
use std::alloc::{AllocError, Global};
use std::marker::Brand;
use std::sync::Wait;
use std::test::Fail;
use yard_model::{Body, Incarnation, NodeNo, Packet};

/// A seed of the first node's worker whose first word is this one, modulo 16.
fn seed_of(word: u32) -> Option<u32> {
    for seed in 0..1_000 {
        if Draws::new(seed, NodeNo::FIRST).next() % 16 == word {
            return Some(seed);
        }
    }
    None
}

/// How many parcels lie in a node's box, of at most eight; they are taken.
fn taken<J: Run, R: Wait>(rt: &R, boxes: &PostBox<Parcel<J>>, pass: &mut BoxPass<Parcel<J>>) -> u8
    requires belongs { pass.old.tables ≡ boxes.now.tables }
    ensures belongs { pass.new.tables ≡ boxes.now.tables }
{
    let own = pass.node();
    for count in 0..8 {
        if boxes.take(rt, pass, own).is_none() {
            return count;
        }
    }
    8
}

/// A packet is sent by the holder of a pass: how many parcels of it come to the second node at once, and how many
/// after the next turn.
fn came_by<J: Run, R: Wait>(
    rt: &R,
    boxes: &PostBox<Parcel<J>>,
    mail: &mut Mail<J>,
    two: &mut BoxPass<Parcel<J>>,
    packet: &Packet,
) -> Result<(u8, u8), AllocError>
    requires one { mail.old.pass.tables ≡ boxes.now.tables }
    requires two { two.old.tables ≡ boxes.now.tables }
    requires genuine { is_genuine_packet J.script packet.now ≡ true }
    requires within { is_within_packet packet.now ≡ true }
    requires plain { is_confirming packet.now.body ≡ false }
    requires nodes { J.script.config.nodes ≡ 2 }
    requires boxes { length boxes.now.tables ≡ 2 }
{
    mail.send_plain(rt, boxes, packet)?;
    let soon = taken(rt, boxes, two);
    mail.release(rt, boxes);
    Ok((soon, taken(rt, boxes, two)))
}

/// A packet is sent by the first node, whose draws are of this seed: how many parcels of it come to the second at
/// once, and how many after the next turn.
fn came<J: Run, R: Wait>(
    rt: &R,
    alloc: Global,
    packet: &Packet,
    seed: u32,
) -> Result<(u8, u8), AllocError>
    requires genuine { is_genuine_packet J.script packet.now ≡ true }
    requires within { is_within_packet packet.now ≡ true }
    requires plain { is_confirming packet.now.body ≡ false }
    requires nodes { J.script.config.nodes ≡ 2 }
{
    let (boxes, mut passes) = PostBox::<Parcel<J>>::make(alloc, 2, 4)?;
    let Some(one) = passes.next() else {
        unreachable!()
    };
    let Some(mut two) = passes.next() else {
        unreachable!()
    };
    let mut mail = Mail::new(alloc, one, Draws::new(seed, NodeNo::FIRST));
    came_by(rt, &boxes, &mut mail, &mut two, packet)
}

/// A packet of the first node to the second.
fn packet_to(second: NodeNo) -> Packet
    requires { second ≡ 2 }
    ensures { result ≡ record { from = record { node = 1; number = 1 }; to = record { node = 2; number = 1 }; body = body.Register } }
{
    Packet {
        from: Incarnation {
            node: NodeNo::FIRST,
            number: 1,
        },
        to: Incarnation {
            node: second,
            number: 1,
        },
        body: Body::Register,
    }
}

/// The first word of a worker's draws, and how many parcels come at once and after the next turn.
const FATES: [(u32, (u8, u8)); 4] = [(0, (0, 0)), (1, (2, 0)), (2, (0, 1)), (3, (1, 0))];

/// Whether a packet has this fate where that word is drawn.
fn has_fate<R: Wait>(rt: &R, alloc: Global, word: u32, fate: (u8, u8)) -> Result<bool, AllocError> {
    let (Some(second), Some(seed)) = (NodeNo::new(2), seed_of(word)) else {
        return Ok(false);
    };
    let packet = packet_to(second);
    Ok(came::<Brand, R>(rt, alloc, &packet, seed)? == fate)
}

/// Whether it has each fate.
fn has_fates<R: Wait>(rt: &R, alloc: Global) -> Result<bool, AllocError> {
    for (word, fate) in &FATES {
        if !has_fate(rt, alloc, *word, *fate)? {
            return Ok(false);
        }
    }
    Ok(true)
}

#[test]
fn a_packet_has_its_fate(rt: HostRuntime) -> Result<(), Fail> {
    assert!(rt; has_fates(&rt, rt.alloc())?);
    Ok(())
}
