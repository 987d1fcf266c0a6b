//! The worker of a node: so many turns, and the end.
ghost use Rattle.std.specs.Prelude.{◌≡◌, ◌+◌, ◌<◌, ◌≤◌, ◌⊎◌, ◌&&◌, true, not, [], length, is_some, nat_lt, Some, None, IfOk, OnOk, MatchOption, if◌then◌else◌};
ghost use Rattle.yard_model.specs.Behaviour.{is_in};
ghost use Rattle.yard_model.specs.Script.{is_version};
ghost use Rattle.lease_table.specs.Belongs.{id_of, charter_of};
ghost use Rattle.lease_table.specs.Fits.{is_within};
ghost use Rattle.lease_table.specs.Leasing.{Idle};
ghost use Rattle.node_runner.specs.Counted.{IsCounted, next_up};
ghost use Rattle.node_runner.specs.Mailed.{IsSameHolder};
ghost use Rattle.node_runner.specs.OnWay.{OnWay, IsDone};
ghost use Rattle.node_runner.specs.Posts.{IsGenuineTray, KeepsTray};
ghost use Rattle.node_runner.specs.Progress.{StandsAt, GoesOn, SawAll};
ghost use Rattle.node_runner.specs.Rested.{Rested, ArePublished};

use crate::draws::Draws;
use crate::mail::Mail;
use crate::parcel::{Parcel, Run};
use crate::roster::{Roster, let_go};
use crate::sending::{member, post_place, tell_roster};
use crate::steps::{Place, finish, give, take_order, take_packet};
use crate::tray::Tray;
use crate::up_node::UpNode;
use behaviour_core::Behaviour;
use lease_table::{LeasePass, LeaseTable};
use post_box::{BoxPass, PostBox};
use std::alloc::{AllocError, Global};
use std::sync::{Mutex, Wait};
use worker_orders::Orders;
use yard_io::Gate;
use yard_model::{Charter, Incarnation, Input, NodeNo, Order};

/// No incarnation of a live run has a greater number.
const LIMIT: u32 = 4_000_000_000;

/// How far a worker is with its orders: its next one and those after it, how many of its last turns took
/// none, and how often its node came up.
#[derive(Drop)]
pub struct Course<'c> {
    pub(crate) next: Option<Order>,
    pub(crate) orders: Orders<'c>,
    pub(crate) idle: u8,
    pub(crate) ups: u32,
}

/// A worker begins, with its pass.
#[tactic(auto, using(crate::proofs::Ways::first_way))]
fn begin<'c>(table: &LeaseTable, charter: &'c Charter, me: NodeNo, pass: &LeasePass) -> Course<'c>
    requires charter { charter.now ≡ charter_of table.now }
    requires idle { Idle (id_of table.now) (charter_of table.now) me pass.now }
    ensures { OnWay (id_of table.now) (charter_of table.now) me 0 pass.now None result.next result.orders result.idle }
{
    let _ = table;
    let _ = pass;
    let mut orders = Orders::new(charter, me);
    let next = orders.next();
    Course {
        next,
        orders,
        idle: 0,
        ups: 0,
    }
}

/// The next order, where it is due: where the node isn't up, by the draw, or after three turns without.
fn due_order(next: &Option<Order>, is_up: bool, idle: u8, draw: u32) -> Option<Order>
    ensures { MatchOption result ((next.now ≡ None) ⊎ ((is_up ≡ true) × (idle < 3))) (λ o. next.now ≡ Some o) }
{
    if !is_up || draw % 4 == 0 || idle >= 3 {
        *next
    } else {
        None
    }
}

/// A worker's turn, by itself. It may wait.
fn one_turn<'c, J: Run, R: Wait, B: Behaviour + Copy + Drop>(
    rt: &R,
    alloc: Global,
    table: &LeaseTable,
    boxes: &PostBox<Parcel<J>>,
    charter: &'c Charter,
    me: NodeNo,
    mail: &mut Mail<J>,
    place: Place<B>,
    course: &mut Course<'c>,
    draw: u32,
    turn: u32,
    behaviour: B,
    tray: &mut Tray,
) -> Result<Place<B>, AllocError>
    requires charter { charter.now ≡ charter_of table.now }
    requires node { is_in 1 charter.now.config.nodes me ≡ true }
    requires kind { B.kind_of behaviour ≡ charter.now.config.kind }
    requires version { is_version charter.now (B.version_of behaviour) ≡ true }
    requires run { (J.script ≡ charter_of table.now) × (J.table ≡ id_of table.now) }
    requires belongs { mail.old.pass.tables ≡ boxes.now.tables }
    requires on_way { OnWay (id_of table.now) (charter_of table.now) me turn place.pass place.node course.old.next course.old.orders course.old.idle }
    ensures on_way { IfOk result (λ r. OnWay (id_of table.now) (charter_of table.now) me (turn + 1) r.pass r.node course.new.next course.new.orders course.new.idle) }
    ensures posts { OnOk result (KeepsTray (charter_of table.now) tray.old tray.new) }
    ensures kept { IsSameHolder mail.old.pass mail.new.pass }
{
    match due_order(&course.next, place.node.is_some(), course.idle, draw) {
        Some(order) => order_turn(
            alloc, table, charter, me, place, course, &order, turn, behaviour, tray,
        ),
        None => other_turn(
            rt, table, boxes, charter, me, mail, place, course, turn, tray,
        ),
    }
}

/// A worker's turn that takes an order.
fn order_turn<'c, B: Behaviour + Copy + Drop>(
    alloc: Global,
    table: &LeaseTable,
    charter: &'c Charter,
    me: NodeNo,
    place: Place<B>,
    course: &mut Course<'c>,
    order: &Order,
    turn: u32,
    behaviour: B,
    tray: &mut Tray,
) -> Result<Place<B>, AllocError>
    requires charter { charter.now ≡ charter_of table.now }
    requires node { is_in 1 charter.now.config.nodes me ≡ true }
    requires kind { B.kind_of behaviour ≡ charter.now.config.kind }
    requires version { is_version charter.now (B.version_of behaviour) ≡ true }
    requires on_way { OnWay (id_of table.now) (charter_of table.now) me turn place.pass place.node course.old.next course.old.orders course.old.idle }
    requires next { course.old.next ≡ Some order.now }
    ensures on_way { IfOk result (λ r. OnWay (id_of table.now) (charter_of table.now) me (turn + 1) r.pass r.node course.new.next course.new.orders course.new.idle) }
    ensures counted { IfOk result (λ r. IsCounted place.node course.old.ups r.node course.new.ups) }
    ensures posts { OnOk result (KeepsTray (charter_of table.now) tray.old tray.new) }
{
    let _ = turn;
    let number = next_number(course.ups);
    let was_up = place.node.is_some();
    let place = take_order(
        alloc, table, charter, me, place, order, number, behaviour, tray,
    )?;
    let is_up = place.node.is_some();
    course.ups = ups_after(course.ups, number, was_up, is_up);
    let next = course.orders.next();
    course.next = next;
    course.idle = 0;
    Ok(place)
}

/// A worker's turn that takes no order. It may wait.
fn other_turn<'c, J: Run, R: Wait, B: Behaviour + Drop>(
    rt: &R,
    table: &LeaseTable,
    boxes: &PostBox<Parcel<J>>,
    charter: &'c Charter,
    me: NodeNo,
    mail: &mut Mail<J>,
    place: Place<B>,
    course: &mut Course<'c>,
    turn: u32,
    tray: &mut Tray,
) -> Result<Place<B>, AllocError>
    requires charter { charter.now ≡ charter_of table.now }
    requires run { (J.script ≡ charter_of table.now) × (J.table ≡ id_of table.now) }
    requires belongs { mail.old.pass.tables ≡ boxes.now.tables }
    requires on_way { OnWay (id_of table.now) (charter_of table.now) me turn place.pass place.node course.old.next course.old.orders course.old.idle }
    requires none { (course.old.next ≡ None) ⊎ ((is_some place.node ≡ true) × (course.old.idle < 3)) }
    ensures on_way { IfOk result (λ r. OnWay (id_of table.now) (charter_of table.now) me (turn + 1) r.pass r.node course.new.next course.new.orders course.new.idle) }
    ensures posts { OnOk result (KeepsTray (charter_of table.now) tray.old tray.new) }
    ensures kept { IsSameHolder mail.old.pass mail.new.pass }
{
    let _ = turn;
    let parcel = mail.take(rt, boxes);
    let mut unshown = 0;
    let place = tick(table, charter, me, place, parcel, &mut unshown, tray)?;
    mail.let_go(unshown);
    course.idle = more_idle(course.idle);
    Ok(place)
}

/// A node that is up takes the parcel, or gets its timer where there is none. A packet that is let go, since what it
/// needs can't be shown, is counted.
fn tick<J: Run, B: Behaviour + Drop>(
    table: &LeaseTable,
    charter: &Charter,
    me: NodeNo,
    place: Place<B>,
    parcel: Option<Parcel<J>>,
    unshown: &mut u64,
    tray: &mut Tray,
) -> Result<Place<B>, AllocError>
    requires charter { charter.now ≡ charter_of table.now }
    requires run { (J.script ≡ charter_of table.now) × (J.table ≡ id_of table.now) }
    requires stands { StandsAt (id_of table.now) (charter_of table.now) me place.pass place.node }
    ensures stands { IfOk result (λ r. StandsAt (id_of table.now) (charter_of table.now) me r.pass r.node) }
    ensures goes_on { IfOk result (λ r. GoesOn (charter_of table.now) me place.pass place.node r.pass r.node) }
    ensures posts { OnOk result (KeepsTray (charter_of table.now) tray.old tray.new) }
{
    let Place { pass, node } = place;
    match node {
        None => Ok(Place { pass, node: None }),
        Some(node) => wake(table, charter, me, pass, node, parcel, unshown, tray),
    }
}

/// The node, which is up, takes the parcel, or gets its timer where there is none. A packet that is let go, since
/// what it needs can't be shown, is counted.
fn wake<J: Run, B: Behaviour + Drop>(
    table: &LeaseTable,
    charter: &Charter,
    me: NodeNo,
    pass: LeasePass,
    node: UpNode<B>,
    parcel: Option<Parcel<J>>,
    unshown: &mut u64,
    tray: &mut Tray,
) -> Result<Place<B>, AllocError>
    requires charter { charter.now ≡ charter_of table.now }
    requires run { (J.script ≡ charter_of table.now) × (J.table ≡ id_of table.now) }
    requires rested { Rested (id_of table.now) (charter_of table.now) me pass node }
    requires published { ArePublished (charter_of table.now) pass node.state }
    ensures stands { IfOk result (λ r. StandsAt (id_of table.now) (charter_of table.now) me r.pass r.node) }
    ensures goes_on { IfOk result (λ r. GoesOn (charter_of table.now) me pass (Some node) r.pass r.node) }
    ensures posts { OnOk result (KeepsTray (charter_of table.now) tray.old tray.new) }
{
    let Some(parcel) = parcel else {
        return give(table, charter, me, pass, node, &Input::Tick, tray);
    };
    let (packet, note) = parcel.into_parts();
    take_packet(table, charter, me, pass, node, &packet, note, unshown, tray)
}

/// One more turn without an order, of which three are counted.
fn more_idle(idle: u8) -> u8
    requires { idle ≤ 3 }
    ensures { result ≡ (if nat_lt idle 3 then idle + 1 else idle) }
{
    if idle < 3 { idle + 1 } else { idle }
}

/// How often the node came up so far, where this is the number of what comes up now.
fn ups_after(ups: u32, number: u32, was_up: bool, is_up: bool) -> u32
    ensures { result ≡ (if not was_up && is_up then number else ups) }
{
    if !was_up && is_up { number } else { ups }
}

/// The number of the node's next incarnation.
fn next_number(ups: u32) -> u32
    ensures within { is_within result ≡ true }
    ensures next { result ≡ next_up ups }
{
    if ups < LIMIT { ups + 1 } else { LIMIT }
}

/// Whether nothing is left to do: no order, and no node that is up.
fn is_over<B: Behaviour>(place: &Place<B>, course: &Course<'_>) -> bool
    ensures { result ≡ true → course.now.next ≡ None }
{
    course.next.is_none() && place.node.is_none()
}

/// A worker's turn, and what is posted after it. It may wait. The only error is want of memory.
fn whole_turn<'c, J: Run, R: Wait, B: Behaviour + Copy + Drop>(
    rt: &R,
    alloc: Global,
    table: &LeaseTable,
    boxes: &PostBox<Parcel<J>>,
    roster: &Mutex<Roster<J>>,
    charter: &'c Charter,
    me: NodeNo,
    mail: &mut Mail<J>,
    place: Place<B>,
    course: &mut Course<'c>,
    draw: u32,
    turn: u32,
    behaviour: B,
    tray: &mut Tray,
) -> Result<Place<B>, AllocError>
    requires charter { charter.now ≡ charter_of table.now }
    requires node { is_in 1 charter.now.config.nodes me ≡ true }
    requires kind { B.kind_of behaviour ≡ charter.now.config.kind }
    requires version { is_version charter.now (B.version_of behaviour) ≡ true }
    requires run { (J.script ≡ charter_of table.now) × (J.table ≡ id_of table.now) }
    requires belongs { mail.old.pass.tables ≡ boxes.now.tables }
    requires nodes { length boxes.now.tables ≡ J.script.config.nodes }
    requires own { mail.old.pass.node ≡ me }
    requires on_way { OnWay (id_of table.now) (charter_of table.now) me turn place.pass place.node course.old.next course.old.orders course.old.idle }
    requires genuine { IsGenuineTray (charter_of table.now) tray.old }
    ensures on_way { IfOk result (λ r. OnWay (id_of table.now) (charter_of table.now) me (turn + 1) r.pass r.node course.new.next course.new.orders course.new.idle) }
    ensures kept { IsSameHolder mail.old.pass mail.new.pass }
    ensures genuine { OnOk result (IsGenuineTray (charter_of table.now) tray.new) }
{
    let before = member(table, me, &place);
    let place = one_turn(
        rt, alloc, table, boxes, charter, me, mail, place, course, draw, turn, behaviour, tray,
    )?;
    post_turn(
        rt, table, boxes, roster, charter, me, mail, place, before, tray,
    )
}

/// After a turn: what was held is posted, then the views where the node came up or went, then what the
/// node posted. It may wait. The only error is want of memory.
fn post_turn<J: Run, R: Wait, B: Behaviour + Drop>(
    rt: &R,
    table: &LeaseTable,
    boxes: &PostBox<Parcel<J>>,
    roster: &Mutex<Roster<J>>,
    charter: &Charter,
    me: NodeNo,
    mail: &mut Mail<J>,
    place: Place<B>,
    before: Option<Incarnation>,
    tray: &mut Tray,
) -> Result<Place<B>, AllocError>
    requires charter { charter.now ≡ charter_of table.now }
    requires node { is_in 1 charter.now.config.nodes me ≡ true }
    requires run { (J.script ≡ charter_of table.now) × (J.table ≡ id_of table.now) }
    requires belongs { mail.old.pass.tables ≡ boxes.now.tables }
    requires nodes { length boxes.now.tables ≡ J.script.config.nodes }
    requires own { mail.old.pass.node ≡ me }
    requires stands { StandsAt (id_of table.now) (charter_of table.now) me place.pass place.node }
    requires genuine { IsGenuineTray (charter_of table.now) tray.old }
    ensures place { IfOk result (λ r. (r.pass ≡ place.pass) × (r.node ≡ place.node)) }
    ensures kept { IsSameHolder mail.old.pass mail.new.pass }
    ensures genuine { OnOk result (IsGenuineTray (charter_of table.now) tray.new) }
{
    mail.release(rt, boxes);
    let after = member(table, me, &place);
    tell_roster(rt, boxes, roster, mail, before, after)?;
    post_place(rt, table, boxes, charter, mail, place, tray)
}

/// All turns of a worker, or those until nothing is left to do. It may wait. The only error is want of
/// memory.
fn run_turns<'c, J: Run, R: Wait, B: Behaviour + Copy + Drop, G: Gate>(
    rt: &R,
    alloc: Global,
    table: &LeaseTable,
    boxes: &PostBox<Parcel<J>>,
    roster: &Mutex<Roster<J>>,
    charter: &'c Charter,
    me: NodeNo,
    mail: &mut Mail<J>,
    place: Place<B>,
    course: Course<'c>,
    turns: u32,
    gate: &G,
    behaviour: B,
    tray: &mut Tray,
) -> Result<Place<B>, AllocError>
    requires charter { charter.now ≡ charter_of table.now }
    requires node { is_in 1 charter.now.config.nodes me ≡ true }
    requires kind { B.kind_of behaviour ≡ charter.now.config.kind }
    requires version { is_version charter.now (B.version_of behaviour) ≡ true }
    requires run { (J.script ≡ charter_of table.now) × (J.table ≡ id_of table.now) }
    requires belongs { mail.old.pass.tables ≡ boxes.now.tables }
    requires nodes { length boxes.now.tables ≡ J.script.config.nodes }
    requires own { mail.old.pass.node ≡ me }
    requires on_way { OnWay (id_of table.now) (charter_of table.now) me 0 place.pass place.node course.next course.orders course.idle }
    requires genuine { IsGenuineTray (charter_of table.now) tray.old }
    ensures done { IfOk result (λ x. IsDone (id_of table.now) (charter_of table.now) turns me x.pass x.node) }
    ensures kept { IsSameHolder mail.old.pass mail.new.pass }
{
    let mut place = place;
    let mut course = course;
    for turn in 0..turns {
        gate.pass(me, turn + 1);
        let draw = mail.draw();
        if is_over(&place, &course) {
            return Ok(place);
        }
        place = whole_turn(
            rt,
            alloc,
            table,
            boxes,
            roster,
            charter,
            me,
            mail,
            place,
            &mut course,
            draw,
            turn,
            behaviour,
            tray,
        )?;
    }
    Ok(place)
}

/// The worker of a node, from its passes at the table and at the boxes to the end of its turns; then its
/// node goes. It holds nothing then, and its pass has seen all sends of its steady producers queued. The
/// roster has then counted what it let go. It may wait. The only error is want of memory.
pub fn work<J: Run, R: Wait, B: Behaviour + Copy + Drop, G: Gate>(
    rt: &R,
    alloc: Global,
    table: &LeaseTable,
    boxes: &PostBox<Parcel<J>>,
    roster: &Mutex<Roster<J>>,
    charter: &Charter,
    me: NodeNo,
    pass: LeasePass,
    box_pass: BoxPass<Parcel<J>>,
    turns: u32,
    seed: u32,
    gate: &G,
    behaviour: B,
) -> Result<LeasePass, AllocError>
    requires charter { charter.now ≡ charter_of table.now }
    requires node { is_in 1 charter.now.config.nodes me ≡ true }
    requires kind { B.kind_of behaviour ≡ charter.now.config.kind }
    requires version { is_version charter.now (B.version_of behaviour) ≡ true }
    requires run { (J.script ≡ charter_of table.now) × (J.table ≡ id_of table.now) }
    requires belongs { box_pass.tables ≡ boxes.now.tables }
    requires nodes { length boxes.now.tables ≡ J.script.config.nodes }
    requires own { box_pass.node ≡ me }
    requires idle { Idle (id_of table.now) (charter_of table.now) me pass }
    ensures idle { IfOk result (Idle (id_of table.now) (charter_of table.now) me) }
    ensures saw { IfOk result (SawAll (charter_of table.now) turns me) }
{
    let mut tray = Tray::new(alloc);
    let mut mail = Mail::new(alloc, box_pass, Draws::new(seed, me));
    let course = begin(table, charter, me, &pass);
    let place = Place { pass, node: None };
    let place = run_turns(
        rt, alloc, table, boxes, roster, charter, me, &mut mail, place, course, turns, gate,
        behaviour, &mut tray,
    )?;
    let before = member(table, me, &place);
    let pass = finish(table, me, place, &mut tray)?;
    tell_roster(rt, boxes, roster, &mut mail, before, None)?;
    let_go(rt, roster, mail.unshown);
    Ok(pass)
}
