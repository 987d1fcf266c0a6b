//! How a worker posts and takes.
ghost use Rattle.std.specs.Prelude.{◌≡◌, ◌≤◌, true, false, length, Some, IfOk, IfSome};
ghost use Rattle.yard_model.specs.Genuine.{is_genuine_packet};
ghost use Rattle.lease_table.specs.Belongs.{id_of, charter_of};
ghost use Rattle.rand_pcg.specs.Pcg.{pcg32};
ghost use Rattle.post_box.specs.Holding.{WasHolding};
ghost use Rattle.node_runner.specs.Counted.{and_more};
ghost use Rattle.node_runner.specs.Rested.{Rested, ArePublished};
ghost use Rattle.node_runner.specs.Parcels.{is_confirming, is_shown, is_within_packet};
ghost use Rattle.node_runner.specs.Mailed.{IsSameHolder};

use crate::draws::{Draws, Fate};
use crate::parcel::{Parcel, Run, is_within_limit};
use crate::record::note_of;
use crate::up_node::UpNode;
use behaviour_core::Behaviour;
use lease_table::{LeasePass, LeaseTable, Note};
use post_box::{BoxPass, PostBox};
use std::alloc::{AllocError, Global};
use std::sync::Wait;
use std::sync::atomic::AtomicU64;
use std::thread;
use std::time::Duration;
use yard_model::{Charter, NodeNo, Packet};

/// How often a worker lets other threads go first before it takes it that nothing is answered now.
const LOOKS: u32 = 32;

/// How often it waits so in vain before it takes another parcel.
const PATIENCE: u8 = 64;

/// For so many microseconds a worker rests where a box hands back what it posts.
const REST: u64 = 10;

/// The pass of a worker at the boxes, its draws, the parcels that it is to post after the next turn, which boxes were
/// full when it looked last, whether its own was empty then, whether one handed back what it had to post after the last
/// turn, the word at which it rests then, whether it posted something after that turn, how often it may still wait for
/// an answer, and how many packets it let go because it couldn't show what they need.
#[derive(Drop)]
pub struct Mail<J: Run> {
    pub(crate) pass: BoxPass<Parcel<J>>,
    pub(crate) draws: Draws,
    held: Vec<Parcel<J>>,
    full: [bool; 16],
    was_empty: bool,
    is_blocked: bool,
    rest: AtomicU64,
    has_asked: bool,
    patience: u8,
    pub(crate) unshown: u64,
}

impl<J: Run> Mail<J> {
    /// Nothing is held yet.
    pub fn new(alloc: Global, pass: BoxPass<Parcel<J>>, draws: Draws) -> Mail<J>
        ensures pass { result.pass ≡ pass }
        ensures draws { result.draws ≡ draws }
    {
        Mail {
            pass,
            draws,
            held: Vec::new(alloc),
            full: [false; 16],
            was_empty: false,
            is_blocked: false,
            rest: AtomicU64::new(0),
            has_asked: false,
            patience: PATIENCE,
            unshown: 0,
        }
    }

    /// So many packets more were let go because it couldn't be shown what they need.
    pub(crate) fn let_go(&mut self, count: u64)
        ensures pass { self.new.pass ≡ self.old.pass }
        ensures unshown { self.new.unshown ≡ and_more self.old.unshown count }
    {
        self.unshown = self.unshown.saturating_add(count);
    }

    /// The next word.
    pub fn draw(&mut self) -> u32
        ensures word { (result, self.new.draws.words) ≡ pcg32 self.old.draws.words }
        ensures pass { self.new.pass ≡ self.old.pass }
    {
        self.draws.next()
    }

    /// The oldest parcel of the worker's own box, if there is one. A box that was empty is counted first, which costs
    /// less than to take of it. It may wait.
    #[inline(always)]
    pub fn take<R: Wait>(&mut self, rt: &R, boxes: &PostBox<Parcel<J>>) -> Option<Parcel<J>>
        requires belongs { self.old.pass.tables ≡ boxes.now.tables }
        ensures kept { IsSameHolder self.old.pass self.new.pass }
    {
        if self.has_asked {
            self.await_answer(rt, boxes);
        }
        if self.was_empty && self.is_empty(rt, boxes) {
            return None;
        }
        self.take_next(rt, boxes)
    }

    /// After a turn in which something was posted, and while the worker's own box is empty, other threads go first a few
    /// times, so that they answer before they are asked again. Who waits in vain too often waits no more. It may wait.
    #[inline(never)]
    fn await_answer<R: Wait>(&mut self, rt: &R, boxes: &PostBox<Parcel<J>>)
        requires belongs { self.old.pass.tables ≡ boxes.now.tables }
        ensures kept { IsSameHolder self.old.pass self.new.pass }
    {
        self.has_asked = false;
        if self.patience == 0 {
            return;
        }
        self.patience -= 1;
        for _ in 0..LOOKS {
            if !self.is_empty(rt, boxes) {
                return;
            }
            thread::yield_now();
        }
    }

    /// Whether no parcel lies in the worker's own box, at a step of this call. It may wait.
    #[inline(always)]
    fn is_empty<R: Wait>(&mut self, rt: &R, boxes: &PostBox<Parcel<J>>) -> bool
        requires belongs { self.old.pass.tables ≡ boxes.now.tables }
        ensures kept { IsSameHolder self.old.pass self.new.pass }
    {
        let own = self.pass.node();
        boxes.count(rt, &mut self.pass, own) == 0
    }

    /// The oldest parcel of the worker's own box, if there is one; whether there was is kept. It may wait.
    #[inline(never)]
    fn take_next<R: Wait>(&mut self, rt: &R, boxes: &PostBox<Parcel<J>>) -> Option<Parcel<J>>
        requires belongs { self.old.pass.tables ≡ boxes.now.tables }
        ensures kept { IsSameHolder self.old.pass self.new.pass }
    {
        let own = self.pass.node();
        let parcel = boxes.take(rt, &mut self.pass, own);
        self.was_empty = parcel.is_none();
        if !self.was_empty {
            self.patience = PATIENCE;
        }
        parcel
    }

    /// Where a box handed back what was to be posted, its node takes first what lies there. It may wait.
    #[inline(always)]
    fn make_way<R: Wait>(&mut self, rt: &R, boxes: &PostBox<Parcel<J>>)
        requires belongs { self.old.pass.tables ≡ boxes.now.tables }
        ensures { self.new.pass ≡ self.old.pass }
    {
        if self.is_blocked {
            self.is_blocked = false;
            self.take_rest(rt, boxes);
        }
    }

    /// The worker rests a moment, unless its own box is half full: two whose boxes are full don't wait for one another.
    /// It may wait.
    #[inline(never)]
    fn take_rest<R: Wait>(&mut self, rt: &R, boxes: &PostBox<Parcel<J>>)
        requires belongs { self.old.pass.tables ≡ boxes.now.tables }
        ensures { self.new.pass ≡ self.old.pass }
    {
        let own = self.pass.node();
        let count = boxes.count(rt, &mut self.pass, own);
        if count < boxes.capacity() as usize / 2 {
            self.rest.park_timeout(rt, 0, Duration::from_micros(REST));
        }
    }

    /// Posts what is held, in the order in which it was kept back. Where a box was full, its node may go first. It may
    /// wait.
    #[inline(always)]
    pub fn release<R: Wait>(&mut self, rt: &R, boxes: &PostBox<Parcel<J>>)
        requires belongs { self.old.pass.tables ≡ boxes.now.tables }
        requires nodes { length boxes.now.tables ≡ J.script.config.nodes }
        ensures kept { IsSameHolder self.old.pass self.new.pass }
    {
        self.make_way(rt, boxes);
        if self.held.is_empty() {
            return;
        }
        self.release_held(rt, boxes);
    }

    /// The same where something may be held.
    #[inline(never)]
    fn release_held<R: Wait>(&mut self, rt: &R, boxes: &PostBox<Parcel<J>>)
        requires belongs { self.old.pass.tables ≡ boxes.now.tables }
        requires nodes { length boxes.now.tables ≡ J.script.config.nodes }
        ensures kept { IsSameHolder self.old.pass self.new.pass }
    {
        self.held.reverse();
        while let Some(parcel) = self.held.pop() {
            post_one(rt, boxes, &mut self.pass, &mut self.full, parcel);
        }
    }

    /// Whether the box of a node hands back what is posted to it: it was full when it was looked at last, and is full
    /// at a step of this call. It may wait.
    #[inline(always)]
    fn hands_back<R: Wait>(&mut self, rt: &R, boxes: &PostBox<Parcel<J>>, to: NodeNo) -> bool
        requires belongs { self.old.pass.tables ≡ boxes.now.tables }
        requires to { to ≤ length boxes.now.tables }
        ensures kept { IsSameHolder self.old.pass self.new.pass }
        ensures full { result ≡ true → WasHolding boxes.now.capacity self.old.pass to }
    {
        let place = to.get() as usize - 1;
        if !self.full[place] {
            return false;
        }
        let count = boxes.count(rt, &mut self.pass, to);
        let is_full = is_all(count, boxes.capacity());
        self.full[place] = is_full;
        self.is_blocked = self.is_blocked || is_full;
        is_full
    }

    /// Posts a packet, with a note that has seen the record where it confirms something; where the box hands it back, it
    /// is lost, and the box is full. It may wait.
    #[inline(never)]
    fn post_with<R: Wait>(
        &mut self,
        rt: &R,
        boxes: &PostBox<Parcel<J>>,
        packet: &Packet,
        note: Option<Note>,
    )
        requires belongs { self.old.pass.tables ≡ boxes.now.tables }
        requires nodes { length boxes.now.tables ≡ J.script.config.nodes }
        requires genuine { is_genuine_packet J.script packet.now ≡ true }
        requires within { is_within_packet packet.now ≡ true }
        requires note { IfSome note (λ w. w.table ≡ J.table) }
        requires shown { is_shown J.script packet.now.body note ≡ true }
        ensures kept { IsSameHolder self.old.pass self.new.pass }
    {
        let to = node_to::<J>(packet);
        let place = to.get() as usize - 1;
        let is_full = boxes
            .post(rt, &mut self.pass, to, Parcel::new(*packet, note))
            .is_err();
        self.full[place] = is_full;
        self.is_blocked = self.is_blocked || is_full;
    }

    /// Keeps a packet back, with a note that has seen the record where it confirms something: it is posted after the next
    /// turn. The only error is want of memory.
    #[inline(never)]
    fn keep_back(&mut self, packet: &Packet, note: Option<Note>) -> Result<(), AllocError>
        requires genuine { is_genuine_packet J.script packet.now ≡ true }
        requires within { is_within_packet packet.now ≡ true }
        requires note { IfSome note (λ w. w.table ≡ J.table) }
        requires shown { is_shown J.script packet.now.body note ≡ true }
        ensures pass { self.new.pass ≡ self.old.pass }
    {
        self.held.push(Parcel::new(*packet, note))?;
        Ok(())
    }

    /// Posts a packet that confirms nothing twice. It may wait.
    #[inline(never)]
    fn post_twice<R: Wait>(&mut self, rt: &R, boxes: &PostBox<Parcel<J>>, packet: &Packet)
        requires belongs { self.old.pass.tables ≡ boxes.now.tables }
        requires nodes { length boxes.now.tables ≡ J.script.config.nodes }
        requires genuine { is_genuine_packet J.script packet.now ≡ true }
        requires within { is_within_packet packet.now ≡ true }
        requires plain { is_confirming packet.now.body ≡ false }
        ensures kept { IsSameHolder self.old.pass self.new.pass }
    {
        self.post_plain(rt, boxes, packet);
        self.post_plain(rt, boxes, packet);
    }

    /// Posts a packet that confirms nothing; where the box hands it back, it is lost. It may wait.
    #[inline(always)]
    #[tactic(auto, using(crate::proofs::Confirming::plain_shown))]
    fn post_plain<R: Wait>(&mut self, rt: &R, boxes: &PostBox<Parcel<J>>, packet: &Packet)
        requires belongs { self.old.pass.tables ≡ boxes.now.tables }
        requires nodes { length boxes.now.tables ≡ J.script.config.nodes }
        requires genuine { is_genuine_packet J.script packet.now ≡ true }
        requires within { is_within_packet packet.now ≡ true }
        requires plain { is_confirming packet.now.body ≡ false }
        ensures kept { IsSameHolder self.old.pass self.new.pass }
    {
        self.has_asked = true;
        let to = node_to::<J>(packet);
        if !self.hands_back(rt, boxes, to) {
            self.post_with(rt, boxes, packet, None);
        }
    }

    /// The same as `send_plain`, where an incarnation in the packet may have a number above 4,000,000,000: then it is
    /// let go. It may wait. The only error is want of memory.
    #[inline(always)]
    pub(crate) fn send_other<R: Wait>(
        &mut self,
        rt: &R,
        boxes: &PostBox<Parcel<J>>,
        packet: &Packet,
    ) -> Result<(), AllocError>
        requires belongs { self.old.pass.tables ≡ boxes.now.tables }
        requires nodes { length boxes.now.tables ≡ J.script.config.nodes }
        requires genuine { is_genuine_packet J.script packet.now ≡ true }
        requires plain { is_confirming packet.now.body ≡ false }
        ensures kept { IsSameHolder self.old.pass self.new.pass }
    {
        if is_within_limit(packet) {
            self.send_plain(rt, boxes, packet)
        } else {
            self.let_go(1);
            Ok(())
        }
    }

    /// Draws what becomes of a packet that confirms nothing, as a view, and posts it so. It may wait. The
    /// only error is want of memory.
    #[inline(always)]
    #[tactic(auto, using(crate::proofs::Confirming::plain_shown))]
    pub fn send_plain<R: Wait>(
        &mut self,
        rt: &R,
        boxes: &PostBox<Parcel<J>>,
        packet: &Packet,
    ) -> Result<(), AllocError>
        requires belongs { self.old.pass.tables ≡ boxes.now.tables }
        requires nodes { length boxes.now.tables ≡ J.script.config.nodes }
        requires genuine { is_genuine_packet J.script packet.now ≡ true }
        requires within { is_within_packet packet.now ≡ true }
        requires plain { is_confirming packet.now.body ≡ false }
        ensures kept { IsSameHolder self.old.pass self.new.pass }
    {
        match self.draws.fate() {
            Fate::Lost => Ok(()),
            Fate::Later => self.keep_back(packet, None),
            Fate::Once => {
                self.post_plain(rt, boxes, packet);
                Ok(())
            }
            Fate::Twice => {
                self.post_twice(rt, boxes, packet);
                Ok(())
            }
        }
    }

    /// Posts a packet with a note, if there is one. It may wait.
    fn post_if<R: Wait>(
        &mut self,
        rt: &R,
        boxes: &PostBox<Parcel<J>>,
        packet: &Packet,
        note: Option<Note>,
    )
        requires belongs { self.old.pass.tables ≡ boxes.now.tables }
        requires nodes { length boxes.now.tables ≡ J.script.config.nodes }
        requires genuine { is_genuine_packet J.script packet.now ≡ true }
        requires within { IfSome note (λ _. is_within_packet packet.now ≡ true) }
        requires note { IfSome note (λ w. w.table ≡ J.table) }
        requires shown { IfSome note (λ w. is_shown J.script packet.now.body (Some w) ≡ true) }
        ensures kept { IsSameHolder self.old.pass self.new.pass }
    {
        if let Some(note) = note {
            self.post_with(rt, boxes, packet, Some(note));
        }
    }

    /// Draws what becomes of a packet that the node posted in a turn, and posts it so, with a note where it
    /// confirms a record; it is lost where the record can't be shown. It may wait. The only error is want
    /// of memory.
    pub fn send<R: Wait, B: Behaviour + Drop>(
        &mut self,
        rt: &R,
        boxes: &PostBox<Parcel<J>>,
        table: &LeaseTable,
        pass: LeasePass,
        node: &UpNode<B>,
        charter: &Charter,
        packet: &Packet,
    ) -> Result<LeasePass, AllocError>
        requires belongs { self.old.pass.tables ≡ boxes.now.tables }
        requires nodes { length boxes.now.tables ≡ J.script.config.nodes }
        requires run { (J.script ≡ charter_of table.now) × (J.table ≡ id_of table.now) }
        requires charter { charter.now ≡ charter_of table.now }
        requires rested { Rested (id_of table.now) (charter_of table.now) self.old.pass.node pass node.now }
        requires published { ArePublished (charter_of table.now) pass node.now.state }
        requires genuine { is_genuine_packet (charter_of table.now) packet.now ≡ true }
        ensures kept { IsSameHolder self.old.pass self.new.pass }
        ensures pass { IfOk result (λ p. p ≡ pass) }
    {
        let me = self.pass.node();
        let fate = self.draws.fate();
        if matches!(fate, Fate::Lost) {
            return Ok(pass);
        }
        let (pass, note) = note_of::<J, B>(table, pass, me, node, charter, packet);
        let Some(note) = note else {
            self.let_go(1);
            return Ok(pass);
        };
        if matches!(fate, Fate::Later) {
            self.keep_back(packet, Some(note))?;
            return Ok(pass);
        }
        self.has_asked = true;
        self.post_with(rt, boxes, packet, Some(note));
        if matches!(fate, Fate::Twice) {
            let (pass, again) = note_of::<J, B>(table, pass, me, node, charter, packet);
            self.post_if(rt, boxes, packet, again);
            return Ok(pass);
        }
        Ok(pass)
    }
}

/// Posts a parcel; one that is handed back is lost, and its box is full.
fn post_one<J: Run, R: Wait>(
    rt: &R,
    boxes: &PostBox<Parcel<J>>,
    pass: &mut BoxPass<Parcel<J>>,
    full: &mut [bool; 16],
    parcel: Parcel<J>,
)
    requires belongs { pass.old.tables ≡ boxes.now.tables }
    requires nodes { length boxes.now.tables ≡ J.script.config.nodes }
    ensures kept { IsSameHolder pass.old pass.new }
{
    let to = parcel.to();
    let place = to.get() as usize - 1;
    full[place] = boxes.post(rt, pass, to, parcel).is_err();
}

/// Whether a box has no room beside so many parcels.
fn is_all(count: usize, capacity: u16) -> bool
    requires { count ≤ capacity }
    ensures { result ≡ true → count ≡ capacity }
{
    count >= capacity as usize
}

/// The node to which a packet goes, one of the run's.
fn node_to<J: Run>(packet: &Packet) -> NodeNo
    requires { is_genuine_packet J.script packet.now ≡ true }
    ensures { result ≤ J.script.config.nodes }
{
    packet.to.node
}
