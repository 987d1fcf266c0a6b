//! What no clause says: that memory is there where there is plenty, that a parcel which was posted is
//! there to be taken, and that none is lost between threads.
ghost use Rattle.std.specs.Prelude.{◌≡◌, ◌+◌, ◌<◌, ◌≤◌, length, IfOk};
ghost use Rattle.post_box.specs.Holding.{new_holder};
ghost use Rattle.post_box.specs.Left.{left_of};

use post_box::{BoxPass, PostBox};
use std::alloc::{AllocError, Global};
use std::sync::Wait;
use std::test::Fail;
use std::thread;
use std::thread::Threads;
use yard_model::NodeNo;

// Two boxes, and the pass of each.
type Pair = (PostBox<u32>, BoxPass<u32>, BoxPass<u32>);

fn two_boxes(alloc: Global, capacity: u16) -> Result<Pair, AllocError>
    requires { 0 < capacity }
    ensures boxes { IfOk result (λ r. length r.0.tables ≡ 2) }
    ensures passes { IfOk result (λ r. (r.1 ≡ new_holder r.0.tables 1) × (r.2 ≡ new_holder r.0.tables 2)) }
{
    let (boxes, mut passes) = PostBox::<u32>::make(alloc, 2, capacity)?;
    let Some(one) = passes.next() else {
        unreachable!()
    };
    let Some(two) = passes.next() else {
        unreachable!()
    };
    Ok((boxes, one, two))
}

// What calls on empty boxes of one place answer: what is taken, how many there are, and what a full box hands back.
fn answers<R: Wait>(
    rt: &R,
    boxes: &PostBox<u32>,
    one: &mut BoxPass<u32>,
    two: &mut BoxPass<u32>,
    second: NodeNo,
) -> ([Option<u32>; 5], [usize; 2])
    requires one { one.old.tables ≡ boxes.now.tables }
    requires two { two.old.tables ≡ boxes.now.tables }
    requires own { second ≡ two.old.node }
    requires second { second ≤ length boxes.now.tables }
{
    let nothing = boxes.take(rt, two, second);
    let before = boxes.count(rt, one, second);
    let posted = boxes.post(rt, one, second, 5).err();
    let after = boxes.count(rt, one, second);
    let back = boxes.post(rt, one, second, 6).err();
    let taken = boxes.take(rt, two, second);
    let rest = boxes.take(rt, two, second);
    ([nothing, posted, back, taken, rest], [before, after])
}

// The same, of boxes that are made.
fn answered<R: Wait>(rt: &R, alloc: Global) -> Result<([Option<u32>; 5], [usize; 2]), AllocError> {
    let (boxes, mut one, mut two) = two_boxes(alloc, 1)?;
    let second = two.node();
    Ok(answers(rt, &boxes, &mut one, &mut two, second))
}

#[test]
fn a_full_box_hands_back(rt: HostRuntime) -> Result<(), Fail> {
    let wanted = ([None, None, Some(6), Some(5), None], [0, 1]);
    assert!(rt; answered(&rt, rt.alloc())? == wanted);
    Ok(())
}

// A node's pass, how many parcels it posted that a box took, and how many it took from its own box.
type Talked = (BoxPass<u32>, u32, u32);

// A node posts to another, and takes from its own box, in a bounded number of steps.
fn talk<R: Wait>(rt: &R, boxes: &PostBox<u32>, mut pass: BoxPass<u32>, to: NodeNo) -> Talked
    requires belongs { pass.tables ≡ boxes.now.tables }
    requires to { to ≤ length boxes.now.tables }
    ensures belongs { result.0.tables ≡ boxes.now.tables }
{
    let own = pass.node();
    let mut posted: u32 = 0;
    let mut taken: u32 = 0;
    for number in 0..50 {
        let answer = boxes.post(rt, &mut pass, to, number);
        posted = posted.saturating_add(u32::from(answer.is_ok()));
        let parcel = boxes.take(rt, &mut pass, own);
        taken = taken.saturating_add(u32::from(parcel.is_some()));
    }
    (pass, posted, taken)
}

// How many parcels are left in a node's own box, of at most as many as were posted; they are taken.
fn left_in<R: Wait>(rt: &R, boxes: &PostBox<u32>, mut pass: BoxPass<u32>) -> u32
    requires belongs { pass.tables ≡ boxes.now.tables }
{
    let own = pass.node();
    for count in 0..50 {
        if boxes.take(rt, &mut pass, own).is_none() {
            return count;
        }
    }
    50
}

// Two nodes talk in threads of their own: how many parcels were posted, and how many were taken then or are left.
fn talk_both<R: Threads + Wait + Sync>(rt: &R, alloc: Global) -> Result<(u32, u32), AllocError> {
    let Some(second) = NodeNo::new(2) else {
        unreachable!()
    };
    let (boxes, one, two) = two_boxes(alloc, 3)?;
    let shared = &boxes;
    let (one, two) = thread::join(
        rt,
        move ||
            requires belongs { one.tables ≡ shared.now.tables }
            requires second { second ≤ length shared.now.tables }
            ensures { result.0.tables ≡ shared.entry.now.tables }
        { talk(rt, shared, one, second) },
        move ||
            requires belongs { two.tables ≡ shared.now.tables }
            requires first { 1 ≤ length shared.now.tables }
            ensures { result.0.tables ≡ shared.entry.now.tables }
        { talk(rt, shared, two, NodeNo::FIRST) },
    );
    let posted = one.1.saturating_add(two.1);
    let taken = one.2.saturating_add(two.2);
    let left = left_in(rt, &boxes, one.0).saturating_add(left_in(rt, &boxes, two.0));
    Ok((posted, taken.saturating_add(left)))
}

// Whether what was posted came, and each box took three at least, before anything was taken from it.
fn all_came<R: Threads + Wait + Sync>(rt: &R, alloc: Global) -> Result<bool, AllocError> {
    let (posted, came) = talk_both(rt, alloc)?;
    Ok(posted >= 6 && came == posted)
}

#[test]
fn two_threads_share_the_boxes(rt: HostRuntime) -> Result<(), Fail> {
    assert!(rt; all_came(&rt, rt.alloc())?);
    Ok(())
}
