//! What no clause says: who is told of in the roster that threads share, once one has come up or gone.
ghost use Rattle.std.specs.Prelude.{◌≡◌};

use node_runner::{Roster, Run, Views, enter, leave};
use std::alloc::{AllocError, Global};
use std::marker::Brand;
use std::sync::{Mutex, Wait};
use std::test::Fail;
use yard_model::{Incarnation, NodeNo};

/// How many are told, of at most four.
fn told<J: Run>(views: &Views<J>) -> u8 {
    let mut count = 0_u8;
    for place in 0..4_usize {
        if views.packet(place).is_some() {
            count = count.saturating_add(1);
        }
    }
    count
}

/// Two come up, and the first goes: how many are told each time.
fn members<J: Run, R: Wait>(
    rt: &R,
    alloc: Global,
    second: NodeNo,
) -> Result<(u8, u8, u8), AllocError>
    requires nodes { J.script.config.nodes ≡ 2 }
    requires second { second ≡ 2 }
{
    let first = Incarnation {
        node: NodeNo::FIRST,
        number: 1,
    };
    let other = Incarnation {
        node: second,
        number: 1,
    };
    let roster = Mutex::new(Roster::<J>::new(alloc)?);
    let alone = told(&enter(rt, &roster, first));
    let both = told(&enter(rt, &roster, other));
    Ok((alone, both, told(&leave(rt, &roster, first))))
}

/// Whether each that comes up is told of, and none that is gone.
fn is_kept<R: Wait>(rt: &R, alloc: Global) -> Result<bool, AllocError> {
    let Some(second) = NodeNo::new(2) else {
        return Ok(false);
    };
    Ok(members::<Brand, R>(rt, alloc, second)? == (1, 2, 1))
}

#[test]
fn the_roster_has_who_is_up(rt: HostRuntime) -> Result<(), Fail> {
    assert!(rt; is_kept(&rt, rt.alloc())?);
    Ok(())
}
