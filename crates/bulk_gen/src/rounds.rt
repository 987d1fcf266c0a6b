//! One drawing after the other.
ghost use Rattle.std.specs.Prelude.{◌≡◌, ◌≤◌, ◌+◌, ◌*◌, ◌<◌, ◌++◌, OnOk, length};
ghost use Rattle.yard_model.specs.Limits.{most_orders};
ghost use Rattle.bulk_gen.specs.Bulk.{of_kind, one_drawn, drawn, with_lines};

use crate::draws::draw;
use crate::kinds::{crashed, passivated, rebalanced, sent, taken, ticked};
use crate::lines::push_lines;
use rand_pcg::Lcg64Xsh32;
use std::alloc::AllocError;
use yard_model::Line;

/// Appends the orders of so many drawings. The only error is want of memory.
pub(crate) fn push_drawn(
    lines: &mut Vec<Line>,
    rng: &mut Lcg64Xsh32,
    count: u32,
) -> Result<(), AllocError>
    requires { length lines.now.items + 2 * count ≤ most_orders }
    ensures { OnOk result (lines.new.items ≡ with_lines lines.old.items (drawn count rng.old)) }
{
    for _ in 0..count {
        push_one(lines, rng)?;
    }
    Ok(())
}

/// Appends the orders of one drawing.
fn push_one(lines: &mut Vec<Line>, rng: &mut Lcg64Xsh32) -> Result<(), AllocError>
    requires { length lines.now.items + 2 ≤ most_orders }
    ensures lines { OnOk result (lines.new.items ≡ with_lines lines.old.items (one_drawn rng.old).0) }
    ensures rest { rng.new ≡ (one_drawn rng.old).1 }
{
    let kind = draw(rng, 16);
    push_kind(lines, rng, kind)
}

/// Appends the orders of this kind.
fn push_kind(lines: &mut Vec<Line>, rng: &mut Lcg64Xsh32, kind: u32) -> Result<(), AllocError>
    requires { length lines.now.items + 2 ≤ most_orders }
    ensures lines { OnOk result (lines.new.items ≡ with_lines lines.old.items (of_kind kind rng.old).0) }
    ensures rest { rng.new ≡ (of_kind kind rng.old).1 }
{
    match kind {
        0..=8 => push_lines(lines, &sent(rng)),
        9..=11 => push_lines(lines, &ticked(rng)),
        12 => push_lines(lines, &rebalanced(rng)),
        13 => push_lines(lines, &crashed(rng)),
        14 => push_lines(lines, &passivated(rng)),
        _ => push_lines(lines, &taken(rng)),
    }
}
