//! Orders on lines of their own.
ghost use Rattle.std.specs.Prelude.{◌≡◌, ◌≤◌, ◌+◌, ◌++◌, ◌∷◌, [], OnOk, length};
ghost use Rattle.yard_model.specs.Limits.{most_orders};
ghost use Rattle.bulk_gen.specs.Bulk.{with_lines};

use std::alloc::AllocError;
use yard_model::{Line, Order};

/// Appends these orders, each on the line after the last. The only error is want of memory.
pub(crate) fn push_lines(lines: &mut Vec<Line>, orders: &[Order]) -> Result<(), AllocError>
    requires { length lines.now.items + length orders.now ≤ most_orders }
    ensures { OnOk result (lines.new.items ≡ with_lines lines.old.items orders.now) }
{
    for order in orders {
        push_line(lines, order)?;
    }
    Ok(())
}

/// Appends this order, on the line after the last; the first one's is line 2.
fn push_line(lines: &mut Vec<Line>, order: &Order) -> Result<(), AllocError>
    requires { length lines.now.items ≤ most_orders }
    ensures { OnOk result (lines.new.items ≡ with_lines lines.old.items (order.now ∷ [])) }
{
    let number = 2 + lines.len() as u32;
    lines.push(Line {
        number,
        order: *order,
    })?;
    Ok(())
}
