//! The rows of the text of a daemon, and how they are spelled.
ghost use Rattle.std.specs.Prelude.{◌≡◌, ◌++◌, [], OnOk, decimal, nat_lt, if◌then◌else◌};
ghost use Rattle.daemon_process.specs.DaemonText.{instance_line, place_text};
ghost use Rattle.daemon_process.specs.Lines.{at_line, row_at, row_text, rows_text};

use itoa::Buffer;
use std::alloc::AllocError;
use yard_model::Incarnation;

/// A line of the text of a daemon, before it is known how many instances there are.
#[derive(Clone, Copy, Debug)]
pub enum Row {
    /// `at LINE`: this line begins.
    At(u32),
    /// `instance I X`: this instance has come here.
    Here(u8, Incarnation),
    /// `instance I none`: this instance is nowhere any more.
    Nowhere(u8),
}

/// The row of an instance that has come to this place.
pub(crate) fn row_at(instance: u8, place: &Option<Incarnation>) -> Row
    ensures { result ≡ row_at instance place.now }
{
    match place {
        Some(who) => Row::Here(instance, *who),
        None => Row::Nowhere(instance),
    }
}

/// Appends a number.
fn push_number(text: &mut Vec<u8>, n: u32) -> Result<(), AllocError>
    ensures { OnOk result (text.new.items ≡ text.old.items ++ decimal n) }
{
    let mut buffer = Buffer::new();
    text.extend_from_slice(buffer.format(n).as_bytes())
}

/// Appends where an instance is.
fn push_place(text: &mut Vec<u8>, place: &Option<Incarnation>) -> Result<(), AllocError>
    ensures { OnOk result (text.new.items ≡ text.old.items ++ place_text place.now) }
{
    match place {
        Some(who) => {
            push_number(text, u32::from(who.node.get()))?;
            text.push(b'.')?;
            push_number(text, who.number)
        }
        None => text.extend_from_slice(b"none"),
    }
}

/// Appends `instance I X`.
pub(crate) fn push_instance(
    text: &mut Vec<u8>,
    instance: u8,
    place: &Option<Incarnation>,
) -> Result<(), AllocError>
    ensures { OnOk result (text.new.items ≡ text.old.items ++ instance_line instance place.now) }
{
    text.extend_from_slice(b"instance ")?;
    push_number(text, u32::from(instance))?;
    text.push(b' ')?;
    push_place(text, place)?;
    text.push(b'\n')?;
    Ok(())
}

/// Appends `at LINE`.
fn push_at(text: &mut Vec<u8>, line: u32) -> Result<(), AllocError>
    ensures { OnOk result (text.new.items ≡ text.old.items ++ at_line line) }
{
    text.extend_from_slice(b"at ")?;
    push_number(text, line)?;
    text.push(b'\n')?;
    Ok(())
}

/// Appends `instance I X`, if there are so many instances.
fn push_if_there(
    text: &mut Vec<u8>,
    instance: u8,
    place: &Option<Incarnation>,
    count: u8,
) -> Result<(), AllocError>
    ensures { OnOk result (text.new.items ≡ text.old.items ++ (if nat_lt instance count then instance_line instance place.now else [])) }
{
    if instance < count {
        return push_instance(text, instance, place);
    }
    Ok(())
}

/// Appends a row, if it is of one of so many instances.
fn push_row(text: &mut Vec<u8>, row: &Row, count: u8) -> Result<(), AllocError>
    ensures { OnOk result (text.new.items ≡ text.old.items ++ row_text count row.now) }
{
    match row {
        Row::At(line) => push_at(text, *line),
        Row::Here(instance, who) => push_if_there(text, *instance, &Some(*who), count),
        Row::Nowhere(instance) => push_if_there(text, *instance, &None, count),
    }
}

/// Appends those of the rows that are of so many instances.
pub(crate) fn push_rows(text: &mut Vec<u8>, rows: &[Row], count: u8) -> Result<(), AllocError>
    ensures { OnOk result (text.new.items ≡ text.old.items ++ rows_text count rows.now) }
{
    for row in rows {
        push_row(text, row, count)?;
    }
    Ok(())
}
