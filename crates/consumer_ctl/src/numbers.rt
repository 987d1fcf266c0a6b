//! A number against what is recorded, and when more is asked for.
ghost use Rattle.std.specs.Prelude.{◌≡◌, ◌+◌, ◌/◌, ◌<◌, ◌≤◌, ◌↔◌, IsSome, IfSome};
ghost use Rattle.yard_model.specs.Limits.{number_limit};
ghost use Rattle.consumer_ctl.specs.declared.numbers.Seen.{Seen};

/// How a command's number compares with the position, which is the last recorded number of its
/// producer.
#[derive(Clone, Copy, Debug, PartialEq, Eq)]
pub enum Seen {
    /// It follows the position: the command is handled.
    Next,
    /// It isn't above the position: the command was handled before.
    Old,
    /// A number between them is missing: it is asked for again.
    Gap,
}

/// How `number` compares with `position`.
pub fn see(position: u32, number: u32) -> Seen
    requires position { position < number_limit }
    ensures next { (result ≡ Seen.Next) ↔ (number ≡ position + 1) }
    ensures old { (result ≡ Seen.Old) ↔ (number ≤ position) }
    ensures gap { (result ≡ Seen.Gap) ↔ (position + 1 < number) }
{
    if number <= position {
        Seen::Old
    } else if number == position + 1 {
        Seen::Next
    } else {
        Seen::Gap
    }
}

/// Up to which number more is asked for: a whole window above the position, where what was asked
/// for so far is at most half a window above it; else None.
pub fn wants(asked: u32, position: u32, window: u8) -> Option<u32>
    requires position { position ≤ number_limit }
    ensures asks { IsSome result ↔ (asked ≤ position + window / 2) }
    ensures up_to { IfSome result (λ n. n ≡ position + window) }
{
    if asked <= position + u32::from(window / 2) {
        Some(position + u32::from(window))
    } else {
        None
    }
}
