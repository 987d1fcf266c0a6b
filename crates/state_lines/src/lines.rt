//! Facts, each read by its first word.
ghost use Rattle.std.specs.Prelude.{◌≡◌};
ghost use Rattle.state_lines.specs.States.{active_at, told_at, upgraded};

use crate::basics::{entity_behind, who_behind};
use crate::states::standing;
use fact_lines::fact;
use yard_model::Fact;

/// That an entity is active.
fn active(line: &[u8]) -> Option<Fact>
    ensures { result ≡ active_at line.now }
{
    let Some((who, behind)) = who_behind(line, b"active ") else {
        return None;
    };
    let Some((entity, behind)) = entity_behind(behind, b" ") else {
        return None;
    };
    let Some(((records, state), _)) = standing(behind) else {
        return None;
    };
    Some(Fact::Active {
        who,
        entity,
        records,
        state,
    })
}

/// This fact, if it is no upgrade, or the one to version 2.
fn upgraded(fact: Fact) -> Option<Fact>
    ensures { result ≡ upgraded fact }
{
    match fact {
        Fact::Upgrade(version) => { if version == 2 { Some(fact) } else { None } }
        _ => Some(fact),
    }
}

/// The fact at the front, that an entity is active among them; whatever stands behind it.
pub fn told(line: &[u8]) -> Option<Fact>
    ensures { result ≡ told_at line.now }
{
    if let Some(fact) = active(line) {
        return Some(fact);
    }
    let Some(other) = fact(line) else {
        return None;
    };
    upgraded(other)
}
