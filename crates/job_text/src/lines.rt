//! The line of a job.
ghost use Rattle.std.specs.Prelude.{◌≡◌, [], ◌∷◌, ◌++◌, OnOk, codes, decimal};
ghost use Rattle.yard_model.specs.Text.{command_text, words};
ghost use Rattle.job_text.specs.JobText.{job_line, state_words};

use crate::commands::{push_command, push_incarnation, push_number};
use job_board::JobState;
use std::alloc::AllocError;
use yard_model::{Command, EntityName};

/// Appends what is known of a job.
fn push_state(text: &mut Vec<u8>, state: &JobState) -> Result<(), AllocError>
    ensures { OnOk result (text.new.items ≡ text.old.items ++ words (state_words state.now)) }
{
    match state {
        JobState::Confirmed => text.extend_from_slice(b"confirmed"),
        JobState::Given(who) => {
            text.extend_from_slice(b"given ")?;
            push_incarnation(text, who)
        }
        _ => text.extend_from_slice(b"free"),
    }
}

/// Appends the front of the line.
fn push_head(text: &mut Vec<u8>, entity: &EntityName, command: &Command) -> Result<(), AllocError>
    ensures { OnOk result (text.new.items ≡ text.old.items ++ words (codes "job" ∷ entity.now ∷ command_text command.now ∷ [])) }
{
    text.extend_from_slice(b"job ")?;
    text.extend_from_slice(entity.bytes())?;
    text.push(b' ')?;
    push_command(text, command)
}

/// Appends the rest of the line.
fn push_rest(text: &mut Vec<u8>, state: &JobState, dids: u64) -> Result<(), AllocError>
    ensures { OnOk result (text.new.items ≡ text.old.items ++ (32 ∷ words (state_words state.now) ++ (codes " dids " ++ (decimal dids ++ 10 ∷ [])))) }
{
    text.push(b' ')?;
    push_state(text, state)?;
    text.extend_from_slice(b" dids ")?;
    push_number(text, dids)?;
    text.push(b'\n')?;
    Ok(())
}

/// Appends the line of a job: its name, its command, what is known of it, and how often it was done. The only
/// error is want of memory; what the text then is stays open.
pub fn push_job(
    text: &mut Vec<u8>,
    entity: &EntityName,
    command: &Command,
    state: &JobState,
    dids: u64,
) -> Result<(), AllocError>
    ensures { OnOk result (text.new.items ≡ text.old.items ++ job_line entity.now command.now state.now dids) }
{
    push_head(text, entity, command)?;
    push_rest(text, state, dids)
}
