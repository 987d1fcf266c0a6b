//! The line of the settings: the answer to `config`, and the head of a log.
ghost use Rattle.std.specs.Prelude.{◌≡◌, ℕ, List, ◌++◌, ◌∷◌, [], IfOk, IfSome, IsTrue, OnOk, codes, decimal};
ghost use Rattle.yard_model.specs.Script.{is_config};
ghost use Rattle.yard_model.specs.Text.{line};
ghost use Rattle.serve_laws.specs.Served.{config_words, kind_text, switch_text};
ghost use Rattle.script_text.specs.Words.{words};
ghost use Rattle.serve_lines.specs.Heads.{IsHeadOf, head_line, settings_behind};

use crate::parts::{push, push_counted};
use script_text::{next_word, read_settings};
use std::alloc::{AllocError, Global};
use yard_model::{Config, Kind};

/// Appends `config`, all nine settings and LF. The only error is want of memory; what the text then is stays open.
pub fn push_settings(text: &mut Vec<u8>, config: &Config) -> Result<(), AllocError>
    ensures { OnOk result (text.new.items ≡ text.old.items ++ head_line config.now) }
{
    push_sizes(text, config)?;
    push_limits(text, config)?;
    push_ways(text, config)?;
    push(text, b"\n")
}

/// Appends `conflict` before that: other settings are in force, these. The only error is want of memory; what the text
/// then is stays open.
pub fn push_other_settings(text: &mut Vec<u8>, config: &Config) -> Result<(), AllocError>
    ensures { OnOk result (text.new.items ≡ text.old.items ++ line (codes "conflict" ∷ config_words config.now)) }
{
    push(text, b"conflict ")?;
    push_settings(text, config)
}

/// The line of these settings. The only error is want of memory.
pub fn head_text(alloc: Global, config: &Config) -> Result<Vec<u8>, AllocError>
    ensures { IfOk result (λ text. text.items ≡ head_line config.now) }
{
    let mut text = Vec::new(alloc);
    push_settings(&mut text, config)?;
    Ok(text)
}

/// The settings whose line this is, byte for byte; None where it is the line of none. The only error is want of memory.
pub fn read_head(alloc: Global, head: &[u8]) -> Result<Option<Config>, AllocError>
    ensures { IfOk result (λ found. IsHeadOf head.now found) }
{
    let Some(config) = settings_of(without_end(head)) else {
        return Ok(None);
    };
    let text = head_text(alloc, &config)?;
    if text.as_slice() == head {
        Ok(Some(config))
    } else {
        Ok(None)
    }
}

/// The bytes but for the last.
fn without_end(head: &[u8]) -> &[u8]
    ensures { (xs : List ℕ) → head.now ≡ xs ++ 10 ∷ [] → result.now ≡ xs }
{
    if head.is_empty() {
        return head;
    }
    &head[..head.len() - 1]
}

/// The settings that the words behind the first say.
fn settings_of(line: &[u8]) -> Option<Config>
    ensures value { result ≡ settings_behind (words line.now) }
    ensures valid { IfSome result (λ c. IsTrue (is_config c)) }
{
    let (_, rest) = next_word(line)?;
    match read_settings(rest) {
        Ok(config) => Some(config),
        Err(_) => None,
    }
}

/// How many nodes, shards and producers there are.
fn push_sizes(text: &mut Vec<u8>, config: &Config) -> Result<(), AllocError>
    ensures { OnOk result (text.new.items ≡ text.old.items
        ++ (codes "config nodes=" ++ (decimal config.now.nodes ++ (codes " shards=" ++ (decimal config.now.shards
        ++ (codes " producers=" ++ decimal config.now.producers)))))) }
{
    push_counted(text, b"config nodes=", u64::from(config.nodes))?;
    push_counted(text, b" shards=", u64::from(config.shards))?;
    push_counted(text, b" producers=", u64::from(config.producers))
}

/// How much is kept of messages, numbers and records.
fn push_limits(text: &mut Vec<u8>, config: &Config) -> Result<(), AllocError>
    ensures { OnOk result (text.new.items ≡ text.old.items
        ++ (codes " buffer=" ++ (decimal config.now.buffer ++ (codes " window=" ++ (decimal config.now.window
        ++ (codes " snapshot=" ++ decimal config.now.snapshot)))))) }
{
    push_counted(text, b" buffer=", u64::from(config.buffer))?;
    push_counted(text, b" window=", u64::from(config.window))?;
    push_counted(text, b" snapshot=", u64::from(config.snapshot))
}

/// How many snapshots stay, whether entities start again, and their kind.
fn push_ways(text: &mut Vec<u8>, config: &Config) -> Result<(), AllocError>
    ensures { OnOk result (text.new.items ≡ text.old.items
        ++ (codes " keep=" ++ (decimal config.now.keep ++ (codes " remember=" ++ (switch_text config.now.remember
        ++ (codes " kind=" ++ kind_text config.now.kind)))))) }
{
    push_counted(text, b" keep=", u64::from(config.keep))?;
    push(text, b" remember=")?;
    push_switch(text, config.remember)?;
    push(text, b" kind=")?;
    push_kind(text, config.kind)
}

fn push_switch(text: &mut Vec<u8>, is_on: bool) -> Result<(), AllocError>
    ensures { OnOk result (text.new.items ≡ text.old.items ++ switch_text is_on) }
{
    if is_on {
        push(text, b"on")
    } else {
        push(text, b"off")
    }
}

fn push_kind(text: &mut Vec<u8>, kind: Kind) -> Result<(), AllocError>
    ensures { OnOk result (text.new.items ≡ text.old.items ++ kind_text kind) }
{
    match kind {
        Kind::Counter => push(text, b"counter"),
        Kind::Account => push(text, b"account"),
        Kind::Cart => push(text, b"cart"),
    }
}
