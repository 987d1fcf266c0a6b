//! Reading a script, line by line.
ghost use Rattle.std.specs.Prelude.{◌≡◌, ◌==◌, ◌&&◌, ℕ, ◌+◌, ◌<◌, ◌≤◌, ◌≢◌, nat_lt, IfOk, IfErr, length, true, false, Some, slice_index};
ghost use Rattle.std.specs.List.{list_all};
ghost use Rattle.script_text.specs.declared.fault.Mode.TheVariants as mode;
ghost use Rattle.script_text.specs.declared.fault.Why.TheVariants as why;
ghost use Rattle.script_text.specs.Faults.{Gives, Leaves, refuse};
ghost use Rattle.script_text.specs.Fit.{IsFit};
ghost use Rattle.script_text.specs.Words.{words, is_gap, is_plain};
ghost use Rattle.script_text.specs.Reading.{Reading, Spelled, Refused, reading, line_read, text_read, first_line, next_line, is_late, is_pull, is_wrong_kind, takes, is_config_line, plain, ended, TellsFault, IsWithin, IsFitWithin, stopped_at};

use crate::cut::{Cut, next_line, next_word, word_start};
use crate::draft::Draft;
use crate::fault::{Mode, ScriptFault, Stop, Why};
use crate::orders::order;
use crate::settings::read_settings;
use crate::words::{is, is_blank, is_comment, is_plain_text};
use std::alloc::{AllocError, Global};
use yard_model::{Charter, Kind, Order};

/// The most bytes of a script.
const MOST_BYTES: usize = 4_194_304;

/// The first line too many.
const LATE_LINE: u32 = 20_001;

/// The charter that the bytes spell under this command, with at most 20,000 orders, or the first fault.
/// `OutOfMemory` says only that memory ran out.
pub fn read_script(alloc: Global, bytes: &[u8], mode: Mode) -> Result<Charter, ScriptFault>
    ensures ok { IfOk result (λ c. reading mode bytes.now ≡ Spelled c) }
    ensures few { IfOk result (λ c. length c.orders ≤ 20000) }
    ensures fit { IfOk result (λ c. IsFit mode c) }
    ensures at { IfErr result (λ e. TellsFault e (reading mode bytes.now)) }
{
    if bytes.len() > MOST_BYTES {
        return Err(ScriptFault::At {
            line: 0,
            why: Why::TooLong,
        });
    }
    let mut draft = None;
    let mut rest = bytes;
    let mut number = 0;
    while let Some(cut) = next_line(rest) {
        number += 1;
        rest = cut.more;
        match read_line(alloc, mode, &mut draft, number, &cut) {
            Ok(_) => {}
            Err(stop) => return Err(stopped_at(number, stop)),
        }
    }
    finish(alloc, mode, draft)
}

/// The fault of this line.
fn stopped_at(line: u32, stop: Stop) -> ScriptFault
    ensures { result ≡ stopped_at line stop }
{
    match stop {
        Stop::Refused(why) => ScriptFault::At { line, why },
        Stop::OutOfMemory => ScriptFault::OutOfMemory,
    }
}

/// The charter, once all lines are read.
fn finish(alloc: Global, mode: Mode, draft: Option<Draft>) -> Result<Charter, ScriptFault>
    requires { IsWithin mode 20000 draft }
    ensures ok { IfOk result (λ c. ended draft ≡ Spelled c) }
    ensures few { IfOk result (λ c. length c.orders ≤ 20000) }
    ensures fit { IfOk result (λ c. IsFit mode c) }
    ensures at { IfErr result (λ e. TellsFault e (ended draft)) }
{
    let _ = mode;
    let Some(draft) = draft else {
        return Err(ScriptFault::At {
            line: 1,
            why: Why::NoConfig,
        });
    };
    match draft.finish(alloc) {
        Ok(charter) => Ok(charter),
        Err(_) => Err(ScriptFault::OutOfMemory),
    }
}

/// What was read, with this line.
#[tactic(auto, unfolding(crate::specs::Reading::line_read))]
fn read_line(
    alloc: Global,
    mode: Mode,
    draft: &mut Option<Draft>,
    number: u32,
    cut: &Cut<'_>,
) -> Result<(), Stop>
    requires { cut.now.is_clean ≡ true → list_all is_plain cut.now.line.now ≡ true }
    ensures value { Leaves result (line_read mode draft.old number cut.now.line.now) draft.new }
    ensures within { (n : ℕ) → IsWithin mode n draft.old → IfOk result (λ _. IsWithin mode (n + 1) draft.new) }
    ensures early { IfOk result (λ _. number ≢ 20001) }
{
    check_text(cut)?;
    match word_start(cut.line) {
        None => check_number(number),
        Some(text) => read_text(alloc, mode, draft, number, text),
    }
}

/// What was read, with a line that begins with a word.
fn read_text(
    alloc: Global,
    mode: Mode,
    draft: &mut Option<Draft>,
    number: u32,
    text: &[u8],
) -> Result<(), Stop>
    requires first { is_gap (slice_index text.now 0) ≡ false }
    requires some { 0 < length text.now }
    ensures value { Leaves result (text_read mode draft.old number (words text.now)) draft.new }
    ensures within { (n : ℕ) → IsWithin mode n draft.old → IfOk result (λ _. IsWithin mode (n + 1) draft.new) }
    ensures early { IfOk result (λ _. number ≢ 20001) }
{
    if is_blank(text) {
        return check_number(number);
    }
    if let Some(draft) = draft {
        return read_next(alloc, mode, draft, number, text);
    }
    *draft = Some(read_first(alloc, mode, number, text)?);
    Ok(())
}

/// That this isn't the first line too many.
fn check_number(number: u32) -> Result<(), Stop>
    ensures value { Gives result (refuse (is_late number) why.TooManyLines) }
    ensures early { IfOk result (λ _. number ≢ 20001) }
{
    if number == LATE_LINE {
        return Err(Stop::Refused(Why::TooManyLines));
    }
    Ok(())
}

/// The first line that isn't blank.
#[tactic(auto, unfolding(crate::specs::Reading::first_line))]
fn read_first(alloc: Global, mode: Mode, number: u32, line: &[u8]) -> Result<Draft, Stop>
    ensures value { Gives result (first_line mode number (words line.now)) }
    ensures within { (n : ℕ) → IfOk result (λ d. IsWithin mode n (Some d)) }
    ensures early { IfOk result (λ _. number ≢ 20001) }
{
    let Some((word, rest)) = next_word(line) else {
        return Err(Stop::Refused(Why::NoConfig));
    };
    if !is(word, "config") {
        return Err(Stop::Refused(Why::NoConfig));
    }
    let config = read_settings(rest)?;
    if number == LATE_LINE {
        return Err(Stop::Refused(Why::TooManyLines));
    }
    if is_wrong_kind(mode, config.kind) {
        return Err(Stop::Refused(Why::WrongKind));
    }
    Ok(Draft::new(alloc, config)?)
}

/// Another line that isn't blank.
#[tactic(auto, unfolding(crate::specs::Reading::next_line))]
fn read_next(
    alloc: Global,
    mode: Mode,
    draft: &mut Draft,
    number: u32,
    text: &[u8],
) -> Result<(), Stop>
    requires first { is_gap (slice_index text.now 0) ≡ false }
    requires some { 0 < length text.now }
    ensures value { Leaves result (next_line mode draft.old number (words text.now)) draft.new }
    ensures within { (n : ℕ) → IsFitWithin mode n draft.old → IfOk result (λ _. IsFitWithin mode (n + 1) draft.new) }
    ensures early { IfOk result (λ _. number ≢ 20001) }
{
    if is_config_line(text) {
        return Err(Stop::Refused(Why::SecondConfig));
    }
    let order = order(mode, draft.config(), text)?;
    let is_sent = draft.add(alloc, number, &order)?;
    if draft.is_over(mode) {
        return Err(Stop::Refused(Why::OutOfRange));
    }
    check_number(number)?;
    if !takes(mode, &order) {
        return Err(Stop::Refused(Why::WrongMode));
    }
    if is_second_job(mode, is_sent) {
        return Err(Stop::Refused(Why::SecondJob));
    }
    if draft.has_many_pings() {
        return Err(Stop::Refused(Why::TooManyPings));
    }
    Ok(())
}

/// Whether a send of a pair that is there already is a second job of its name.
fn is_second_job(mode: Mode, is_sent: bool) -> bool
    ensures { result ≡ (is_pull mode && is_sent) }
{
    match mode {
        Mode::Pull => is_sent,
        Mode::Solo | Mode::Replay | Mode::Live | Mode::Daemon | Mode::Log => false,
    }
}

/// Whether the command doesn't take entities of this kind: a daemon's instances are counters.
fn is_wrong_kind(mode: Mode, kind: Kind) -> bool
    ensures { result ≡ is_wrong_kind mode kind }
{
    match mode {
        Mode::Daemon => !matches!(kind, Kind::Counter),
        Mode::Solo | Mode::Replay | Mode::Live | Mode::Pull | Mode::Log => false,
    }
}

/// The tests that come first, of any line.
#[tactic(auto, unfolding(crate::specs::Reading::plain))]
fn check_text(cut: &Cut<'_>) -> Result<(), Why>
    requires { cut.now.is_clean ≡ true → list_all is_plain cut.now.line.now ≡ true }
    ensures { result ≡ plain cut.now.line.now }
{
    if cut.is_clean {
        return check_length(cut.line);
    }
    if !is_plain_text(cut.line) && !is_comment(cut.line) {
        return Err(Why::NotText);
    }
    check_length(cut.line)
}

/// That the line isn't too long.
fn check_length(line: &[u8]) -> Result<(), Why>
    ensures { result ≡ refuse (nat_lt 256 (length line.now)) why.LongLine }
{
    if line.len() > 256 {
        return Err(Why::LongLine);
    }
    Ok(())
}

/// Whether the first word is `config`, of a line that begins with a word.
fn is_config_line(text: &[u8]) -> bool
    requires first { is_gap (slice_index text.now 0) ≡ false }
    requires some { 0 < length text.now }
    ensures { result ≡ is_config_line (words text.now) }
{
    begins_as_config(text) && begins_with_config(text)
}

/// Whether the first byte is that of `config`.
fn begins_as_config(text: &[u8]) -> bool
    ensures { result ≡ (slice_index text.now 0 == 99) }
{
    !text.is_empty() && text[0] == b'c'
}

/// Whether the first word is `config`, cut out and compared.
fn begins_with_config(text: &[u8]) -> bool
    ensures { result ≡ is_config_line (words text.now) }
{
    match next_word(text) {
        None => false,
        Some((word, _)) => is(word, "config"),
    }
}

/// Whether the command takes this order.
fn takes(mode: Mode, order: &Order) -> bool
    ensures { result ≡ takes mode order.now }
{
    match mode {
        Mode::Solo => matches!(order, Order::Send(_, _, _) | Order::Deliver(_)),
        Mode::Replay => !matches!(order, Order::Ping(_)),
        Mode::Live => is_taken_live(order),
        Mode::Pull => is_taken_pulled(order),
        Mode::Daemon => is_taken_pinged(order),
        Mode::Log => !matches!(order, Order::Reshard(_) | Order::Upgrade | Order::Ping(_)),
    }
}

/// Whether `live` takes this order.
fn is_taken_live(order: &Order) -> bool
    ensures { result ≡ takes mode.Live order.now }
{
    !matches!(
        order,
        Order::Deliver(_)
            | Order::Pump(_)
            | Order::FailWrite(_, _)
            | Order::Reshard(_)
            | Order::Upgrade
            | Order::Ping(_)
    )
}

/// Whether `pull` takes this order.
fn is_taken_pulled(order: &Order) -> bool
    ensures { result ≡ takes mode.Pull order.now }
{
    matches!(
        order,
        Order::Up(_)
            | Order::Crash(_)
            | Order::Tick(_)
            | Order::Produce(_, _)
            | Order::Rest(_)
            | Order::Send(_, _, _)
            | Order::Deliver(_)
            | Order::Pump(_)
    )
}

/// Whether `daemon` takes this order.
fn is_taken_pinged(order: &Order) -> bool
    ensures { result ≡ takes mode.Daemon order.now }
{
    !matches!(
        order,
        Order::Send(_, _, _) | Order::FailWrite(_, _) | Order::Reshard(_) | Order::Upgrade
    )
}
