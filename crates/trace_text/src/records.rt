//! Records and messages.
ghost use Rattle.std.specs.Prelude.{◌≡◌, ◌+◌, ◌≤◌, ◌++◌, ◌∷◌, [], codes, decimal, take, length};
ghost use Rattle.yard_model.specs.Text.{words, record_words, message_words, events_text, reply_text};

use crate::number::{put_number, put_small};
use crate::room::{put, put_word};
use crate::values::{put_command, put_counted, put_events, put_name, put_reply};
use yard_model::{Message, Record};

/// What a record says.
pub(crate) fn put_record(cells: &mut [u8], at: usize, written: &Record) -> usize
    requires { at + 260 ≤ length cells.old }
    ensures items { take result cells.new ≡ take at cells.old ++ words (record_words written.now) }
    ensures end { result ≤ at + 260 }
{
    let at = put_record_head(cells, at, written);
    let at = put(cells, at, b' ');
    let at = put_command(cells, at, &written.command);
    put_outcome(cells, at, written)
}

/// What its command led to, and what was answered.
fn put_outcome(cells: &mut [u8], at: usize, written: &Record) -> usize
    requires { at + 185 ≤ length cells.old }
    ensures items { take result cells.new ≡ take at cells.old ++ words ([] ∷ codes "/" ∷ events_text written.now.events ∷ codes "/" ∷ reply_text written.now.reply ∷ []) }
    ensures end { result ≤ at + 185 }
{
    let at = put_word(cells, at, b" / ");
    let at = put_events(cells, at, written.events.as_slice());
    let at = put_word(cells, at, b" / ");
    put_reply(cells, at, &written.reply)
}

/// Its number, its epoch, and whose command it answers.
fn put_record_head(cells: &mut [u8], at: usize, written: &Record) -> usize
    requires { at + 44 ≤ length cells.old }
    ensures items { take result cells.new ≡ take at cells.old ++ words (decimal written.now.number ∷ codes "epoch" ∷ decimal written.now.epoch ∷ codes "by" ∷ (decimal written.now.producer ++ 58 ∷ decimal written.now.place) ∷ []) }
    ensures end { result ≤ at + 44 }
{
    let at = put_number(cells, at, written.number);
    let at = put_counted(cells, at, b" epoch ", written.epoch);
    let at = put_word(cells, at, b" by ");
    let at = put_small(cells, at, u32::from(written.producer.get()));
    let at = put(cells, at, b':');
    put_number(cells, at, written.place)
}

/// A message that is kept, dropped or stashed: its producer, entity and number.
pub(crate) fn put_message(cells: &mut [u8], at: usize, message: &Message) -> usize
    requires { at + 46 ≤ length cells.old }
    ensures items { take result cells.new ≡ take at cells.old ++ words (message_words message.now) }
    ensures end { result ≤ at + 46 }
{
    let at = put_small(cells, at, u32::from(message.producer.get()));
    let at = put(cells, at, b' ');
    let at = put_name(cells, at, &message.entity);
    let at = put(cells, at, b' ');
    put_number(cells, at, message.number)
}
