//! Words and numbers at the end of a text. The only error is want of memory; what the text then is stays open.
ghost use Rattle.std.specs.Prelude.{◌≡◌, ◌++◌, ◌∷◌, OnOk, decimal};
ghost use Rattle.yard_model.specs.Text.{reply_text};

use itoa::Buffer;
use std::alloc::AllocError;
use yard_model::{EntityName, ProducerNo, Reply};

pub(crate) fn push(text: &mut Vec<u8>, bytes: &[u8]) -> Result<(), AllocError>
    ensures { OnOk result (text.new.items ≡ text.old.items ++ bytes.now) }
{
    text.extend_from_slice(bytes)
}

fn push_number(text: &mut Vec<u8>, n: u64) -> Result<(), AllocError>
    ensures { OnOk result (text.new.items ≡ text.old.items ++ decimal n) }
{
    let mut buffer = Buffer::new();
    text.extend_from_slice(buffer.format(n).as_bytes())
}

/// A word, and a number behind it.
pub(crate) fn push_counted(text: &mut Vec<u8>, word: &[u8], n: u64) -> Result<(), AllocError>
    ensures { OnOk result (text.new.items ≡ text.old.items ++ (word.now ++ decimal n)) }
{
    push(text, word)?;
    push_number(text, n)
}

/// A word, and a producer, a name and a number behind it.
pub(crate) fn push_numbered(
    text: &mut Vec<u8>,
    word: &[u8],
    producer: ProducerNo,
    entity: &EntityName,
    number: u32,
) -> Result<(), AllocError>
    ensures { OnOk result (text.new.items ≡ text.old.items ++ (word.now ++ (decimal producer ++ (32 ∷ (entity.now ++ (32 ∷ decimal number)))))) }
{
    push_counted(text, word, u64::from(producer.get()))?;
    push(text, b" ")?;
    push(text, entity.bytes())?;
    push_counted(text, b" ", u64::from(number))
}

pub(crate) fn push_reply(text: &mut Vec<u8>, reply: &Reply) -> Result<(), AllocError>
    ensures { OnOk result (text.new.items ≡ text.old.items ++ reply_text reply.now) }
{
    match reply {
        Reply::Value(value) => push_counted(text, b"ok ", *value),
        Reply::Rejected(reason) => push_counted(text, b"no ", u64::from(*reason)),
    }
}
