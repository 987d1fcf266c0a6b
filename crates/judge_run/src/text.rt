//! An answer, as it is written.
ghost use Rattle.std.specs.Prelude.{◌≡◌, ◌++◌, ◌∷◌, [], codes, IfOk, OnOk, string_bytes};
ghost use Rattle.judge_run.specs.Texts.{answer_text, answer_words, shown_line};

use crate::sentences::sentence_of;
use std::alloc::{AllocError, Global};
use verdict_laws::{Answer, Quote};

/// The first line of an answer, without its LF. The only error is want of memory.
fn words_of(alloc: Global, answer: &Answer) -> Result<String, AllocError>
    ensures { IfOk result (λ text. string_bytes text ≡ answer_words answer.now) }
{
    match answer {
        Answer::Safe(counts) => {
            let (facts, entries, records) = (counts.facts, counts.entries, counts.records);
            format!(in alloc; "safe {facts} {entries} {records}")
        }
        Answer::Broken { line, why, .. } => {
            let (line, sentence) = (*line, sentence_of(*why));
            format!(in alloc; "line {line}: {sentence}")
        }
        Answer::NoFact { line, .. } => {
            let line = *line;
            format!(in alloc; "line {line}: no fact")
        }
    }
}

/// Appends what is shown of a line, indented. The only error is want of memory.
fn push_quote(text: &mut Vec<u8>, quote: &Quote) -> Result<(), AllocError>
    ensures { OnOk result (text.new.items ≡ text.old.items ++ (codes "  " ++ (quote.now ++ 10 ∷ []))) }
{
    text.extend_from_slice(b"  ")?;
    text.extend_from_slice(quote.bytes())?;
    text.push(b'\n')?;
    Ok(())
}

/// Appends what stands behind the first line of an answer. The only error is want of memory.
fn push_shown(text: &mut Vec<u8>, answer: &Answer) -> Result<(), AllocError>
    ensures { OnOk result (text.new.items ≡ text.old.items ++ shown_line answer.now) }
{
    match answer {
        Answer::Safe(_) => Ok(()),
        Answer::Broken { quote, .. } | Answer::NoFact { quote, .. } => push_quote(text, quote),
    }
}

/// The text of an answer. The only error is want of memory.
pub fn text_of(alloc: Global, answer: &Answer) -> Result<Vec<u8>, AllocError>
    ensures { IfOk result (λ text. text.items ≡ answer_text answer.now) }
{
    let words = words_of(alloc, answer)?;
    let mut text = Vec::from_slice(alloc, words.as_bytes())?;
    text.push(b'\n')?;
    push_shown(&mut text, answer)?;
    Ok(text)
}
