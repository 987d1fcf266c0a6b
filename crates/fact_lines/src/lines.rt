//! Lines of entries: what was read is printed again, and is to be what stands there.
ghost use Rattle.std.specs.Prelude.{◌≡◌, IfOk, MatchOption};
ghost use Rattle.fact_lines.specs.Entries.{AreLines, IsNoEntry, IsOther, Took};

use crate::basics::text;
use crate::entries::is_entry;
use crate::exact_facts::usual;
use crate::facts::fact;
use crate::print::push_entry;
use std::alloc::{AllocError, Global};
use yard_model::Facts;

/// One more fact, the entry whose line stands at the front of these bytes; the bytes behind that line. None where no
/// line of an entry stands there. `line` is room for a line. The only error is want of memory.
pub fn take_entry<'a>(
    bytes: &'a [u8],
    line: &mut Vec<u8>,
    facts: &mut Facts,
) -> Result<Option<&'a [u8]>, AllocError>
    ensures { IfOk result (λ found. MatchOption found (IsNoEntry bytes.now) (λ rest. Took bytes.now facts.old facts.new rest.now)) }
{
    let Some((fact, rest)) = usual(bytes) else {
        return take_printed(bytes, line, facts);
    };
    if !is_entry(&fact) {
        return take_printed(bytes, line, facts);
    }
    facts.push_copy(&fact)?;
    Ok(Some(rest))
}

/// The same of any entry: it is read, printed again, and compared.
#[inline(never)]
fn take_printed<'a>(
    bytes: &'a [u8],
    line: &mut Vec<u8>,
    facts: &mut Facts,
) -> Result<Option<&'a [u8]>, AllocError>
    ensures { IfOk result (λ found. MatchOption found (IsNoEntry bytes.now) (λ rest. Took bytes.now facts.old facts.new rest.now)) }
{
    let Some(fact) = fact(bytes) else {
        return Ok(None);
    };
    if !is_entry(&fact) {
        return Ok(None);
    }
    line.clear();
    push_entry(line, &fact)?;
    let Some(rest) = text(bytes, line) else {
        return Ok(None);
    };
    facts.push_copy(&fact)?;
    Ok(Some(rest))
}

/// The entries of which this text is the lines; None where it is those of no entries. The only error is want of
/// memory.
pub fn read_entries(alloc: Global, bytes: &[u8]) -> Result<Option<Facts>, AllocError>
    ensures { IfOk result (λ found. MatchOption found (IsOther bytes.now) (λ facts. AreLines bytes.now facts)) }
{
    let mut facts = Facts::new(alloc);
    let mut line = Vec::new(alloc);
    let mut rest = bytes;
    while rest.len() > 0 {
        match take_entry(rest, &mut line, &mut facts)? {
            Some(behind) => rest = behind,
            None => return Ok(None),
        }
    }
    Ok(Some(facts))
}
