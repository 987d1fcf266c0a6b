//! The script that a form is carried out on.
ghost use Rattle.std.specs.Prelude.{◌≡◌, ◌≤◌, length, IfOk, IfErr, IsTrue};
ghost use Rattle.script_text.specs.Fit.{IsFit};
ghost use Rattle.yard_model.specs.Behaviour.{is_in};
ghost use Rattle.bulk_gen.specs.Bulk.{bulk_script};
ghost use Rattle.program_words.specs.Forms.{is_there};
ghost use Rattle.program_words.specs.declared.forms.ScriptFrom.TheVariants as script_from;
ghost use Rattle.yard_top.specs.Ends.{CameScript, EndsEarly, HasScript, IfNumber, IsOf};

use bulk_gen::script_of;
use program_words::{ScriptFrom, Status};
use script_text::{Mode, ScriptFault, read_script};
use std::alloc::Global;
use yard_io::{ReadError, Source, read_up_to};
use yard_model::Charter;

/// How many bytes are read of an input: one more than a script may have.
const MOST_READ: usize = 4_194_305;

/// The script that a form is to be carried out on.
pub(crate) fn charter_of<S: Source>(
    alloc: Global,
    from: ScriptFrom,
    source: &mut S,
) -> Result<Charter, Status>
    requires { IsTrue (is_there from) }
    ensures script { IfOk result (λ c. HasScript from (S.left source.old) (S.left source.new) c) }
    ensures of { IfOk result (λ c. IsOf from c) }
    ensures number_reads_nothing { IfNumber from ((S.left source.new ≡ S.left source.old) × (S.faults source.new ≡ S.faults source.old)) }
    ensures early { IfErr result (EndsEarly from (S.left source.old) (S.left source.new) (S.faults source.old) (S.faults source.new)) }
    ensures source_faults { S.faults source.old ≤ S.faults source.new }
{
    match from {
        ScriptFrom::Input(mode) => read_charter(alloc, mode, source),
        ScriptFrom::Number(number) => number_charter(alloc, number),
    }
}

/// The script of a number.
fn number_charter(alloc: Global, number: u32) -> Result<Charter, Status>
    requires { IsTrue (is_in 1 1000 number) }
    ensures script { IfOk result (λ c. c ≡ bulk_script number) }
    ensures memory { IfErr result (λ s. s ≡ Status.OutOfMemory) }
{
    match script_of(alloc, number) {
        Ok(charter) => Ok(charter),
        Err(_) => Err(Status::OutOfMemory),
    }
}

/// Reads the whole input as a script of this command.
pub(crate) fn read_charter<S: Source>(
    alloc: Global,
    mode: Mode,
    source: &mut S,
) -> Result<Charter, Status>
    ensures script { IfOk result (λ c. CameScript mode (S.left source.old) (S.left source.new) c) }
    ensures of { IfOk result (λ c. IsFit mode c × (length c.orders ≤ 20000)) }
    ensures early { IfErr result (EndsEarly (script_from.Input mode) (S.left source.old) (S.left source.new) (S.faults source.old) (S.faults source.new)) }
    ensures source_faults { S.faults source.old ≤ S.faults source.new }
{
    let bytes = match read_up_to(alloc, source, MOST_READ) {
        Ok(bytes) => bytes,
        Err(ReadError::Failed) => return Err(Status::ReadFault),
        Err(ReadError::OutOfMemory) => return Err(Status::OutOfMemory),
    };
    match read_script(alloc, bytes.as_slice(), mode) {
        Ok(charter) => Ok(charter),
        Err(ScriptFault::At { line, why }) => Err(Status::Refused { line, why }),
        Err(ScriptFault::OutOfMemory) => Err(Status::OutOfMemory),
    }
}
