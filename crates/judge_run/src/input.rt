//! What comes: a script, a line `trace`, and a trace.
ghost use Rattle.std.specs.Prelude.{◌≡◌, MatchOption};
ghost use Rattle.judge_run.specs.Input.{IsCut, IsUncut, is_between};

use judge_text::first_line;

/// Whether this line stands between a script and a trace.
fn is_between(line: &[u8]) -> bool
    ensures { result ≡ is_between line.now }
{
    line == b"trace\n".as_slice()
}

/// The script, and the trace as far as it came; None where no line `trace` came.
pub(crate) fn cut(input: &[u8]) -> Option<(&[u8], &[u8])>
    ensures { MatchOption result (IsUncut input.now) (λ x. IsCut input.now x.0.now x.1.now) }
{
    let mut rest = input;
    while let Some((line, behind)) = first_line(rest) {
        if is_between(line) {
            let script = &input[..input.len() - rest.len()];
            return Some((script, behind));
        }
        rest = behind;
    }
    None
}
