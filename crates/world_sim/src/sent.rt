//! How many sends a script has.
ghost use Rattle.std.specs.Prelude.{◌≡◌, length, map, IfOk};
ghost use Rattle.yard_model.specs.Script.{sends};
ghost use Rattle.yard_model.specs.World.{all_sends};

use std::alloc::{AllocError, Global};
use yard_model::{Charter, ProducerNo};

/// How many sends each producer of the script has. The only error is want of memory.
pub(crate) fn all_sent(alloc: Global, charter: &Charter) -> Result<Vec<u32>, AllocError>
    ensures { IfOk result (λ counts. counts.items ≡ map length (all_sends charter.now)) }
{
    let producers = charter.config().producers;
    let mut counts = Vec::new(alloc);
    for i in 0..producers {
        let Some(p) = ProducerNo::new(i + 1) else {
            unreachable!()
        };
        counts.push(sent(charter, p))?;
    }
    Ok(counts)
}

/// How many sends a producer has.
fn sent(charter: &Charter, p: ProducerNo) -> u32
    ensures { result ≡ length (sends charter.now p) }
{
    charter.config();
    charter.sends(p).len() as u32
}
