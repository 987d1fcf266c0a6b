//! Small tests.
ghost use Rattle.std.specs.Prelude.{◌≡◌, ◌+◌, ◌==◌};
ghost use Rattle.yard_model.specs.Genuine.{is_node, is_producer};

use yard_model::{Charter, Incarnation, ProducerNo};

/// Whether it is of one of the script's nodes.
pub(crate) fn is_node(charter: &Charter, who: &Incarnation) -> bool
    ensures { result ≡ is_node charter.now who.now }
{
    who.node.get() >= 1 && who.node.get() <= charter.config().nodes
}

/// Whether there is such a producer.
pub(crate) fn is_producer(charter: &Charter, producer: ProducerNo) -> bool
    ensures { result ≡ is_producer charter.now producer }
{
    producer.get() >= 1 && producer.get() <= charter.config().producers
}

/// Whether a number is the next one.
pub(crate) fn is_next(number: u32, before: u32) -> bool
    ensures { result ≡ (number == before + 1) }
{
    number > before && number - before == 1
}
