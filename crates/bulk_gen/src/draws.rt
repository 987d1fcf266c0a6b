//! What is drawn: numbers, nodes, producers and names.
ghost use Rattle.std.specs.Prelude.{◌≡◌, ◌+◌, ◌<◌, ◌≤◌};
ghost use Rattle.yard_model.specs.Name.{IsName};
ghost use Rattle.bulk_gen.specs.Bulk.{draw, one_to, entity};

use rand_core::utils::NextWord;
use rand_pcg::Lcg64Xsh32;
use yard_model::{EntityName, NodeNo, ProducerNo};

/// The next word modulo `k`.
pub(crate) fn draw(rng: &mut Lcg64Xsh32, k: u32) -> u32
    requires { 0 < k }
    ensures value { result ≡ (draw k rng.old).0 }
    ensures rest { rng.new ≡ (draw k rng.old).1 }
    ensures below { result < k }
{
    rng.next_word() % k
}

/// A node, 1 to 4.
pub(crate) fn draw_node(rng: &mut Lcg64Xsh32) -> NodeNo
    ensures value { result ≡ (one_to 4 rng.old).0 }
    ensures rest { rng.new ≡ (one_to 4 rng.old).1 }
{
    let n = 1 + draw(rng, 4);
    node(n as u8)
}

/// A producer, 1 to 4.
pub(crate) fn draw_producer(rng: &mut Lcg64Xsh32) -> ProducerNo
    ensures value { result ≡ (one_to 4 rng.old).0 }
    ensures rest { rng.new ≡ (one_to 4 rng.old).1 }
{
    let n = 1 + draw(rng, 4);
    producer(n as u8)
}

/// One of 64 names.
pub(crate) fn draw_entity(rng: &mut Lcg64Xsh32) -> EntityName
    ensures value { result ≡ entity (draw 64 rng.old).0 }
    ensures rest { rng.new ≡ (draw 64 rng.old).1 }
{
    entity(draw(rng, 64))
}

/// The node of this number.
pub(crate) fn node(n: u8) -> NodeNo
    requires low { 1 ≤ n }
    requires high { n ≤ 16 }
    ensures { result ≡ n }
{
    match NodeNo::new(n) {
        Some(node) => node,
        None => unreachable!(),
    }
}

/// The producer of this number.
pub(crate) fn producer(n: u8) -> ProducerNo
    requires low { 1 ≤ n }
    requires high { n ≤ 32 }
    ensures { result ≡ n }
{
    match ProducerNo::new(n) {
        Some(producer) => producer,
        None => unreachable!(),
    }
}

/// The name of this number, `e0` to `e63`.
fn entity(n: u32) -> EntityName
    requires { n < 64 }
    ensures { result ≡ entity n }
{
    let ones = b'0' + (n % 10) as u8;
    if n < 10 {
        name(&[b'e', ones])
    } else {
        let tens = b'0' + (n / 10) as u8;
        name(&[b'e', tens, ones])
    }
}

/// The name of these bytes.
fn name(bytes: &[u8]) -> EntityName
    requires { IsName bytes.now }
    ensures { result ≡ bytes.now }
{
    match EntityName::new(bytes) {
        Some(name) => name,
        None => unreachable!(),
    }
}
