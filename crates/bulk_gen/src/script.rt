//! The script of a number.
ghost use Rattle.std.specs.Prelude.{◌≡◌, ◌≤◌, ◌∷◌, [], IfOk};
ghost use Rattle.bulk_gen.specs.Bulk.{seeded, opening, bulk_orders, bulk_config, bulk_script, lines_from};

use crate::draws::{node, producer};
use crate::lines::push_lines;
use crate::rounds::push_drawn;
use rand_core::SeedableRng;
use rand_pcg::Lcg64Xsh32;
use std::alloc::{AllocError, Global};
use yard_model::{Charter, Config, Kind, Line, Order};

/// The script of a number, 1 to 1,000: four nodes, and six times as many drawings of what happens.
/// The only error is want of memory.
pub fn script_of(alloc: Global, number: u32) -> Result<Charter, AllocError>
    requires low { 1 ≤ number }
    requires high { number ≤ 1000 }
    ensures { IfOk result (λ c. c ≡ bulk_script number) }
{
    let lines = lines_of(alloc, number)?;
    Charter::new(alloc, config(), lines)
}

/// The settings, the same for every number.
fn config() -> Config
    ensures { result ≡ bulk_config }
{
    Config {
        nodes: 4,
        shards: 32,
        producers: 4,
        buffer: 64,
        window: 16,
        snapshot: 8,
        keep: 2,
        remember: true,
        kind: Kind::Counter,
    }
}

/// The orders of a number, each on a line of its own, from line 2 on.
fn lines_of(alloc: Global, number: u32) -> Result<Vec<Line>, AllocError>
    requires { number ≤ 1000 }
    ensures { IfOk result (λ v. v.items ≡ lines_from 2 (bulk_orders number)) }
{
    let mut rng = seeded(number);
    // each drawing brings two orders at most
    let mut lines = Vec::with_capacity(alloc, 12 * number as usize + 11)?;
    push_lines(&mut lines, &opening())?;
    push_drawn(&mut lines, &mut rng, 6 * number)?;
    push_lines(&mut lines, &[Order::Settle])?;
    Ok(lines)
}

/// The generator of a number.
fn seeded(number: u32) -> Lcg64Xsh32
    ensures { result ≡ seeded number }
{
    Lcg64Xsh32::seed_from_u64(u64::from(number))
}

/// Four nodes come up, and each takes a queue.
fn opening() -> [Order; 10]
    ensures { result ≡ opening }
{
    [
        up(1),
        up(2),
        up(3),
        up(4),
        Order::Pump(200),
        produce(1),
        produce(2),
        produce(3),
        produce(4),
        Order::Pump(200),
    ]
}

/// The node comes up.
fn up(n: u8) -> Order
    requires low { 1 ≤ n }
    requires high { n ≤ 16 }
    ensures { result ≡ Order.Up n }
{
    Order::Up(node(n))
}

/// The node takes the queue of the producer of its number.
fn produce(n: u8) -> Order
    requires low { 1 ≤ n }
    requires high { n ≤ 16 }
    ensures { result ≡ Order.Produce n n }
{
    Order::Produce(producer(n), node(n))
}
