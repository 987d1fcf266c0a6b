//! Which shard an entity belongs to (Akka 2.6, Cluster Sharding: the message extractor that takes
//! the hash code of the entity's id).
#![tactic(auto)]

ghost use Rattle.std.specs.Prelude.{◌≡◌, ◌+◌, ◌*◌, ◌%◌, ◌<◌, ◌≤◌, length};
ghost use Rattle.std.specs.Int.{w32, cast_signed};
ghost use Rattle.yard_model.specs.Shard.{java_hash, shard};
ghost use Rattle.shard_extract.specs.HashTo.{IsHashTo};

use yard_model::{EntityName, ShardNo};

/// The hash code of a name, as Java's `String.hashCode` gives it: beginning with 0, each byte in turn
/// is added to 31 times the hash so far, in 32 bits that wrap, read as signed.
pub fn java_hash(name: &EntityName) -> i32
    ensures { result ≡ cast_signed w32 (java_hash name.now) }
{
    hash_of_bytes(name.bytes()).cast_signed()
}

/// The shard of a name, of so many shards: the absolute value of its hash code, modulo their number.
/// The absolute value of -2147483648 is 2147483648. There are 1 to 128 shards.
#[tactic(auto, using(crate::proofs::Hash::absolute_of_hash))]
pub fn shard_of(name: &EntityName, shards: u8) -> ShardNo
    requires some { 1 ≤ shards }
    requires most { shards ≤ 128 }
    ensures { result ≡ shard shards name.now }
{
    let place = place_in(java_hash(name).unsigned_abs(), shards);
    match ShardNo::new(place as u8, shards) {
        Some(s) => s,
        None => unreachable!(),
    }
}

/// The remainder by a number of shards; by a power of two it takes no division.
fn place_in(hash: u32, shards: u8) -> u32
    requires { 1 ≤ shards }
    ensures { result ≡ hash % shards }
{
    match shards {
        1 => 0,
        2 => hash % 2,
        4 => hash % 4,
        8 => hash % 8,
        16 => hash % 16,
        32 => hash % 32,
        64 => hash % 64,
        128 => hash % 128,
        _ => hash % u32::from(shards),
    }
}

fn hash_of_bytes(bytes: &[u8]) -> u32
    ensures { result ≡ java_hash bytes.now }
{
    let fours = bytes.len() / 4;
    let mut hash = hash_of_fours(bytes, fours);
    for i in 4 * fours..bytes.len() {
        hash = hash_with(hash, bytes[i]);
    }
    hash
}

/// The hash of so many groups of four bytes at the front.
fn hash_of_fours(bytes: &[u8], fours: usize) -> u32
    requires { 4 * fours ≤ length bytes.now }
    ensures { IsHashTo bytes.now (4 * fours) result }
{
    let mut hash = 0;
    for k in 0..fours {
        let at = 4 * k;
        hash = hash_with_four(hash, bytes[at], bytes[at + 1], bytes[at + 2], bytes[at + 3]);
    }
    hash
}

/// Four bytes more at once.
fn hash_with_four(hash: u32, a: u8, b: u8, c: u8, d: u8) -> u32
    ensures { result ≡ (923521 * hash + 29791 * a + 961 * b + 31 * c + d) % 4294967296 }
{
    let sum = u64::from(hash) * 923_521
        + u64::from(a) * 29_791
        + u64::from(b) * 961
        + u64::from(c) * 31
        + u64::from(d);
    (sum % 4_294_967_296) as u32
}

#[tactic(auto, using(crate::proofs::Hash::wrapped_step))]
fn hash_with(hash: u32, byte: u8) -> u32
    ensures { result ≡ (31 * hash + byte) % 4294967296 }
{
    hash.wrapping_mul(31).wrapping_add(u32::from(byte))
}
