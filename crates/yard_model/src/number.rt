//! The numbers of nodes, producers and shards, each within its range.
ghost use Rattle.std.specs.Prelude.{◌≡◌, ℕ, ◌<◌, ◌≤◌, ◌↔◌, IsSome, IfSome};

use std::marker::Model;

/// A node's number, 1 to 16.
#[derive(Clone, Copy, Debug, PartialEq, Eq, PartialOrd, Ord)]
pub struct NodeNo {
    value: u8,
}

impl Model for NodeNo {
    ghost Value = { ℕ };

    ghost view = { λ n. n.value };

    ghost invariant = { λ n. (0 < n.value) × (n.value ≤ 16) };

    ghost inverse = { λ v. record { value = v } };
}

impl NodeNo {
    /// The first node.
    pub const FIRST: NodeNo = NodeNo { value: 1 };

    /// The node of this number; None where it isn't 1 to 16.
    pub fn new(n: u8) -> Option<NodeNo>
        ensures valid { IsSome result ↔ ((0 < n) × (n ≤ 16)) }
        ensures value { IfSome result (λ node. node ≡ n) }
    {
        if n >= 1 && n <= 16 {
            Some(NodeNo { value: n })
        } else {
            None
        }
    }

    /// Its number.
    pub fn get(self) -> u8
        ensures value { result ≡ self }
        ensures range { (0 < self) × (self ≤ 16) }
    {
        self.value
    }
}

/// A producer's number, 1 to 32.
#[derive(Clone, Copy, Debug, PartialEq, Eq, PartialOrd, Ord)]
pub struct ProducerNo {
    value: u8,
}

impl Model for ProducerNo {
    ghost Value = { ℕ };

    ghost view = { λ n. n.value };

    ghost invariant = { λ n. (0 < n.value) × (n.value ≤ 32) };

    ghost inverse = { λ v. record { value = v } };
}

impl ProducerNo {
    /// The producer of this number; None where it isn't 1 to 32.
    pub fn new(n: u8) -> Option<ProducerNo>
        ensures valid { IsSome result ↔ ((0 < n) × (n ≤ 32)) }
        ensures value { IfSome result (λ p. p ≡ n) }
    {
        if n >= 1 && n <= 32 {
            Some(ProducerNo { value: n })
        } else {
            None
        }
    }

    /// Its number.
    pub fn get(self) -> u8
        ensures value { result ≡ self }
        ensures range { (0 < self) × (self ≤ 32) }
    {
        self.value
    }
}

/// A shard's number, below 128.
#[derive(Clone, Copy, Debug, PartialEq, Eq, PartialOrd, Ord)]
pub struct ShardNo {
    value: u8,
}

impl Model for ShardNo {
    ghost Value = { ℕ };

    ghost view = { λ n. n.value };

    ghost invariant = { λ n. n.value < 128 };

    ghost inverse = { λ v. record { value = v } };
}

impl ShardNo {
    /// The shard of this number; None where there are not so many.
    pub fn new(s: u8, shards: u8) -> Option<ShardNo>
        requires { shards ≤ 128 }
        ensures valid { IsSome result ↔ (s < shards) }
        ensures value { IfSome result (λ shard. shard ≡ s) }
    {
        if s < shards {
            Some(ShardNo { value: s })
        } else {
            None
        }
    }

    /// Its number.
    pub fn get(self) -> u8
        ensures value { result ≡ self }
        ensures range { self < 128 }
    {
        self.value
    }
}
