//! Hash codes that Java gives, and the shards that follow from them.
use shard_extract::{java_hash, shard_of};
use std::process::Abort;
use yard_model::EntityName;

const TABLE: [(&str, i32, u8); 5] = [
    ("cart", 3046176, 6),
    ("Aa", 2112, 2),
    ("BB", 2112, 2),
    ("cart-7", -1367590710, 0),
    ("polygenelubricants", -2147483648, 8),
];

/// The hash code of a name, and its shard of ten.
fn hashed(text: &str) -> Option<(i32, u8)> {
    let name = EntityName::new(text.as_bytes())?;
    Some((java_hash(&name), shard_of(&name, 10).get()))
}

/// The first name of the table that has another one.
fn first_other() -> Option<&'static str> {
    for (text, hash, shard) in &TABLE {
        if hashed(text) != Some((*hash, *shard)) {
            return Some(text);
        }
    }
    None
}

#[test]
fn names_have_the_hash_codes_of_java(rt: HostRuntime) {
    assert!(rt; first_other().is_none());
}
