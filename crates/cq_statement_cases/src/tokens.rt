//! Tokens of values, and of four shards those that hold them, worked out elsewhere: EXPLAIN shows the first bits of a token alone.

use cq_value::{Text, Value, shard_index, token};
use std::process::Abort;
use std::test::Fail;

/// The value has this token, and this shard of four.
fn expect<R: Abort>(rt: &R, value: &Value, wanted: i32, shard: u32) {
    assert!(rt; token(value) == wanted && shard_index(4, wanted) == shard);
}

#[test]
fn tokens_of_values(rt: HostRuntime) -> Result<(), Fail> {
    let alloc = rt.alloc();
    expect(&rt, &Value::Int(0), 0, 2);
    expect(&rt, &Value::Int(1), -1640531535, 0);
    expect(&rt, &Value::Int(2), 1013904226, 2);
    expect(&rt, &Value::Int(3), -626627309, 1);
    expect(&rt, &Value::Int(4), 2027808452, 3);
    expect(&rt, &Value::Int(5), 387276917, 2);
    expect(&rt, &Value::Int(6), -1253254618, 0);
    expect(&rt, &Value::Int(7), 1401181143, 3);
    expect(&rt, &Value::Int(8), -239350392, 1);
    expect(&rt, &Value::Int(9), -1879881927, 0);
    expect(&rt, &Value::Int(10), 774553834, 2);
    expect(&rt, &Value::Int(-1), 1640531535, 3);
    expect(&rt, &Value::Int(9223372036854775807), 1640531535, 3);
    expect(&rt, &Value::Text(Text::of_str(alloc, "")?), 0, 2);
    expect(&rt, &Value::Text(Text::of_str(alloc, "a")?), -217768943, 1);
    expect(&rt, &Value::Text(Text::of_str(alloc, "ab")?), -19203119, 1);
    expect(&rt, &Value::Null, 0, 2);
    Ok(())
}
