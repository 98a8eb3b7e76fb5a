ghost use Rattle.std.specs.Prelude.{◌≡◌, ◌<◌, ◌≤◌};
ghost use Rattle.cq_value.specs.Placement.{token_of, text_number, number_token, low, height as height_of, shard_index as index_of};

use crate::value::Value;

fn number_of_text(s: &[u8]) -> u32
    ensures { result ≡ text_number s.now }
{
    let mut h = 0u32;
    for byte in s {
        h = h.wrapping_mul(31).wrapping_add(u32::from(*byte));
    }
    h
}

fn low_half(n: i128) -> u32
    ensures { result ≡ low n }
{
    (n.cast_unsigned() % 4294967296) as u32
}

fn token_of_number(n: u32) -> i32
    ensures { result ≡ number_token n }
{
    n.wrapping_mul(2654435761).cast_signed()
}

/// The token of a value, by which rows are placed on shards: a number's product with 2654435761 modulo 2^32, read as
/// signed; a text's bytes make a number first; NULL has the token 0. Takes no memory.
pub fn token(v: &Value) -> i32
    ensures { result ≡ token_of v.now }
{
    match v {
        Value::Null => 0,
        Value::Int(n) => token_of_number(low_half(*n)),
        Value::Text(t) => token_of_number(number_of_text(t.as_str().as_bytes())),
    }
}

fn height(token: i32) -> u64
    ensures { result ≡ height_of token }
{
    (i64::from(token) + 2147483648) as u64
}

/// Of so many shards, the place of the one whose range holds the token.
pub fn shard_index(count: u32, token: i32) -> u32
    requires some { 0 < count }
    requires few { count ≤ 128 }
    ensures same { result ≡ index_of count token }
    ensures within { result < count }
{
    let place = height(token) / (4294967296 / u64::from(count));
    place.min(u64::from(count) - 1) as u32
}
