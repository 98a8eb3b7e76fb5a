ghost use Rattle.std.specs.Prelude.{◌≡◌, ◌≤◌, ◌<◌, ◌^◌, ◌+◌, length, IfOk};
ghost use Rattle.cq_catalog.specs.Ranges.{end_of, ends, index_in, IsPart};

use crate::info::Ends;
use cq_value::NoMemory;
use std::alloc::Global;

/// The last token of a shard.
fn last_token(count: u32, index: u32) -> i32
    requires some { 0 < count }
    requires within { index < count }
    ensures { result ≡ end_of count index }
{
    if index + 1 == count {
        2147483647
    } else {
        let past = 4294967296 / u64::from(count) * (u64::from(index) + 1);
        (past as i64 - 2147483649) as i32
    }
}

/// The last tokens of so many shards.
pub(crate) fn ends_of(alloc: Global, count: u32) -> Result<Ends, NoMemory>
    requires { 0 < count }
    ensures { IfOk result (λ es. es ≡ ends count) }
{
    let mut ends = Ends::new(alloc);
    for index in 0..count {
        ends.put(last_token(count, index))?;
    }
    Ok(ends)
}

/// The place of the shard whose range holds the token.
pub(crate) fn index_of(token: i32, ends: &[i32]) -> usize
    requires { IsPart ends.now }
    ensures value { result ≡ index_in ends.now token }
    ensures within { result < length ends.now }
{
    ends.partition_point(|end| *end < token)
}
