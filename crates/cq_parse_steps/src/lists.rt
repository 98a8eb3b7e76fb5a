//! What stands again and again.

ghost use Rattle.std.specs.Prelude.{◌≡◌, ◌≤◌, ℕ};
ghost use Rattle.cq_grammar.specs.declared.kind.Kind.TheVariants as k;
ghost use Rattle.cq_grammar.specs.Descent as descent;
ghost use Rattle.cq_grammar.specs.Read as read;
ghost use Rattle.cq_grammar.specs.Read.{Reader};
ghost use Rattle.cq_parse_steps.specs.Reads.{Reads, Follows, IsCallable};

use crate::parser::Parser;
use cq_grammar::{Kind, Refusal};
use cq_value::Items;

/// How many items a list has room for at first.
const ROOM: u64 = 4;

/// Puts behind `front` what `item` reads, from number `start` on, as long as a token of these kinds comes next. The tokens
/// bound the turns, since each item takes one or more.
fn more<T: Drop, F: Fn(&mut Parser<'_>, usize) -> Result<T, Refusal>>(
    parser: &mut Parser<'_>,
    kinds: &[Kind],
    start: usize,
    front: Items<T>,
    item: F,
) -> Result<Items<T>, Refusal>
    requires start { start ≤ 1 }
    requires callable { IsCallable (F.pre item) }
    ensures { (p : ℕ → Reader T) → Follows (F.post item) p → Reads (read.before front (read.many (read.sees kinds.now) p start parser.old)) result parser.new }
{
    let mut found = front;
    'items: for turn in 0..parser.len() {
        if !parser.sees(kinds) {
            break;
        }
        let next = item(parser, start + turn)?;
        found.put(next)?;
    }
    Ok(found)
}

/// What `item` reads, from number `start` on, as long as a token of these kinds comes next.
pub fn many<T: Drop, F: Fn(&mut Parser<'_>, usize) -> Result<T, Refusal>>(
    parser: &mut Parser<'_>,
    kinds: &[Kind],
    start: usize,
    item: F,
) -> Result<Items<T>, Refusal>
    requires start { start ≤ 1 }
    requires callable { IsCallable (F.pre item) }
    ensures { (p : ℕ → Reader T) → Follows (F.post item) p → Reads (read.many (read.sees kinds.now) p start parser.old) result parser.new }
{
    more(parser, kinds, start, Items::new(parser.alloc()), item)
}

/// What `item` reads once, and again as long as a token of these kinds comes next.
pub fn several<T: Drop, F: Fn(&mut Parser<'_>, usize) -> Result<T, Refusal>>(
    parser: &mut Parser<'_>,
    kinds: &[Kind],
    item: F,
) -> Result<Items<T>, Refusal>
    requires { IsCallable (F.pre item) }
    ensures { (p : ℕ → Reader T) → Follows (F.post item) p → Reads (read.several (read.sees kinds.now) p parser.old) result parser.new }
{
    let first = item(parser, 0)?;
    let mut front = Items::new(parser.alloc());
    front.put(first)?;
    more(parser, kinds, 1, front, item)
}

/// What `item` reads, with commas between.
pub fn list<T: Drop, F: Fn(&mut Parser<'_>, usize) -> Result<T, Refusal>>(
    parser: &mut Parser<'_>,
    item: F,
) -> Result<Items<T>, Refusal>
    requires { IsCallable (F.pre item) }
    ensures { (p : ℕ → Reader T) → Follows (F.post item) p → Reads (descent.list p parser.old) result parser.new }
{
    let first = item(parser, 0)?;
    let mut front = Items::with_room(parser.alloc(), ROOM)?;
    front.put(first)?;
    let behind_comma = |parser: &mut Parser<'_>, before: usize| -> Result<T, Refusal>
        requires { IsCallable (F.pre item) }
        ensures { (p : ℕ → Reader T) → Follows (F.post item) p → Reads (read.comma_item (descent.the k.Comma) p before parser.old) result parser.new }
    {
        parser.the(Kind::Comma)?;
        item(parser, before)
    };
    more(parser, &[Kind::Comma], 1, front, behind_comma)
}
