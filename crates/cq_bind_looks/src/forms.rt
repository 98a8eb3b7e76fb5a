use cq_grammar::AddOperator;
use cq_value::Text;

/// What an expression looks like, as far as that has a meaning of its own: a number, a number with one sign before it, or a bare
/// name.
#[derive(Clone, Copy)]
pub enum Form<'a> {
    Number(u64),
    Signed(AddOperator, u64),
    Name(&'a Text),
    Other,
}
