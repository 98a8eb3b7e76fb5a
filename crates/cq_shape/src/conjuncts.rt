ghost use Rattle.std.specs.Prelude.{◌≡◌, ◌++◌, OnOk};
ghost use Rattle.std.specs.Option.{option_copied};
ghost use Rattle.cq_planning.specs.Conjuncts.{conjuncts, inner_conjuncts, column_of as column_by_rule, literal_of as literal_by_rule, equality as equality_by_rule, equalities};

use cq_tree::{Cond, Expr, FromTree, Op};
use cq_value::{Items, NoMemory, Value};

/// The column that an expression is.
pub fn column_of(e: &Expr) -> Option<u32>
    ensures { result ≡ column_by_rule e.now }
{
    match e {
        Expr::Column(at) => Some(*at),
        _ => None,
    }
}

/// The literal that an expression is.
pub fn literal_of(e: &Expr) -> Option<&Value>
    ensures { option_copied result ≡ literal_by_rule e.now }
{
    match e {
        Expr::Literal(value) => Some(value),
        _ => None,
    }
}

/// The columns of `x = y`.
fn equality(c: &Cond) -> Option<(u32, u32)>
    ensures { result ≡ equality_by_rule c.now }
{
    let Cond::Compare(Op::Eq, a, b) = c else {
        return None;
    };
    let x = column_of(a)?;
    let y = column_of(b)?;
    Some((x, y))
}

/// Puts the equalities of columns among the conjuncts of a condition last.
#[tactic(auto, using(crate::proofs::Nodes::equalities_and))]
pub fn put_equalities(pairs: &mut Items<(u32, u32)>, c: &Cond) -> Result<(), NoMemory>
    ensures { OnOk result (pairs.new ≡ pairs.old ++ equalities (conjuncts c.now)) }
{
    match c {
        Cond::And(a, b) => {
            put_equalities(pairs, a.get())?;
            put_equalities(pairs, b.get())
        }
        _ => match equality(c) {
            Some(pair) => pairs.put(pair),
            None => Ok(()),
        },
    }
}

/// Puts those of the ON of the inner joins of a FROM last.
pub fn put_inner_equalities(pairs: &mut Items<(u32, u32)>, from: &FromTree) -> Result<(), NoMemory>
    ensures { OnOk result (pairs.new ≡ pairs.old ++ equalities (inner_conjuncts from.now)) }
{
    match from {
        FromTree::Cross(a, b) => {
            put_inner_equalities(pairs, a.get())?;
            put_inner_equalities(pairs, b.get())
        }
        FromTree::Inner(a, b, on) => {
            put_inner_equalities(pairs, a.get())?;
            put_inner_equalities(pairs, b.get())?;
            put_equalities(pairs, on)
        }
        FromTree::Left(a, _, _) => put_inner_equalities(pairs, a.get()),
        _ => Ok(()),
    }
}
