ghost use Rattle.std.specs.Prelude.{◌≡◌, position, MatchResult};
ghost use Rattle.cq_reading.specs.declared.error.BindError.TheVariants.{Memory};
ghost use Rattle.cq_tree.specs.Equal.{equal_exprs};
ghost use Rattle.cq_reading.specs.Rules as rule;

use crate::columns::column_number;
use cq_reading::{BindError, Bound};
use cq_same::same_expr;
use cq_tree::Expr;

fn key_place(keys: &[Expr], e: &Expr) -> Option<usize>
    ensures { result ≡ position (equal_exprs e.now) keys.now }
{
    keys.iter().position(|key| same_expr(e, key))
}

/// The column of the key that an expression is, if it is one. The only error is want of memory.
pub fn key_column(keys: &[Expr], b: &Bound) -> Result<Option<Bound>, BindError>
    ensures { MatchResult result (λ k. k ≡ rule.key_column keys.now b.now) (λ e. e ≡ Memory) }
{
    match b {
        Bound::Value(e, kind, width) => match key_place(keys, e) {
            Some(i) => {
                let column = Expr::Column(column_number(i as u64)?);
                Ok(Some(Bound::Value(column, *kind, *width)))
            }
            None => Ok(None),
        },
        Bound::Truth(_) => Ok(None),
    }
}
