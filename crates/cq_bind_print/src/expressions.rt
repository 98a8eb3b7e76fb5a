//! Expressions.

use crate::level::Level;
use crate::scope::Scope;
use crate::values::{integer, literal};
use cq_print::Draft;
use cq_token::Sign;
use cq_tree::{Arm, Expr};
use cq_value::Value;

impl Scope<'_> {
    /// Writes a column. One that isn't there is NULL.
    fn column(&self, out: &mut Draft, place: u32) {
        match self.columns.get(place as usize) {
            Some(phrase) => out.append(&phrase.tokens),
            None => out.word("null"),
        }
    }

    /// The level of an expression without brackets.
    pub(crate) fn level(&self, e: &Expr) -> Level {
        match e {
            Expr::Literal(Value::Int(x)) if *x >= 0 => Level::Number,
            Expr::Column(place) => match self.columns.get(*place as usize) {
                Some(phrase) => phrase.level,
                None => Level::Unary,
            },
            Expr::Add(..) | Expr::Sub(..) => Level::Sum,
            Expr::Mul(..) | Expr::Div(..) | Expr::Rem(..) => Level::Term,
            _ => Level::Unary,
        }
    }

    /// Writes an expression where the grammar asks for this level at least.
    #[cycle(write)]
    pub(crate) fn expr(&self, out: &mut Draft, e: &Expr, least: Level) {
        self.in_brackets(out, e, self.level(e) < least);
    }

    /// Writes an expression that isn't digits alone.
    #[cycle(write)]
    pub(crate) fn no_number(&self, out: &mut Draft, e: &Expr, least: Level) {
        let level = self.level(e);
        self.in_brackets(out, e, level < least || level == Level::Number);
    }

    #[cycle(write)]
    fn in_brackets(&self, out: &mut Draft, e: &Expr, written: bool) {
        out.sign_if(written, Sign::Open);
        self.bare(out, e);
        out.sign_if(written, Sign::Close);
    }

    #[cycle(write)]
    fn bare(&self, out: &mut Draft, e: &Expr) {
        match e {
            Expr::Literal(value) => literal(out, value),
            Expr::Column(place) => self.column(out, *place),
            Expr::Neg(a) => {
                out.sign(Sign::Minus);
                self.no_number(out, a.get(), Level::Unary);
            }
            Expr::Add(a, b) => {
                self.first(out, a.get(), Level::Sum, Sign::Plus);
                self.expr(out, b.get(), Level::Term);
            }
            Expr::Sub(a, b) => {
                self.first(out, a.get(), Level::Sum, Sign::Minus);
                self.expr(out, b.get(), Level::Term);
            }
            Expr::Mul(a, b) => {
                self.first(out, a.get(), Level::Term, Sign::Star);
                self.expr(out, b.get(), Level::Unary);
            }
            Expr::Div(a, c) => {
                self.first(out, a.get(), Level::Term, Sign::Slash);
                integer(out, i128::from(*c));
            }
            Expr::Rem(a, c) => {
                self.first(out, a.get(), Level::Term, Sign::Percent);
                integer(out, i128::from(*c));
            }
            Expr::Case(arms, other) => {
                out.word("case");
                self.arms(out, arms.as_slice());
                out.word("else");
                self.expr(out, other.get(), Level::Sum);
                out.word("end");
            }
            Expr::Coalesce(items) => {
                out.word("coalesce");
                self.exprs(out, items.as_slice());
            }
        }
    }

    /// Writes what stands first in a chain of this level, and the sign behind it. A key is no part of a longer chain.
    #[cycle(write)]
    fn first(&self, out: &mut Draft, e: &Expr, chain: Level, mark: Sign) {
        let least = match (e, chain) {
            (Expr::Column(_), Level::Sum) => Level::Term,
            (Expr::Column(_), _) => Level::Unary,
            _ => chain,
        };
        self.expr(out, e, least);
        out.sign(mark);
    }

    #[cycle(write)]
    fn arms(&self, out: &mut Draft, arms: &[Arm]) {
        for arm in arms {
            out.word("when");
            self.cond(out, &arm.when, Level::Or);
            out.word("then");
            self.expr(out, &arm.then, Level::Sum);
        }
    }

    #[cycle(write)]
    fn exprs(&self, out: &mut Draft, items: &[Expr]) {
        out.sign(Sign::Open);
        for (place, item) in items.iter().enumerate() {
            out.sign_if(place > 0, Sign::Comma);
            self.expr(out, item, Level::Sum);
        }
        out.sign(Sign::Close);
    }
}
