//! Conditions.

use crate::form::Form;
use crate::level::Level;
use crate::scope::Scope;
use cq_print::Draft;
use cq_token::Sign;
use cq_tree::{Cond, Op};

fn sign_of(op: Op) -> Sign {
    match op {
        Op::Eq => Sign::Equal,
        Op::Ne => Sign::NotEqual,
        Op::Lt => Sign::Less,
        Op::Le => Sign::LessOrEqual,
        Op::Gt => Sign::Greater,
        Op::Ge => Sign::GreaterOrEqual,
    }
}

impl Scope<'_> {
    /// Writes an IN subquery.
    fn subquery(&self, out: &mut Draft, number: u32) {
        let number = u64::from(number);
        match self
            .subqueries
            .iter()
            .find(|subquery| subquery.number == number)
        {
            Some(subquery) => out.append(&subquery.select),
            None => {}
        }
    }

    /// Writes a condition where the grammar asks for this level at least.
    #[cycle(write)]
    pub(crate) fn cond(&self, out: &mut Draft, c: &Cond, least: Level) {
        let form = Form::of(c);
        let bracketed = form.level() < least;
        out.sign_if(bracketed, Sign::Open);
        match form {
            Form::List { .. } => self.list(out, c),
            Form::Between => self.between(out, c),
            Form::Chain { .. } | Form::Single => self.single(out, c),
        }
        out.sign_if(bracketed, Sign::Close);
    }

    #[cycle(write)]
    fn single(&self, out: &mut Draft, c: &Cond) {
        match c {
            Cond::Compare(op, a, b) => {
                self.expr(out, a, Level::Sum);
                out.sign(sign_of(*op));
                self.expr(out, b, Level::Sum);
            }
            Cond::IsNull(a) => {
                self.expr(out, a, Level::Sum);
                out.word("is");
                out.word("null");
            }
            Cond::InResult(a, number) => {
                self.expr(out, a, Level::Sum);
                out.word("in");
                out.sign(Sign::Open);
                self.subquery(out, *number);
                out.sign(Sign::Close);
            }
            Cond::And(..) => self.chain(out, c, false),
            Cond::Or(..) => self.chain(out, c, true),
            Cond::Not(a) => {
                out.word("not");
                self.cond(out, a.get(), Level::Not);
            }
            Cond::Always => out.word("null"),
        }
    }

    /// Writes the two halves of a chain of AND or, where this says so, of OR.
    #[cycle(write)]
    fn chain(&self, out: &mut Draft, c: &Cond, any: bool) {
        let (a, b) = match c {
            Cond::And(a, b) | Cond::Or(a, b) => (a.get(), b.get()),
            _ => return,
        };
        let least = match (any, Form::of(a).is_half(any, Form::of(b))) {
            (true, true) => Level::Or,
            (false, false) => Level::Not,
            _ => Level::And,
        };
        self.cond(out, a, least);
        out.word(if any { "or" } else { "and" });
        self.cond(out, b, least);
    }

    #[cycle(write)]
    fn between(&self, out: &mut Draft, c: &Cond) {
        let Cond::And(low, high) = c else {
            return;
        };
        self.lower(out, low.get());
        out.word("and");
        self.upper(out, high.get());
    }

    /// Writes what lies between, and the lower end.
    #[cycle(write)]
    fn lower(&self, out: &mut Draft, c: &Cond) {
        let Cond::Compare(_, x, from) = c else {
            return;
        };
        self.expr(out, x, Level::Sum);
        out.word("between");
        self.expr(out, from, Level::Sum);
    }

    /// Writes the upper end.
    #[cycle(write)]
    fn upper(&self, out: &mut Draft, c: &Cond) {
        match c {
            Cond::Compare(_, _, to) => self.expr(out, to, Level::Sum),
            _ => {}
        }
    }

    #[cycle(write)]
    fn list(&self, out: &mut Draft, c: &Cond) {
        self.operand(out, c);
        out.word("in");
        out.sign(Sign::Open);
        self.items(out, c);
        out.sign(Sign::Close);
    }

    /// Writes what is equal to one of the items.
    #[cycle(write)]
    fn operand(&self, out: &mut Draft, c: &Cond) {
        match c {
            Cond::Or(a, _) => self.operand(out, a.get()),
            Cond::Compare(_, x, _) => self.expr(out, x, Level::Sum),
            _ => {}
        }
    }

    #[cycle(write)]
    fn items(&self, out: &mut Draft, c: &Cond) {
        match c {
            Cond::Or(a, b) => {
                self.items(out, a.get());
                out.sign(Sign::Comma);
                self.items(out, b.get());
            }
            Cond::Compare(_, _, item) => self.expr(out, item, Level::Sum),
            _ => {}
        }
    }
}
