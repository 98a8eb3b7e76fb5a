ghost use Rattle.std.specs.Prelude.{◌++◌, map, codes};
ghost use Rattle.cq_print.specs.Drafts.{Wrote};
ghost use Rattle.cq_token.specs.declared.sign.Sign.TheVariants as s;
ghost use Rattle.cq_grammar.specs.Spelling as spelled;
ghost use Rattle.cq_grammar.specs.Spelling.{word, sign, named, in_a_row, each_behind, commas, if_some_behind, expr_spelling, test_spelling};
ghost use Rattle.cq_grammar.specs.Bare.{if_any};

use crate::draft::Draft;
use crate::operators::{add_sign, aggregate_word, comparison_sign, multiply_sign};
use cq_grammar::{Added, Arm, Chained, Expr, Multiplied, Name, NullTest, Test};
use cq_token::Sign;
use cq_value::{Boxed, Items};

impl Draft {
    #[cycle(write)]
    pub(crate) fn expr(&mut self, expr: &Expr)
        ensures { Wrote self.old (expr_spelling expr.now) self.new }
    {
        match expr {
            Expr::Or { first, rest } => {
                self.expr(first.get());
                self.chained("or", rest);
            }
            Expr::And { first, rest } => {
                self.expr(first.get());
                self.chained("and", rest);
            }
            Expr::Not { inner, .. } => {
                self.word("not");
                self.expr(inner.get());
            }
            Expr::Is { first, rest } => {
                self.expr(first.get());
                self.null_tests(rest);
            }
            Expr::Compare {
                left,
                operator,
                right,
                ..
            } => {
                self.expr(left.get());
                self.sign(comparison_sign(*operator));
                self.expr(right.get());
            }
            Expr::Tested {
                operand,
                negated,
                test,
                ..
            } => {
                self.expr(operand.get());
                self.word_if(*negated, "not");
                self.test(test);
            }
            Expr::Sum { first, rest } => {
                self.expr(first.get());
                self.added(rest);
            }
            Expr::Product { first, rest } => {
                self.expr(first.get());
                self.multiplied(rest);
            }
            Expr::Signed { sign, inner, .. } => {
                self.sign(add_sign(*sign));
                self.expr(inner.get());
            }
            Expr::Number { value, .. } => self.number(*value),
            Expr::Quoted { text, .. } => self.quoted(text.as_str()),
            Expr::Null { .. } => self.word("null"),
            Expr::Column { column } => self.name(column),
            Expr::ColumnOf { relation, column } => self.column_of(relation, column),
            Expr::Group { inner, .. } => self.in_brackets(inner.get()),
            Expr::Case {
                arms,
                otherwise,
                ..
            } => {
                self.word("case");
                self.arms(arms);
                self.otherwise(otherwise);
                self.word("end");
            }
            Expr::Coalesce { items, .. } => {
                self.word("coalesce");
                self.exprs_in_brackets(items);
            }
            Expr::CountAll { .. } => self.count_all(),
            Expr::Aggregate {
                function,
                argument,
                ..
            } => {
                self.word(aggregate_word(*function));
                self.in_brackets(argument.get());
            }
        }
    }

    #[cycle(write)]
    fn chained(&mut self, joint: &str, rest: &Items<Chained>)
        ensures { Wrote self.old (each_behind (word joint.now) (map spelled.chained_spelling rest.now)) self.new }
    {
        'rest: for chained in rest.as_slice() {
            self.word(joint);
            self.expr(&chained.part);
        }
    }

    fn null_tests(&mut self, tests: &Items<NullTest>)
        ensures { Wrote self.old (in_a_row (map spelled.null_test_spelling tests.now)) self.new }
    {
        'tests: for test in tests.as_slice() {
            self.word("is");
            self.word_if(test.negated, "not");
            self.word("null");
        }
    }

    #[cycle(write)]
    fn test(&mut self, test: &Test)
        ensures { Wrote self.old (test_spelling test.now) self.new }
    {
        match test {
            Test::InSelect { select } => {
                self.word("in");
                self.sign(Sign::Open);
                self.select(select.get());
                self.sign(Sign::Close);
            }
            Test::InList { items } => {
                self.word("in");
                self.exprs_in_brackets(items);
            }
            Test::Between { low, high } => {
                self.word("between");
                self.expr(low.get());
                self.word("and");
                self.expr(high.get());
            }
        }
    }

    #[cycle(write)]
    fn added(&mut self, rest: &Items<Added>)
        ensures { Wrote self.old (in_a_row (map spelled.added_spelling rest.now)) self.new }
    {
        'rest: for added in rest.as_slice() {
            self.sign(add_sign(added.operator));
            self.expr(&added.term);
        }
    }

    #[cycle(write)]
    fn multiplied(&mut self, rest: &Items<Multiplied>)
        ensures { Wrote self.old (in_a_row (map spelled.multiplied_spelling rest.now)) self.new }
    {
        'rest: for multiplied in rest.as_slice() {
            self.sign(multiply_sign(multiplied.operator));
            self.expr(&multiplied.factor);
        }
    }

    fn column_of(&mut self, relation: &Name, column: &Name)
        ensures { Wrote self.old (named relation.now ++ (sign s.Dot ++ named column.now)) self.new }
    {
        self.name(relation);
        self.sign(Sign::Dot);
        self.name(column);
    }

    #[cycle(write)]
    fn in_brackets(&mut self, inner: &Expr)
        ensures { Wrote self.old (sign s.Open ++ (expr_spelling inner.now ++ sign s.Close)) self.new }
    {
        self.sign(Sign::Open);
        self.expr(inner);
        self.sign(Sign::Close);
    }

    #[cycle(write)]
    fn arms(&mut self, arms: &Items<Arm>)
        ensures { Wrote self.old (in_a_row (map spelled.arm_spelling arms.now)) self.new }
    {
        'arms: for arm in arms.as_slice() {
            self.word("when");
            self.expr(&arm.condition);
            self.word("then");
            self.expr(&arm.result);
        }
    }

    #[cycle(write)]
    fn otherwise(&mut self, otherwise: &Option<Boxed<Expr>>)
        ensures { Wrote self.old (if_some_behind (word (codes "else")) (if_any expr_spelling otherwise.now)) self.new }
    {
        match otherwise {
            Some(result) => {
                self.word("else");
                self.expr(result.get());
            }
            None => {}
        }
    }

    fn count_all(&mut self)
        ensures { Wrote self.old (word (codes "count") ++ (sign s.Open ++ (sign s.Star ++ sign s.Close))) self.new }
    {
        self.word("count");
        self.sign(Sign::Open);
        self.sign(Sign::Star);
        self.sign(Sign::Close);
    }

    /// Writes expressions with commas between.
    #[cycle(write)]
    pub(crate) fn exprs(&mut self, items: &Items<Expr>)
        ensures { Wrote self.old (commas (map expr_spelling items.now)) self.new }
    {
        if let Some((first, rest)) = items.as_slice().split_first() {
            self.expr(first);
            'rest: for item in rest {
                self.sign(Sign::Comma);
                self.expr(item);
            }
        }
    }

    /// The same in brackets.
    #[cycle(write)]
    pub(crate) fn exprs_in_brackets(&mut self, items: &Items<Expr>)
        ensures { Wrote self.old (sign s.Open ++ (commas (map expr_spelling items.now) ++ sign s.Close)) self.new }
    {
        self.sign(Sign::Open);
        self.exprs(items);
        self.sign(Sign::Close);
    }
}
