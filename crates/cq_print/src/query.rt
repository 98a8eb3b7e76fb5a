ghost use Rattle.std.specs.Prelude.{◌++◌, map, codes};
ghost use Rattle.cq_print.specs.Drafts.{Wrote};
ghost use Rattle.cq_grammar.specs.Spelling as spelled;
ghost use Rattle.cq_grammar.specs.Spelling.{word, in_a_row, commas, if_some, if_some_behind, list_behind, expr_spelling, select_spelling};
ghost use Rattle.cq_grammar.specs.Bare.{if_any};
ghost use Rattle.cq_print.specs.Parts.{selection_spelling, grouping_spelling, ordering_spelling};

use crate::draft::Draft;
use crate::operators::direction_word;
use cq_grammar::{
    Count, Direction, Expr, From, GroupBy, Having, Item, Join, Name, OrderKey, Relation, Select,
};
use cq_token::Sign;
use cq_value::{Boxed, Items};

impl Draft {
    #[cycle(write)]
    #[tactic(auto, using(crate::proofs::Parts::in_parts))]
    pub(crate) fn select(&mut self, select: &Select)
        ensures { Wrote self.old (select_spelling select.now) self.new }
    {
        self.selection(select);
        self.grouping(select);
        self.ordering(select);
    }

    /// What is selected from where.
    #[cycle(write)]
    fn selection(&mut self, select: &Select)
        ensures { Wrote self.old (selection_spelling select.now) self.new }
    {
        self.word("select");
        self.word_if(select.distinct, "distinct");
        self.items(&select.items);
        self.word("from");
        self.from_items(&select.from);
        self.filter(&select.filter);
    }

    /// How it is grouped.
    #[cycle(write)]
    fn grouping(&mut self, select: &Select)
        ensures { Wrote self.old (grouping_spelling select.now) self.new }
    {
        self.group_by(&select.groups);
        self.having(&select.having);
    }

    /// How it is ordered, and which part is kept.
    #[cycle(write)]
    fn ordering(&mut self, select: &Select)
        ensures { Wrote self.old (ordering_spelling select.now) self.new }
    {
        self.order_by(&select.order);
        self.count("limit", &select.limit);
        self.count("offset", &select.offset);
    }

    #[cycle(write)]
    fn items(&mut self, items: &Items<Item>)
        ensures { Wrote self.old (commas (map spelled.item_spelling items.now)) self.new }
    {
        if let Some((first, rest)) = items.as_slice().split_first() {
            self.item(first);
            'rest: for item in rest {
                self.sign(Sign::Comma);
                self.item(item);
            }
        }
    }

    #[cycle(write)]
    fn item(&mut self, item: &Item)
        ensures { Wrote self.old (spelled.item_spelling item.now) self.new }
    {
        match item {
            Item::All { .. } => self.sign(Sign::Star),
            Item::AllOf { relation } => {
                self.name(relation);
                self.sign(Sign::Dot);
                self.sign(Sign::Star);
            }
            Item::Value { value, name } => {
                self.expr(value);
                self.output_name(name);
            }
        }
    }

    fn output_name(&mut self, name: &Option<Name>)
        ensures { Wrote self.old (if_some_behind (word (codes "as")) (if_any spelled.named name.now)) self.new }
    {
        match name {
            Some(name) => {
                self.word("as");
                self.name(name);
            }
            None => {}
        }
    }

    #[cycle(write)]
    fn from_items(&mut self, items: &Items<From>)
        ensures { Wrote self.old (commas (map spelled.from_spelling items.now)) self.new }
    {
        if let Some((first, rest)) = items.as_slice().split_first() {
            self.from_item(first);
            'rest: for item in rest {
                self.sign(Sign::Comma);
                self.from_item(item);
            }
        }
    }

    #[cycle(write)]
    fn from_item(&mut self, item: &From)
        ensures { Wrote self.old (spelled.from_spelling item.now) self.new }
    {
        self.relation(&item.first);
        'joins: for join in item.joins.as_slice() {
            self.join(join);
        }
    }

    #[cycle(write)]
    fn relation(&mut self, relation: &Relation)
        ensures { Wrote self.old (spelled.relation_spelling relation.now) self.new }
    {
        match relation {
            Relation::Table { name } => self.name(name),
            Relation::TableAs {
                name,
                spelled,
                alias,
            } => {
                self.name(name);
                self.alias(*spelled, alias);
            }
            Relation::Subquery {
                select,
                spelled,
                alias,
                ..
            } => {
                self.sign(Sign::Open);
                self.select(select.get());
                self.sign(Sign::Close);
                self.alias(*spelled, alias);
            }
        }
    }

    fn alias(&mut self, written: bool, alias: &Name)
        ensures { Wrote self.old (spelled.as_spelling written alias.now) self.new }
    {
        self.word_if(written, "as");
        self.name(alias);
    }

    #[cycle(write)]
    fn join(&mut self, join: &Join)
        ensures { Wrote self.old (spelled.join_spelling join.now) self.new }
    {
        match join {
            Join::Inner {
                spelled,
                relation,
                on,
                ..
            } => {
                self.word_if(*spelled, "inner");
                self.word("join");
                self.relation(relation);
                self.on(on);
            }
            Join::Left {
                spelled,
                relation,
                on,
                ..
            } => {
                self.word("left");
                self.word_if(*spelled, "outer");
                self.word("join");
                self.relation(relation);
                self.on(on);
            }
            Join::Cross { relation, .. } => {
                self.word("cross");
                self.word("join");
                self.relation(relation);
            }
        }
    }

    #[cycle(write)]
    fn on(&mut self, condition: &Expr)
        ensures { Wrote self.old (word (codes "on") ++ expr_spelling condition.now) self.new }
    {
        self.word("on");
        self.expr(condition);
    }

    #[cycle(write)]
    fn filter(&mut self, filter: &Option<Boxed<Expr>>)
        ensures { Wrote self.old (if_some_behind (word (codes "where")) (if_any expr_spelling filter.now)) self.new }
    {
        match filter {
            Some(condition) => {
                self.word("where");
                self.expr(condition.get());
            }
            None => {}
        }
    }

    #[cycle(write)]
    fn group_by(&mut self, groups: &Option<GroupBy>)
        ensures { Wrote self.old (if_some (if_any spelled.group_by_spelling groups.now)) self.new }
    {
        match groups {
            Some(groups) => {
                self.word("group");
                self.word("by");
                self.exprs(&groups.keys);
            }
            None => {}
        }
    }

    #[cycle(write)]
    fn having(&mut self, having: &Option<Having>)
        ensures { Wrote self.old (if_some (if_any spelled.having_spelling having.now)) self.new }
    {
        match having {
            Some(having) => {
                self.word("having");
                self.expr(&having.condition);
            }
            None => {}
        }
    }

    #[cycle(write)]
    fn order_by(&mut self, keys: &Items<OrderKey>)
        ensures { Wrote self.old (list_behind (word (codes "order") ++ word (codes "by")) (map spelled.order_key_spelling keys.now)) self.new }
    {
        if let Some((first, rest)) = keys.as_slice().split_first() {
            self.word("order");
            self.word("by");
            self.order_key(first);
            'rest: for key in rest {
                self.sign(Sign::Comma);
                self.order_key(key);
            }
        }
    }

    #[cycle(write)]
    fn order_key(&mut self, key: &OrderKey)
        ensures { Wrote self.old (spelled.order_key_spelling key.now) self.new }
    {
        self.expr(&key.key);
        self.direction(&key.direction);
    }

    fn direction(&mut self, direction: &Option<Direction>)
        ensures { Wrote self.old (spelled.direction_spelling direction.now) self.new }
    {
        match direction {
            Some(direction) => self.word(direction_word(*direction)),
            None => {}
        }
    }

    fn count(&mut self, front: &str, count: &Option<Count>)
        ensures { Wrote self.old (spelled.count_spelling front.now count.now) self.new }
    {
        match count {
            Some(count) => {
                self.word(front);
                self.number(count.value);
            }
            None => {}
        }
    }
}
