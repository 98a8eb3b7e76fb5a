ghost use Rattle.std.specs.Prelude.{◌≡◌, ◌≢◌, [], ◌∷◌, ◌++◌, None, length, map, All, IfOk, OnOk, OnErr};
ghost use Rattle.std.specs.List.{list_any};
ghost use Rattle.cq_meaning.specs.Expressions.{items_of};
ghost use Rattle.cq_meaning.specs.Groups.{group_row, groups_by, groups_of};
ghost use Rattle.cq_meaning.specs.Limits.{is_large_group};
ghost use Rattle.cq_meaning.specs.Safety.{AreSafeOver, IsSafeAggregate};
ghost use Rattle.cq_queries.specs.Cells.{row_in, rows_in};
ghost use Rattle.cq_queries.specs.LentKeys.{row_of};
ghost use Rattle.cq_queries.specs.Tallied.{tallied, unseen, grown, row_of_tallied, is_large_tallied, found_or, put_changed, place_of, CanGrow};

use crate::cells::{Cells, LentRows};
use crate::lent_key::LentKey;
use crate::members::Lookups;
use crate::tally::Tallies;
use cq_tree::{Agg, Expr};
use cq_value::{NoMemory, Row, Rows, Values};
use std::alloc::Global;
use std::collections::HashMap;
use std::hash::RandomState;
use std::marker::Model;
use std::mem;

/// What is kept of a group: its keys, how many rows it has so far, and its aggregates over them.
#[derive(Drop)]
pub struct TalliedGroup<'a> {
    keys: Values,
    rows: u64,
    tallies: Tallies<'a>,
}

impl<'a> TalliedGroup<'a> {
    /// Adds a row.
    fn add(&mut self, row: Cells<'a>, results: &Lookups<'_>)
        requires { CanGrow results.now (row_in row) self.old }
        ensures { self.new ≡ grown results.now (row_in row.entry) self.old }
    {
        self.rows += 1;
        self.tallies.add(row, results);
    }

    /// The group of a row alone.
    fn of_row(
        alloc: Global,
        keys: Values,
        aggs: &'a [Agg],
        row: Cells<'a>,
        results: &Lookups<'_>,
    ) -> Result<TalliedGroup<'a>, NoMemory>
        requires { CanGrow results.now (row_in row) (unseen results.now aggs.now keys) }
        ensures { IfOk result (λ g. g ≡ grown results.now (row_in row.entry) (unseen results.now aggs.now keys)) }
    {
        let mut group = TalliedGroup {
            keys,
            rows: 0,
            tallies: Tallies::new(alloc, aggs)?,
        };
        group.add(row, results);
        Ok(group)
    }

    /// Its keys and then its aggregates.
    fn row(&self, alloc: Global) -> Result<Row, NoMemory>
        ensures { IfOk result (λ row. row ≡ row_of_tallied self.now) }
    {
        let mut row = self.keys.copy(alloc)?;
        self.tallies.put_values(alloc, &mut row)?;
        Ok(Row::from_values(row))
    }
}

/// Groups, each found by hashing its keys. Contracts see the list of groups.
#[derive(Drop)]
pub struct Tallying<'a> {
    alloc: Global,
    groups: Vec<TalliedGroup<'a>>,
    places: HashMap<LentKey<'a>, u64, RandomState>,
}

impl<'a> Model for Tallying<'a> {
    ghost use Rattle.std.specs.Prelude.{List};
    ghost use Rattle.std.specs.Coded.{codes};
    ghost use Rattle.cq_tree.specs.contracts.expression.Expr as expr;
    ghost use Rattle.cq_queries.specs.declared.tallying.TalliedGroup.{TalliedGroup as TheGroup};
    ghost use Rattle.cq_queries.specs.Tallied.{AreTheirPlaces};

    ghost Value = { List TheGroup };

    ghost coded = { Prim.hlevel (codes, expr.the_row.coded) };

    ghost view = { λ t. t.groups.items };

    ghost invariant = { λ t. AreTheirPlaces t.groups.items t.places };
}

fn push_group<'a>(
    groups: &mut Vec<TalliedGroup<'a>>,
    group: TalliedGroup<'a>,
) -> Result<(), NoMemory>
    ensures ok { OnOk result (groups.new.items ≡ groups.old.items ++ group.entry ∷ []) }
    ensures err { OnErr result (groups.new.items ≡ groups.old.items) }
{
    match groups.push(group) {
        Ok(()) => Ok(()),
        Err(_) => Err(NoMemory),
    }
}

/// A row of each group.
fn rows_of(alloc: Global, groups: &[TalliedGroup<'_>]) -> Result<Rows, NoMemory>
    ensures { IfOk result (λ rows. rows ≡ map row_of_tallied groups.now) }
{
    let mut rows = Rows::with_room(alloc, groups.len() as u64)?;
    for g in groups {
        rows.put(g.row(alloc)?)?;
    }
    Ok(rows)
}

impl<'a> Tallying<'a> {
    /// No groups.
    fn new(alloc: Global, hash: RandomState) -> Tallying<'a>
        ensures { result ≡ [] }
    {
        Tallying {
            alloc,
            groups: Vec::new(alloc),
            places: HashMap::with_hasher(alloc, hash),
        }
    }

    /// Puts a group last, whose keys no group has.
    fn put_new(&mut self, key: LentKey<'a>, group: TalliedGroup<'a>) -> Result<(), NoMemory>
        requires keys { group.keys ≡ row_of key }
        requires missing { place_of (row_of key) self.old ≡ None }
        ensures { OnOk result (self.new ≡ self.old ++ group.entry ∷ []) }
    {
        let place = self.groups.len() as u64;
        push_group(&mut self.groups, group)?;
        match self.places.insert(key, place) {
            Ok(_) => Ok(()),
            Err(_) => {
                let _ = self.groups.pop();
                Err(NoMemory)
            }
        }
    }

    /// Adds a row to the group of its keys, or to a new one.
    fn put(
        &mut self,
        key: &mut LentKey<'a>,
        aggs: &'a [Agg],
        row: Cells<'a>,
        results: &Lookups<'_>,
    ) -> Result<(), NoMemory>
        requires { CanGrow results.now (row_in row) (found_or (unseen results.now aggs.now (row_of key.old)) self.old) }
        ensures { OnOk result (self.new ≡ put_changed (grown results.now (row_in row.entry)) (unseen results.now aggs.now (row_of key.old)) self.old) }
    {
        let alloc = self.alloc;
        match self.places.get(&*key).copied() {
            Some(place) => {
                self.groups[place as usize].add(row, results);
                Ok(())
            }
            None => {
                let group = TalliedGroup::of_row(alloc, key.copy(alloc)?, aggs, row, results)?;
                let key = mem::replace(key, LentKey::new(alloc));
                self.put_new(key, group)
            }
        }
    }

    /// Whether a group has more than 2^31 rows.
    pub fn has_large(&self) -> bool
        ensures { result ≡ list_any is_large_tallied self.now }
    {
        self.groups.iter().any(|g| g.rows > 2147483648)
    }

    /// A row of each group: its keys and then its aggregates.
    pub fn rows(&self, alloc: Global) -> Result<Rows, NoMemory>
        ensures { IfOk result (λ rows. rows ≡ map row_of_tallied self.now) }
    {
        rows_of(alloc, self.groups.as_slice())
    }
}

/// The groups of rows by the values of expressions, in the order of their first rows, with their aggregates: in one pass over the rows.
pub fn tally_groups<'a>(
    alloc: Global,
    hash: RandomState,
    es: &'a [Expr],
    aggs: &'a [Agg],
    rows: LentRows<'a>,
    results: &Lookups<'_>,
) -> Result<Tallying<'a>, NoMemory>
    requires keys { AreSafeOver es.now results.now (rows_in rows) }
    requires aggregates { All (λ g. All (IsSafeAggregate results.now g.rows) aggs.now) (groups_by (items_of es.now results.now) (rows_in rows)) }
    ensures { IfOk result (λ groups. groups ≡ map (tallied results.now aggs.now) (groups_by (items_of es.now results.now) (rows_in rows.entry))) }
{
    let mut groups = Tallying::new(alloc, hash);
    let mut key = LentKey::new(alloc);
    for at in 0..rows.len() {
        let row = rows.row(at);
        key.take(es, row, results)?;
        groups.put(&mut key, aggs, row, results)?;
    }
    Ok(groups)
}

/// A row of each group of GROUP BY, where there are keys: the keys and then the aggregates.
pub fn rows_of_groups(
    alloc: Global,
    hash: RandomState,
    es: &[Expr],
    aggs: &[Agg],
    rows: LentRows<'_>,
    results: &Lookups<'_>,
) -> Result<Rows, NoMemory>
    requires keyed { length es.now ≢ 0 }
    requires keys { AreSafeOver es.now results.now (rows_in rows) }
    requires aggregates { All (λ g. All (IsSafeAggregate results.now g.rows) aggs.now) (groups_of es.now results.now (rows_in rows)) }
    ensures { IfOk result (λ made. made ≡ map (group_row aggs.now results.now) (groups_of es.now results.now (rows_in rows.entry))) }
{
    let groups = tally_groups(alloc, hash, es, aggs, rows, results)?;
    groups.rows(alloc)
}

/// Whether one of these groups has more than 2^31 rows.
pub fn is_one_large(
    alloc: Global,
    hash: RandomState,
    es: &[Expr],
    rows: LentRows<'_>,
    results: &Lookups<'_>,
) -> Result<bool, NoMemory>
    requires keyed { length es.now ≢ 0 }
    requires keys { AreSafeOver es.now results.now (rows_in rows) }
    ensures { IfOk result (λ b. b ≡ list_any is_large_group (groups_of es.now results.now (rows_in rows.entry))) }
{
    let groups = tally_groups(alloc, hash, es, &[], rows, results)?;
    Ok(groups.has_large())
}
