ghost use Rattle.std.specs.Prelude.{◌≡◌, ◌<◌, Some, ◌++◌, ◌∷◌, [], map, length, position, slice_get, nat_lt, true, bytes_eq, IfOk, IfSome, IfErr, OnOk, option_copied};
ghost use Rattle.cq_tree.specs.declared.query.FromTree.{Sub, Cross, Inner, Left};
ghost use Rattle.cq_reading.specs.declared.error.BindError.TheVariants as error;
ghost use Rattle.cq_reading.specs.declared.error.Limited.TheVariants as limited;
ghost use Rattle.cq_reading.specs.Outcomes.{Judges};
ghost use Rattle.cq_reading.specs.Widths.{kind_width};
ghost use Rattle.cq_reading.specs.Scopes.{column_source, table_sources as sources_of_table, output_source, output_sources as sources_of_outputs};
ghost use Rattle.cq_reading.specs.Relations.{is_named as has_name, under as under_name, common_by, common_under, table_by, table_under, relation_by, table_relation as relation_of, subquery_relation as relation_of_block, both as both_of, no_relations as none};
ghost use Rattle.cq_reading.specs.Steps.{give};
ghost use Rattle.cq_catalog.specs.Contents.{number_of};
ghost use Rattle.cq_bind_names.specs.Checks.{Checks};
ghost use Rattle.cq_bind_names.specs.Worlds.{world_of};
ghost use Rattle.cq_bind_names.specs.Joining.{pair_of, joined_pair};

use cq_catalog::TableInfo;
use cq_grammar::Name;
use cq_reading::{
    BindError, Block, Common, Limited, Output, Relations, Source, Sources, Type, World,
};
use cq_tree::{Cond, FromTree, Query};
use cq_value::{Boxed, Column, Items, Kind, Names, NoMemory, Text, both, small};
use std::alloc::Global;

fn is_named(name: &Text, names: &[Text]) -> bool
    ensures { result ≡ has_name name.now names.now }
{
    names.iter().any(|other| other.as_str() == name.as_str())
}

fn width_of(kind: Kind) -> u32
    ensures { result ≡ kind_width kind }
{
    match kind {
        Kind::Bigint => 64,
        Kind::Integer => 32,
        Kind::Text => 0,
    }
}

fn source_of_column(alloc: Global, relation: &Text, column: &Column) -> Result<Source, NoMemory>
    ensures { IfOk result (λ s. s ≡ column_source relation.now column.now) }
{
    let relation = relation.copy(alloc)?;
    let name = column.name.copy(alloc)?;
    Ok(Source {
        relation,
        name,
        kind: Type::from(column.kind),
        width: width_of(column.kind),
    })
}

/// The columns of a table, under the name of a relation.
pub fn table_sources(alloc: Global, relation: &Text, table: &TableInfo) -> Result<Sources, NoMemory>
    ensures { IfOk result (λ s. s ≡ sources_of_table relation.now table.now) }
{
    let mut sources = Sources::with_room(alloc, table.columns.len())?;
    for column in table.columns.as_slice() {
        sources.put(source_of_column(alloc, relation, column)?)?;
    }
    Ok(sources)
}

fn source_of_output(alloc: Global, relation: &Text, output: &Output) -> Result<Source, NoMemory>
    ensures { IfOk result (λ s. s ≡ output_source relation.now output.now) }
{
    let relation = relation.copy(alloc)?;
    let name = output.name.copy(alloc)?;
    Ok(Source {
        relation,
        name,
        kind: output.kind,
        width: output.width,
    })
}

fn output_sources(alloc: Global, relation: &Text, outputs: &[Output]) -> Result<Sources, NoMemory>
    ensures { IfOk result (λ s. s ≡ sources_of_outputs relation.now outputs.now) }
{
    let mut sources = Sources::new(alloc);
    for output in outputs {
        sources.put(source_of_output(alloc, relation, output)?)?;
    }
    Ok(sources)
}

fn one_name(alloc: Global, name: &Text) -> Result<Names, NoMemory>
    ensures { IfOk result (λ all. all ≡ name.now ∷ []) }
{
    let mut all = Names::with_room(alloc, 1)?;
    all.put(name.copy(alloc)?)?;
    Ok(all)
}

/// A relation under a name that none before it has.
fn under(
    alloc: Global,
    name: &Name,
    names: &[Text],
    tree: FromTree,
    columns: Sources,
    joined: bool,
) -> Result<Relations, BindError>
    ensures { Judges (under_name name.now names.now tree columns joined) result }
{
    if is_named(&name.text, names) {
        drop(tree);
        let name = name.text.copy(alloc)?;
        return Err(BindError::NameTaken { name });
    }
    let (tree, names) = both(Ok(tree), one_name(alloc, &name.text))?;
    Ok(Relations {
        tree,
        columns,
        names,
        joined,
    })
}

/// The CTE at a place, under a name.
fn common_relation(
    alloc: Global,
    alias: &Name,
    names: &[Text],
    place: usize,
    common: &Common,
) -> Result<Relations, BindError>
    ensures { Judges (common_under alias.now names.now place common.now) result }
{
    let number = small(place as u64)?;
    let count = small(common.outputs.len())?;
    let columns = output_sources(alloc, &alias.text, common.outputs.as_slice())?;
    under(
        alloc,
        alias,
        names,
        FromTree::Result(number, count),
        columns,
        common.joined,
    )
}

/// The table of a number, under a name.
fn numbered_relation(
    alloc: Global,
    name: &Name,
    alias: &Name,
    names: &[Text],
    number: u32,
    table: &TableInfo,
) -> Result<Relations, BindError>
    ensures { Judges (table_under name.now alias.now names.now number (Some table.now)) result }
{
    if table.place.is_local() {
        return Err(BindError::LocalTable { at: name.at });
    }
    let count = small(table.columns.len())?;
    let columns = table_sources(alloc, &alias.text, table)?;
    under(
        alloc,
        alias,
        names,
        FromTree::Table(number, count),
        columns,
        false,
    )
}

/// The table of a name, under another name.
fn catalog_relation(
    world: &World<'_>,
    name: &Name,
    alias: &Name,
    names: &[Text],
) -> Result<Relations, BindError>
    ensures { Judges (table_by world.now name.now alias.now names.now (number_of world.now.tables name.now.text)) result }
{
    let Some(number) = world.catalog.find(&name.text) else {
        return Err(BindError::UnknownTable {
            name: name.text.copy(world.alloc)?,
        });
    };
    let table = world.catalog.info(number);
    numbered_relation(world.alloc, name, alias, names, number, table)
}

fn common_place(name: &Text, commons: &[Common]) -> Option<usize>
    ensures { result ≡ position (λ c. bytes_eq c.name name.now) commons.now }
{
    commons
        .iter()
        .position(|common| common.name.as_str() == name.as_str())
}

fn common_in(commons: &[Common], place: usize) -> Option<&Common>
    ensures { option_copied result ≡ slice_get commons.now place }
{
    commons.get(place)
}

/// The CTE at a place of those in reach, under a name.
fn common_at(
    alloc: Global,
    alias: &Name,
    names: &[Text],
    place: usize,
    commons: &[Common],
) -> Result<Relations, BindError>
    ensures { Judges (common_by (world_of commons.now) alias.now names.now place (slice_get commons.now place)) result }
{
    match common_in(commons, place) {
        Some(common) => common_relation(alloc, alias, names, place, common),
        None => Err(BindError::Unknown { at: alias.at }),
    }
}

/// The CTE or the table of a name, under another name.
fn named_relation(
    world: &World<'_>,
    name: &Name,
    alias: &Name,
    names: &[Text],
) -> Result<Relations, BindError>
    ensures { Judges (relation_by world.now name.now alias.now names.now (position (λ c. bytes_eq c.name name.now.text) world.now.commons)) result }
{
    match common_place(&name.text, world.commons) {
        Some(place) => common_at(world.alloc, alias, names, place, world.commons),
        None => catalog_relation(world, name, alias, names),
    }
}

/// Whether one more relation may stand in a FROM behind those of these names: there are at most 8. `Err`: 33.
pub fn check_one_more(names: &[Text]) -> Result<(), BindError>
    ensures { Checks (nat_lt (length names.now) 8) (error.Limit limited.Relations 8) result }
{
    if names.len() < 8 {
        Ok(())
    } else {
        Err(BindError::Limit {
            what: Limited::Relations,
            number: 8,
        })
    }
}

/// The CTE or the table of a name, under an alias, behind relations of these names. `Err`: 33 where there are 8 already, 6 where
/// there is no table of the name, 19 where it is local, 5 where the alias is taken, and 24.
pub fn table_relation(
    world: &World<'_>,
    name: &Name,
    alias: &Name,
    names: &[Text],
) -> Result<Relations, BindError>
    ensures { Judges (relation_of world.now name.now alias.now names.now) result }
{
    check_one_more(names)?;
    named_relation(world, name, alias, names)
}

fn subquery_tree(alloc: Global, query: Query) -> Result<FromTree, NoMemory>
    ensures { IfOk result (λ tree. tree ≡ Sub query) }
{
    Ok(FromTree::Sub(Boxed::new(alloc, query)?))
}

/// A subquery under an alias, behind relations of these names. `Err`: 5 where the alias is taken, and 24.
pub fn subquery_relation(
    alloc: Global,
    alias: &Name,
    names: &[Text],
    block: Block,
) -> Result<Relations, BindError>
    ensures { Judges (relation_of_block alias.now names.now block) result }
{
    let columns = output_sources(alloc, &alias.text, block.outputs.as_slice());
    let joined = block.joined;
    let (tree, columns) = both(subquery_tree(alloc, block.query), columns)?;
    under(alloc, alias, names, tree, columns, joined)
}

/// The items of two lists.
fn appended<T: Drop>(a: Items<T>, b: Items<T>) -> Result<Items<T>, NoMemory>
    ensures { IfOk result (λ all. all ≡ a ++ b) }
{
    let mut all = a;
    for item in b.into_vec() {
        all.put(item)?;
    }
    Ok(all)
}

/// The columns of two lists of relations, and their names.
fn reach(a: (Sources, Names), b: (Sources, Names)) -> Result<(Sources, Names), NoMemory>
    ensures { IfOk result (λ p. (p.0 ≡ a.0 ++ b.0) × (p.1 ≡ a.1 ++ b.1)) }
{
    let (columns, names) = a;
    let (more_columns, more_names) = b;
    let columns = appended(columns, more_columns)?;
    let names = appended(names, more_names)?;
    Ok((columns, names))
}

fn boxed_pair(
    alloc: Global,
    a: FromTree,
    b: FromTree,
) -> Result<(Boxed<FromTree>, Boxed<FromTree>), NoMemory>
    ensures { IfOk result (λ p. (p.0 ≡ a) × (p.1 ≡ b)) }
{
    both(Boxed::new(alloc, a), Boxed::new(alloc, b))
}

/// Two lists of relations, whose trees aren't one yet.
#[derive(Drop)]
struct Pair {
    left: Boxed<FromTree>,
    right: Boxed<FromTree>,
    columns: Sources,
    names: Names,
}

fn paired(alloc: Global, a: Relations, b: Relations) -> Result<Pair, NoMemory>
    ensures { IfOk result (λ p. p ≡ pair_of a b) }
{
    let left = a.tree;
    let right = b.tree;
    let trees = boxed_pair(alloc, left, right);
    let reached = reach((a.columns, a.names), (b.columns, b.names));
    let ((left, right), (columns, names)) = both(trees, reached)?;
    Ok(Pair {
        left,
        right,
        columns,
        names,
    })
}

fn product(pair: Pair) -> Relations
    ensures { result ≡ joined_pair Cross pair }
{
    Relations {
        tree: FromTree::Cross(pair.left, pair.right),
        columns: pair.columns,
        names: pair.names,
        joined: true,
    }
}

fn inner(pair: Pair, on: Cond) -> Relations
    ensures { result ≡ joined_pair (λ x y. Inner x y on) pair }
{
    Relations {
        tree: FromTree::Inner(pair.left, pair.right, on),
        columns: pair.columns,
        names: pair.names,
        joined: true,
    }
}

fn left(pair: Pair, on: Cond) -> Relations
    ensures { result ≡ joined_pair (λ x y. Left x y on) pair }
{
    Relations {
        tree: FromTree::Left(pair.left, pair.right, on),
        columns: pair.columns,
        names: pair.names,
        joined: true,
    }
}

/// The product of relations.
pub fn crossed(alloc: Global, a: Relations, b: Relations) -> Result<Relations, BindError>
    ensures { Judges (give (both_of Cross a b)) result }
{
    Ok(product(paired(alloc, a, b)?))
}

/// The inner join of relations on a condition.
pub fn joined_inner(
    alloc: Global,
    a: Relations,
    b: Relations,
    on: Cond,
) -> Result<Relations, BindError>
    ensures { Judges (give (both_of (λ x y. Inner x y on) a b)) result }
{
    let (pair, on) = both(paired(alloc, a, b), Ok(on))?;
    Ok(inner(pair, on))
}

/// The left join of relations on a condition.
pub fn joined_left(
    alloc: Global,
    a: Relations,
    b: Relations,
    on: Cond,
) -> Result<Relations, BindError>
    ensures { Judges (give (both_of (λ x y. Left x y on) a b)) result }
{
    let (pair, on) = both(paired(alloc, a, b), Ok(on))?;
    Ok(left(pair, on))
}

/// No relation at all. Takes no memory.
pub fn no_relations(alloc: Global) -> Relations
    ensures { result ≡ none }
{
    Relations {
        tree: FromTree::Table(0, 0),
        columns: Sources::new(alloc),
        names: Names::new(alloc),
        joined: false,
    }
}

/// These names, and then those of relations.
pub fn all_names(alloc: Global, names: &[Text], a: &Relations) -> Result<Names, NoMemory>
    ensures { IfOk result (λ all. all ≡ names.now ++ a.now.names) }
{
    let mut all = Names::new(alloc);
    for name in names {
        all.put(name.copy(alloc)?)?;
    }
    appended(all, a.names.copy(alloc)?)
}

fn copy_source(alloc: Global, source: &Source) -> Result<Source, NoMemory>
    ensures { IfOk result (λ s. s ≡ source.now) }
{
    let relation = source.relation.copy(alloc)?;
    let name = source.name.copy(alloc)?;
    Ok(Source {
        relation,
        name,
        kind: source.kind,
        width: source.width,
    })
}

fn copy_sources(alloc: Global, sources: &[Source]) -> Result<Sources, NoMemory>
    ensures { IfOk result (λ all. all ≡ sources.now) }
{
    let mut all = Sources::new(alloc);
    for source in sources {
        all.put(copy_source(alloc, source)?)?;
    }
    Ok(all)
}

/// The columns of two lists of relations, which their ON sees.
pub fn reached(alloc: Global, a: &Relations, b: &Relations) -> Result<Sources, NoMemory>
    ensures { IfOk result (λ all. all ≡ a.now.columns ++ b.now.columns) }
{
    let first = copy_sources(alloc, a.columns.as_slice())?;
    appended(first, copy_sources(alloc, b.columns.as_slice())?)
}
