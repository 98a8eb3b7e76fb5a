ghost use Rattle.std.specs.Prelude.{◌≡◌, ◌++◌, OnOk};
ghost use Rattle.cq_answer.specs.declared.fault.Fault.TheVariants as faults;
ghost use Rattle.cq_script.specs.Texts.{what_text, unsupported_text, fault_text};

use crate::words::{push_name, push_signed, push_with, push_words};
use cq_answer::{Fault, Unsupported, What};
use cq_tree::{StoreFailure, Who};
use std::alloc::AllocError;

#[tactic(auto, unfolding(crate::specs::Texts::what_text))]
fn name_of(what: What) -> &'static [u8]
    ensures { result.now ≡ what_text what }
{
    match what {
        What::Depth => b"depth",
        What::Relations => b"relations",
        What::Blocks => b"blocks",
        What::Columns => b"columns",
        What::Outputs => b"outputs",
        What::Keys => b"keys",
        What::Tables => b"tables",
        What::Groups => b"groups",
        What::Rows => b"rows",
        What::Ids => b"ids",
    }
}

fn push_range(
    out: &mut Vec<u8>,
    value: &i128,
    least: &i128,
    greatest: &i128,
) -> Result<(), AllocError>
    ensures { OnOk result (out.new.items ≡ out.old.items ++ fault_text (faults.OutOfRange value.now least.now greatest.now)) }
{
    push_signed(out, b"10 out of range: ", value)?;
    push_signed(out, b" not in ", least)?;
    push_signed(out, b" to ", greatest)
}

fn push_room(out: &mut Vec<u8>, node: u32, free: u64, needed: u64) -> Result<(), AllocError>
    ensures { OnOk result (out.new.items ≡ out.old.items ++ fault_text (faults.NoRoom node free needed)) }
{
    push_with(out, b"26 no room on node ", u64::from(node))?;
    push_with(out, b": ", free)?;
    push_with(out, b" free, ", needed)?;
    push_words(out, b" needed")
}

fn push_failure(out: &mut Vec<u8>, failure: StoreFailure) -> Result<(), AllocError>
    ensures { OnOk result (out.new.items ≡ out.old.items ++ fault_text (faults.Worker failure)) }
{
    push_with(out, b"20 worker ", u64::from(failure.node))?;
    push_with(out, b" shard ", failure.shard)?;
    push_with(out, b" faults ", failure.before)?;
    push_with(out, b" to ", failure.after)
}

fn push_mover(out: &mut Vec<u8>, by: Who) -> Result<(), AllocError>
    ensures { OnOk result (out.new.items ≡ out.old.items ++ fault_text (faults.Moving by)) }
{
    push_with(out, b"21 moving by ", u64::from(by.session))?;
    push_with(out, b".", by.statement)
}

fn push_limit(out: &mut Vec<u8>, what: What, number: u64) -> Result<(), AllocError>
    ensures { OnOk result (out.new.items ≡ out.old.items ++ fault_text (faults.Limit what number)) }
{
    push_words(out, b"33 limit ")?;
    push_words(out, name_of(what))?;
    push_with(out, b" ", number)
}

fn push_columns(out: &mut Vec<u8>, row: u64, found: u64) -> Result<(), AllocError>
    ensures { OnOk result (out.new.items ≡ out.old.items ++ fault_text (faults.Columns row found)) }
{
    push_with(out, b"27 columns in row ", row)?;
    push_with(out, b": ", found)
}

fn push_place(out: &mut Vec<u8>, row: u64, column: u32) -> Result<(), AllocError>
    ensures { OnOk result (out.new.items ≡ out.old.items ++ fault_text (faults.Value row column)) }
{
    push_with(out, b"28 value in row ", row)?;
    push_with(out, b" column ", u64::from(column))
}

#[tactic(auto, unfolding(crate::specs::Texts::unsupported_text))]
fn push_unsupported(out: &mut Vec<u8>, why: Unsupported) -> Result<(), AllocError>
    ensures { OnOk result (out.new.items ≡ out.old.items ++ unsupported_text why) }
{
    match why {
        Unsupported::NeedsRepartition => push_words(out, b"U1 join needs repartition"),
        Unsupported::NoEquality => { push_words(out, b"U2 no equality between distributed tables") }
        Unsupported::OuterJoin => push_words(out, b"U3 outer join is not co-located"),
        Unsupported::LimitWithoutOrder => push_words(out, b"U4 limit without full order"),
        Unsupported::DistributionColumn => {
            push_words(out, b"U5 distribution column can't change")
        }
        Unsupported::NoDistributionValue { row } => {
            push_with(out, b"U6 no distribution value in row ", row)
        }
    }
}

/// Puts the text of a fault, without the word before it and without the line's end, last.
pub(crate) fn push_fault(out: &mut Vec<u8>, fault: &Fault) -> Result<(), AllocError>
    ensures { OnOk result (out.new.items ≡ out.old.items ++ fault_text fault.now) }
{
    match fault {
        Fault::OpenQuote { at } => push_with(out, b"1 open quote at ", *at),
        Fault::BadCharacter { at } => push_with(out, b"2 bad character at ", *at),
        Fault::NumberTooLarge { at } => push_with(out, b"3 number too large at ", *at),
        Fault::Syntax { at } => push_with(out, b"4 syntax at ", *at),
        Fault::NameTaken { name } => push_name(out, b"5 name taken: ", name),
        Fault::UnknownTable { name } => push_name(out, b"6 no such table: ", name),
        Fault::UnknownColumn { name } => push_name(out, b"7 no such column: ", name),
        Fault::AlreadyDistributed { name } => push_name(out, b"8 already distributed: ", name),
        Fault::KeyLacksColumn { name } => {
            push_name(out, b"9 primary key lacks the distribution column: ", name)
        }
        Fault::OutOfRange {
            value,
            least,
            greatest,
        } => push_range(out, value, least, greatest),
        Fault::ColocationDiffers => push_words(out, b"11 co-location differs"),
        Fault::Unknown { at } => push_with(out, b"12 unknown name at ", *at),
        Fault::Ambiguous { at } => push_with(out, b"13 ambiguous name at ", *at),
        Fault::Type { at } => push_with(out, b"14 type at ", *at),
        Fault::NotGrouped { at } => push_with(out, b"15 not grouped at ", *at),
        Fault::TooWide { at } => push_with(out, b"16 too wide at ", *at),
        Fault::WrongCount { at } => push_with(out, b"17 wrong count of values at ", *at),
        Fault::Divisor { at } => push_with(out, b"18 divisor at ", *at),
        Fault::KeyColumn { at } => push_with(out, b"19 key column at ", *at),
        Fault::Subquery { at } => push_with(out, b"19 subquery at ", *at),
        Fault::LocalTable { at } => push_with(out, b"19 local table at ", *at),
        Fault::GroupedJoin { at } => push_with(out, b"19 grouped join at ", *at),
        Fault::Worker(failure) | Fault::Retired(failure) => push_failure(out, *failure),
        Fault::Moving { by } => push_mover(out, *by),
        Fault::SameNode { node } => push_with(out, b"22 same node ", u64::from(*node)),
        Fault::NotThere { node } => push_with(out, b"23 not there, on node ", u64::from(*node)),
        Fault::Memory => push_words(out, b"24 out of memory"),
        Fault::NoShard { shard } => push_with(out, b"25 no shard ", *shard),
        Fault::NoRoom { node, free, needed } => push_room(out, *node, *free, *needed),
        Fault::Columns { row, found } => push_columns(out, *row, *found),
        Fault::Value { row, column } => push_place(out, *row, *column),
        Fault::Encoding { row } => push_with(out, b"29 encoding in row ", *row),
        Fault::Duplicate => push_words(out, b"30 duplicate key"),
        Fault::ValueOutOfRange => push_words(out, b"31 value out of range"),
        Fault::NotInBlock => push_words(out, b"32 not in a block"),
        Fault::Limit { what, number } => push_limit(out, *what, *number),
        Fault::NoNode { node } => push_with(out, b"34 no node ", u64::from(*node)),
        Fault::Unsupported(why) => push_unsupported(out, *why),
    }
}
