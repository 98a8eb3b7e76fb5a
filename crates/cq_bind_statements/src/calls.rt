ghost use Rattle.std.specs.Prelude.{◌≡◌, None, false, IfOk};
ghost use Rattle.cq_value.specs.declared.schema.With.TheVariants as with;
ghost use Rattle.cq_reading.specs.Outcomes.{Judges};
ghost use Rattle.cq_reading.specs.Steps.{give, ◌then◌};
ghost use Rattle.cq_tree.specs.declared.statement.Statement.TheVariants.{Rebalance, RebalancePlan};
ghost use Rattle.cq_bind_statements.specs.Options.{with_count as with_count_in};
ghost use Rattle.cq_reading.specs.Statements.{text_of as text_in, number_in as number_of_literal, place_of_literal as place_in, argument_at as argument_in, with_of as with_in, with_argument as with_argument_in, with_arguments as with_arguments_in, no_option as no_option_in, distribution_option as distribution_option_in, distribution as distribution_in, reference as reference_in, small_number as small_number_in, moving as moving_in, strategy_of as strategy_in, rebalance_option as rebalance_option_in, call as call_in};

use cq_grammar::{Argument, Literal, Name};
use cq_reading::{BindError, Options};
use cq_tree::Statement;
use cq_value::{Items, NoMemory, Text, With};
use std::alloc::Global;

fn text_of(alloc: Global, value: &Literal) -> Result<Text, NoMemory>
    ensures { IfOk result (λ t. t ≡ text_in value.now) }
{
    match value {
        Literal::Quoted { text, .. } => text.copy(alloc),
        Literal::Number { .. } => Text::of_str(alloc, ""),
    }
}

fn number_in(value: &Literal) -> u64
    ensures { result ≡ number_of_literal value.now }
{
    match value {
        Literal::Quoted { .. } => 0,
        Literal::Number { value, .. } => *value,
    }
}

fn place_of(value: &Literal) -> u64
    ensures { result ≡ place_in value.now }
{
    match value {
        Literal::Quoted { at, .. } | Literal::Number { at, .. } => *at,
    }
}

/// The text of the argument at a place.
fn text_at(alloc: Global, arguments: &Items<Argument>, i: u64) -> Result<Text, NoMemory>
    ensures { IfOk result (λ t. t ≡ text_in (argument_in arguments.now i)) }
{
    match arguments.get(i) {
        Some(argument) => text_of(alloc, &argument.value),
        None => Text::of_str(alloc, ""),
    }
}

/// The number of the argument at a place.
fn number_at(arguments: &Items<Argument>, i: u64) -> u64
    ensures { result ≡ number_of_literal (argument_in arguments.now i) }
{
    match arguments.get(i) {
        Some(argument) => number_in(&argument.value),
        None => 0,
    }
}

/// A number of 32 bits. `Err`: 10.
fn small_number(arguments: &Items<Argument>, i: u64) -> Result<u32, BindError>
    ensures { Judges (small_number_in (argument_in arguments.now i)) result }
{
    let number = number_at(arguments, i);
    match u32::try_from(number) {
        Ok(small) => Ok(small),
        Err(_) => Err(BindError::OutOfRange {
            value: i128::from(number),
            least: 0,
            greatest: 4294967295,
        }),
    }
}

/// What an argument says to a call that knows no name: nothing. `Err`: 12 at its name.
fn without_name(argument: &Argument) -> Result<(), BindError>
    ensures { Judges (with_argument_in no_option_in tt argument.now) result }
{
    match &argument.name {
        Some(unknown) => Err(BindError::Unknown { at: unknown.at }),
        None => Ok(()),
    }
}

/// Checks the arguments of a call that knows no name. `Err`: 12 at the first name.
fn check_unnamed(arguments: &[Argument]) -> Result<(), BindError>
    ensures { Judges (with_arguments_in no_option_in arguments.now tt) result }
{
    for argument in arguments {
        without_name(argument)?;
    }
    Ok(())
}

fn moving(arguments: &Items<Argument>) -> Result<Statement, BindError>
    ensures { Judges (moving_in arguments.now) result }
{
    let from = small_number(arguments, 1)?;
    let to = small_number(arguments, 2)?;
    check_unnamed(arguments.as_slice())?;
    Ok(Statement::Move {
        shard: number_at(arguments, 0),
        from,
        to,
    })
}

fn with_of(alloc: Global, value: &Literal) -> Result<With, NoMemory>
    ensures { IfOk result (λ w. w ≡ with_in (text_in value.now)) }
{
    let text = text_of(alloc, value)?;
    Ok(if text.as_str() == "none" {
        With::Alone
    } else if text.as_str() == "default" {
        With::Default
    } else {
        With::Table(text)
    })
}

/// The number of shards that an option gives. `Err`: 10 where it has more than 32 bits.
fn with_count(options: Options, value: &Literal) -> Result<Options, BindError>
    ensures { Judges (with_count_in options value.now) result }
{
    let number = number_in(value);
    match u32::try_from(number) {
        Ok(count) => Ok(Options {
            count: Some(count),
            with: options.with,
        }),
        Err(_) => Err(BindError::OutOfRange {
            value: i128::from(number),
            least: 1,
            greatest: 128,
        }),
    }
}

fn with_colocation(alloc: Global, options: Options, value: &Literal) -> Result<Options, NoMemory>
    ensures { IfOk result (λ o. o ≡ record { count = options.count; with = with_in (text_in value.now) }) }
{
    let with = with_of(alloc, value)?;
    Ok(Options {
        count: options.count,
        with,
    })
}

/// One more option. `Err`: 12 where there is none of the name, 10 and 24.
fn with_option(
    alloc: Global,
    options: Options,
    name: &Name,
    value: &Literal,
) -> Result<Options, BindError>
    ensures { Judges (distribution_option_in options name.now value.now) result }
{
    if name.text.as_str() == "shard_count" {
        with_count(options, value)
    } else if name.text.as_str() == "colocate_with" {
        Ok(with_colocation(alloc, options, value)?)
    } else {
        Err(BindError::Unknown { at: name.at })
    }
}

fn with_argument(alloc: Global, options: Options, argument: &Argument) -> Result<Options, BindError>
    ensures { Judges (with_argument_in distribution_option_in options argument.now) result }
{
    match &argument.name {
        Some(name) => with_option(alloc, options, name, &argument.value),
        None => Ok(options),
    }
}

fn options_of(alloc: Global, arguments: &[Argument]) -> Result<Options, BindError>
    ensures { Judges (with_arguments_in distribution_option_in arguments.now (record { count = None; with = with.Default })) result }
{
    let mut options = Options {
        count: None,
        with: With::Default,
    };
    for argument in arguments {
        options = with_argument(alloc, options, argument)?;
    }
    Ok(options)
}

fn distribution(alloc: Global, arguments: &Items<Argument>) -> Result<Statement, BindError>
    ensures { Judges (distribution_in arguments.now) result }
{
    let options = options_of(alloc, arguments.as_slice())?;
    let table = text_at(alloc, arguments, 0)?;
    let column = text_at(alloc, arguments, 1)?;
    Ok(Statement::Distribute {
        table,
        column,
        count: options.count,
        with: options.with,
    })
}

fn reference(alloc: Global, arguments: &Items<Argument>) -> Result<Statement, BindError>
    ensures { Judges (reference_in arguments.now) result }
{
    check_unnamed(arguments.as_slice())?;
    Ok(Statement::Reference {
        table: text_at(alloc, arguments, 0)?,
    })
}

/// Whether a strategy goes by the size of rows. `Err`: 12 where there is no such strategy.
fn strategy_of(value: &Literal) -> Result<bool, BindError>
    ensures { Judges (strategy_in value.now) result }
{
    match value {
        Literal::Quoted { text, .. } if text.as_str() == "by_disk_size" => Ok(true),
        Literal::Quoted { text, .. } if text.as_str() == "by_shard_count" => Ok(false),
        _ => Err(BindError::Unknown {
            at: place_of(value),
        }),
    }
}

/// Whether moves go by the size of rows, behind this argument. `Err`: 12 where there is no option or strategy of the name.
fn with_strategy(by_size: bool, argument: &Argument) -> Result<bool, BindError>
    ensures { Judges (with_argument_in rebalance_option_in by_size argument.now) result }
{
    match &argument.name {
        Some(name) if name.text.as_str() == "rebalance_strategy" => strategy_of(&argument.value),
        Some(name) => Err(BindError::Unknown { at: name.at }),
        None => Ok(by_size),
    }
}

fn by_size(arguments: &[Argument]) -> Result<bool, BindError>
    ensures { Judges (with_arguments_in rebalance_option_in arguments.now false) result }
{
    let mut by_size = false;
    for argument in arguments {
        by_size = with_strategy(by_size, argument)?;
    }
    Ok(by_size)
}

fn rebalance(arguments: &Items<Argument>) -> Result<Statement, BindError>
    ensures { Judges (with_arguments_in rebalance_option_in arguments.now false then (λ b. give (Rebalance b))) result }
{
    let by_size = by_size(arguments.as_slice())?;
    Ok(Statement::Rebalance { by_size })
}

fn rebalance_plan(arguments: &Items<Argument>) -> Result<Statement, BindError>
    ensures { Judges (with_arguments_in rebalance_option_in arguments.now false then (λ b. give (RebalancePlan b))) result }
{
    let by_size = by_size(arguments.as_slice())?;
    Ok(Statement::RebalancePlan { by_size })
}

/// A call of a function. `Err`: 12 at the first name that it doesn't know, or where there is no such strategy, 10 where a number is out
/// of its range, and 24.
pub fn call(
    alloc: Global,
    function: &Name,
    arguments: &Items<Argument>,
) -> Result<Statement, BindError>
    ensures { Judges (call_in function.now arguments.now) result }
{
    if function.text.as_str() == "create_distributed_table" {
        distribution(alloc, arguments)
    } else if function.text.as_str() == "create_reference_table" {
        reference(alloc, arguments)
    } else if function.text.as_str() == "citus_move_shard_placement" {
        moving(arguments)
    } else if function.text.as_str() == "rebalance_table_shards" {
        rebalance(arguments)
    } else {
        rebalance_plan(arguments)
    }
}
