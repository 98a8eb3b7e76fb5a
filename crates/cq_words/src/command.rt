ghost use Rattle.std.specs.Prelude.{◌≡◌, false, IfOk};
ghost use Rattle.clap.specs.Words.{app_of, rule_of};
ghost use Rattle.clap.specs.declared.builder.command.Command.TheViews.{out-Command};
ghost use Rattle.cq_words.specs.Words as spec;

use clap::{Arg, ArgAction, Command};
use std::alloc::{AllocError, Global};

/// `--name`.
fn flag<'a>(alloc: Global, name: &'a str) -> Arg<'a>
    ensures rule { rule_of result ≡ spec.flag name.now }
    ensures local { result.global ≡ false }
{
    Arg::new(alloc, name).long(name).action(ArgAction::SetTrue)
}

/// `--name value` or `--name=value`.
fn option<'a>(alloc: Global, name: &'a str) -> Arg<'a>
    ensures rule { rule_of result ≡ spec.option name.now }
    ensures local { result.global ≡ false }
{
    Arg::new(alloc, name).long(name).action(ArgAction::Set)
}

/// A word that must stand in its place.
fn wanted<'a>(alloc: Global, name: &'a str) -> Arg<'a>
    ensures rule { rule_of result ≡ spec.wanted name.now }
    ensures local { result.global ≡ false }
{
    Arg::new(alloc, name).required(true).action(ArgAction::Set)
}

/// `generate number rows`.
#[tactic(auto, using(crate::proofs::CommandLaws::added))]
fn generate<'a>(alloc: Global) -> Result<Command<'a>, AllocError>
    ensures app { IfOk result (λ c. app_of c ≡ spec.generate) }
    ensures local { IfOk result (λ c. (out-Command c).has_globals ≡ false) }
{
    Command::new(alloc, "generate")
        .disable_help_flag(true)
        .arg(wanted(alloc, "number"))?
        .arg(wanted(alloc, "rows"))
}

/// `chunks rows least greatest`.
#[tactic(auto, using(crate::proofs::CommandLaws::added))]
fn chunks<'a>(alloc: Global) -> Result<Command<'a>, AllocError>
    ensures app { IfOk result (λ c. app_of c ≡ spec.chunks) }
    ensures local { IfOk result (λ c. (out-Command c).has_globals ≡ false) }
{
    Command::new(alloc, "chunks")
        .disable_help_flag(true)
        .arg(wanted(alloc, "rows"))?
        .arg(wanted(alloc, "least"))?
        .arg(wanted(alloc, "greatest"))
}

/// The program's options.
#[tactic(auto, using(crate::proofs::CommandLaws::added))]
fn options<'a>(alloc: Global) -> Result<Command<'a>, AllocError>
    ensures { IfOk result (λ c. app_of c ≡ spec.options) }
{
    Command::new(alloc, "citus_run")
        .no_binary_name(true)
        .disable_help_flag(true)
        .disable_help_subcommand(true)
        .arg(option(alloc, "workers"))?
        .arg(flag(alloc, "repartition"))?
        .arg(flag(alloc, "csv"))?
        .arg(flag(alloc, "stop"))?
        .arg(flag(alloc, "journal"))?
        .arg(flag(alloc, "columnar"))
}

/// The program's command: its options, and then `generate`, `chunks` or nothing.
pub(crate) fn program<'a>(alloc: Global) -> Result<Command<'a>, AllocError>
    ensures { IfOk result (λ c. app_of c ≡ spec.program) }
{
    options(alloc)?
        .subcommand(generate(alloc)?)?
        .subcommand(chunks(alloc)?)
}
