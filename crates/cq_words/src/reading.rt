ghost use Rattle.std.specs.Prelude.{◌≡◌, ◌≤◌, [], map, option_map, Some, None, IfSome, IfOk, IfErr, MatchResult};
ghost use Rattle.std.specs.List.{list_any};
ghost use Rattle.std.specs.String.{string_bytes};
ghost use Rattle.clap.specs.Words.{fault_of, first_of, found_of, matches_of, rows_of, subcommand_of, subcommand_rows_of};
ghost use Rattle.cq_words.specs.declared.error.WordsError.{WordsError};
ghost use Rattle.cq_words.specs.Words as spec;

use crate::command::program;
use crate::error::WordsError;
use crate::number::number_in;
use crate::settled::Settled;
use clap::ArgMatches;
use std::alloc::Global;

/// The nodes of a run where the words don't say.
const WORKERS: u32 = 2;

/// The most nodes of a run.
const MOST_WORKERS: u32 = 16;

/// The most rows of a generated script, and of rows in chunks.
const MOST_ROWS: u32 = 100_000;

/// The first word of an argument.
fn word_of<'a>(matches: &ArgMatches<'a>, name: &str) -> Option<&'a str>
    ensures { option_map (λ s. s.now) result ≡ first_of name.now (rows_of (found_of matches.now)) }
{
    matches.get_str(name)
}

fn workers_in(matches: &ArgMatches<'_>) -> Option<u32>
    ensures value { result ≡ spec.workers_in (rows_of (found_of matches.now)) }
    ensures range { IfSome result (λ n. (1 ≤ n) × (n ≤ 16)) }
{
    match word_of(matches, "workers") {
        Some(text) => number_in(text, 1, MOST_WORKERS),
        None => Some(WORKERS),
    }
}

fn is_on(matches: &ArgMatches<'_>, name: &str) -> bool
    ensures { result ≡ spec.is_on name.now (rows_of (found_of matches.now)) }
{
    match word_of(matches, name) {
        Some(text) => text == "true",
        None => false,
    }
}

fn number_of(matches: &ArgMatches<'_>, name: &str, least: u32, most: u32) -> Option<u32>
    ensures { result ≡ spec.number_of name.now least most (rows_of (found_of matches.now)) }
{
    number_in(word_of(matches, name)?, least, most)
}

/// The number and the rows of a generated script.
fn generated(matches: &ArgMatches<'_>) -> Option<(u32, u32)>
    ensures { result ≡ spec.generated (rows_of (found_of matches.now)) }
{
    let number = number_of(matches, "number", 0, u32::MAX)?;
    let rows = number_of(matches, "rows", 1, MOST_ROWS)?;
    Some((number, rows))
}

/// How many rows are counted in chunks, and the least and the greatest that counts.
fn counted(matches: &ArgMatches<'_>) -> Option<(u32, u32, u32)>
    ensures { result ≡ spec.counted (rows_of (found_of matches.now)) }
{
    let rows = number_of(matches, "rows", 1, MOST_ROWS)?;
    let least = number_of(matches, "least", 0, u32::MAX)?;
    let greatest = number_of(matches, "greatest", 0, u32::MAX)?;
    Some((rows, least, greatest))
}

/// The matches of a subcommand, where the words have it.
fn matches_under<'m, 'a>(matches: &'m ArgMatches<'a>, name: &str) -> Option<&'m ArgMatches<'a>>
    ensures { option_map (λ m. rows_of (found_of m.now)) result ≡ spec.rows_under name.now (subcommand_rows_of matches.now) }
{
    match matches.subcommand() {
        Some((found, inner)) if found == name => Some(inner),
        _ => None,
    }
}

/// What `generate` asks for, where the words have it.
fn generate_in(matches: &ArgMatches<'_>) -> Option<Option<(u32, u32)>>
    ensures { result ≡ spec.generate_in (subcommand_rows_of matches.now) }
{
    match matches_under(matches, "generate") {
        Some(inner) => Some(Some(generated(inner)?)),
        None => Some(None),
    }
}

/// What `chunks` asks for, where the words have it.
fn chunks_in(matches: &ArgMatches<'_>) -> Option<Option<(u32, u32, u32)>>
    ensures { result ≡ spec.chunks_in (subcommand_rows_of matches.now) }
{
    match matches_under(matches, "chunks") {
        Some(inner) => Some(Some(counted(inner)?)),
        None => Some(None),
    }
}

/// What clap's matches settle.
fn settled_by(matches: &ArgMatches<'_>) -> Option<Settled>
    ensures value { result ≡ spec.settled_by (rows_of (found_of matches.now)) (subcommand_rows_of matches.now) }
    ensures workers { IfSome result (λ s. (1 ≤ s.workers) × (s.workers ≤ 16)) }
{
    Some(Settled {
        workers: workers_in(matches)?,
        repartition: is_on(matches, "repartition"),
        csv: is_on(matches, "csv"),
        stop: is_on(matches, "stop"),
        journal: is_on(matches, "journal"),
        columnar: is_on(matches, "columnar"),
        generate: generate_in(matches)?,
        chunks: chunks_in(matches)?,
    })
}

/// What clap reads in the words.
fn parse<'a>(alloc: Global, words: &'a [String]) -> Result<ArgMatches<'a>, WordsError>
    ensures ok { IfOk result (λ m. fault_of spec.program (map string_bytes words.entry.now) ≡ []) }
    ensures rows { IfOk result (λ m. rows_of (found_of m) ≡ matches_of spec.program (map string_bytes words.entry.now)) }
    ensures subcommand { IfOk result (λ m. subcommand_rows_of m ≡ subcommand_of spec.program (map string_bytes words.entry.now)) }
    ensures usage { IfErr result (λ e. e ≡ WordsError.Usage → spec.IsRefused (fault_of spec.program (map string_bytes words.entry.now))) }
{
    Ok(program(alloc)?.try_get_matches_from(words)?)
}

fn has_dashes(words: &[String]) -> bool
    ensures { result ≡ list_any (λ w. spec.is_dashes (string_bytes w)) words.now }
{
    words.iter().any(|word| word.as_str() == "--")
}

/// What the words of the command line settle: options, each at most once and in any order, and then `generate` with its two
/// numbers, `chunks` with its three, or nothing more.
///
/// Errors: `Usage` exactly where the words are others; want of memory.
#[tactic(auto, using(crate::proofs::WordLaws::settled_taken, crate::proofs::WordLaws::settled_refused, crate::proofs::WordLaws::settled_dashes))]
pub fn read_words(alloc: Global, words: &[String]) -> Result<Settled, WordsError>
    ensures workers { IfOk result (λ s. (1 ≤ s.workers) × (s.workers ≤ 16)) }
    ensures settled { MatchResult result (λ s. spec.settled (map string_bytes words.now) ≡ Some s) (λ e. e ≡ WordsError.Usage → spec.settled (map string_bytes words.now) ≡ None) }
{
    if has_dashes(words) {
        return Err(WordsError::Usage);
    }
    let matches = parse(alloc, words)?;
    match settled_by(&matches) {
        Some(settled) => Ok(settled),
        None => Err(WordsError::Usage),
    }
}
