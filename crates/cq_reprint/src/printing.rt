ghost use Rattle.std.specs.Prelude.{◌≡◌, ◌≢◌, ◌↔◌, Ok, Err, IfOk, IsTrue};
ghost use Rattle.cq_answer.specs.declared.fault.Fault.TheVariants.{Memory};
ghost use Rattle.cq_statement.specs.Reading.{reading_of};
ghost use Rattle.cq_statement.specs.Meanings.{IsTree};

use crate::error::PrintError;
use crate::statements::same_statement;
use cq_answer::Fault;
use cq_bind_print::canonical;
use cq_catalog::Catalog;
use cq_statement::read_statement;
use cq_tree::Statement;
use cq_value::{NoMemory, Text};
use std::alloc::Global;

/// Whether a reading is this statement, unless memory failed in it.
fn is_statement(read: Result<Statement, Fault>, statement: &Statement) -> Result<bool, NoMemory>
    ensures ok { IfOk result (λ again. IsTrue again ↔ (read ≡ Ok statement.now)) }
    ensures named { IfOk result (λ again. read ≢ Err Memory) }
{
    match read {
        Ok(again) => Ok(same_statement(&again, statement)),
        Err(Fault::Memory) => Err(NoMemory),
        Err(_) => Ok(false),
    }
}

/// Whether a text is read as this statement over the catalogue.
fn is_read_as(
    alloc: Global,
    text: &[u8],
    statement: &Statement,
    catalog: &Catalog,
) -> Result<bool, NoMemory>
    ensures again { IfOk result (λ again. IsTrue again ↔ (reading_of text.now catalog.now.tables ≡ Ok statement.now)) }
    ensures spells { IfOk result (λ again. IsTrue again → IsTree text.now catalog.now.tables (Ok statement.now)) }
{
    is_statement(read_statement(alloc, text, catalog), statement)
}

/// The canonical text of a bound statement over the catalogue, where that text is read again as the statement.
///
/// Errors: `NotReadAgain`, where the text is refused over the catalogue, or is read as another statement; and want of memory.
pub fn print(alloc: Global, statement: &Statement, catalog: &Catalog) -> Result<Text, PrintError>
    // What the definition reads of the text is the statement, without a fault.
    ensures again { IfOk result (λ t. reading_of t catalog.now.tables ≡ Ok statement.now) }
    // The same by the grammar alone: the text's tokens spell a tree that stands for the statement.
    ensures spells { IfOk result (λ t. IsTree t catalog.now.tables (Ok statement.now)) }
{
    let text = canonical(alloc, statement, catalog)?;
    if is_read_as(alloc, text.as_str().as_bytes(), statement, catalog)? {
        Ok(text)
    } else {
        Err(PrintError::NotReadAgain)
    }
}
