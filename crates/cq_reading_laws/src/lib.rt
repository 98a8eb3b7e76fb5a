//! The laws on what the binder reads of a syntax tree and of a text: it is what the engine asks for, within its widths, and well typed; and the trees that
//! texts spell are as these laws want them. Each law is the contract of a function that does nothing.
#![tactic(auto)]

ghost use Rattle.cq_reading_laws.specs.ExpressionLaws.{ResultsGrow, ExpressionsBound, GroupedBound};
ghost use Rattle.cq_reading_laws.specs.SelectLaws.{SelectsBound, GroupsAlone};
ghost use Rattle.cq_reading_laws.specs.QueryLaws.{QueriesBound};
ghost use Rattle.cq_reading_laws.specs.StepLaws.{StatementsBound, WidthsAreThere};
ghost use Rattle.cq_reading_laws.specs.WriteLaws.{UpdatesBound, DeletionsBound};
ghost use Rattle.cq_reading_laws.specs.TypingLaws.{ExpressionsTyped, GroupedTyped, SelectsTyped, QueriesTyped, ResultsThere, ResultsNumbered, UpdatesTyped, DeletionsTyped};
ghost use Rattle.cq_reading_laws.specs.WrittenLaws.{TextsAreWritten};
ghost use Rattle.cq_reading_laws.specs.TextLaws.{
  TextWritesBound,
  TextQueriesBound,
  TextsExplainedBound,
  TextStatementsBound,
  TextsExplainedWhole,
};
ghost use Rattle.cq_reading_laws.specs.TextTypingLaws.{TextQueriesTyped, TextsExplainedTyped, TextWritesTyped};

/// What the walk makes sure of at an expression of a tree as the grammar gives it: results are only added, and what it lets
/// through is what the engine asks for, within its width, without grouping and over a group's keys and aggregates. Does nothing.
pub fn expression_laws()
    ensures results { ResultsGrow }
    ensures expressions { ExpressionsBound }
    ensures grouped { GroupedBound }
{}

/// What the walk makes sure of at a SELECT of such a tree: its query is what the engine asks for, and its outputs keep within
/// their widths; and so are the query of a whole statement and its CTEs. One that groups reads one relation. Does nothing.
pub fn select_laws()
    ensures selects { SelectsBound }
    ensures queries { QueriesBound }
    ensures alone { GroupsAlone }
{}

/// What the walk makes sure of at a whole statement of such trees: its query, its CTEs and its IN subqueries have their numbers in
/// the order in which they are computed, each is what the engine asks for where their results have the widths of its outputs, and
/// there are such widths. Does nothing.
pub fn step_laws()
    ensures statements { StatementsBound }
    ensures widths { WidthsAreThere }
{}

/// What the walk makes sure of at UPDATE and DELETE: they are what the engine asks for. Does nothing.
pub fn write_laws()
    ensures updates { UpdatesBound }
    ensures deletions { DeletionsBound }
{}

/// What the walk lets through is well typed: expressions, without grouping and over a group's keys and aggregates, SELECTs with
/// the IN subqueries in them, the query of a whole statement with its CTEs, UPDATE and DELETE. The types of results that a query
/// asks for are there, and their numbers are those by which IN subqueries are computed. Does nothing.
pub fn typing_laws()
    ensures expressions { ExpressionsTyped }
    ensures grouped { GroupedTyped }
    ensures selects { SelectsTyped }
    ensures queries { QueriesTyped }
    ensures results { ResultsThere }
    ensures numbers { ResultsNumbered }
    ensures updates { UpdatesTyped }
    ensures deletions { DeletionsTyped }
{}

/// The trees that a text's tokens spell are written: each number in them is below 2^64, each COALESCE has an operand, and each
/// FROM a relation. It is the condition of the laws on widths. Does nothing.
pub fn written_laws()
    ensures texts { TextsAreWritten }
{}

/// What a text is read as is what the engine asks for, over tables of its columns' types: each write, and each query with its
/// CTEs, once its results are there and those of the CTEs have their bits. There are widths of its results over which each query
/// is so with its CTEs and all its IN subqueries. Does nothing.
pub fn text_laws()
    ensures writes { TextWritesBound }
    ensures queries { TextQueriesBound }
    ensures explained { TextsExplainedBound }
    ensures statements { TextStatementsBound }
    ensures explained_whole { TextsExplainedWhole }
{}

/// What a text is read as is well typed, over tables of its columns' types: each query and each of its CTEs, over types of results
/// that are those of the outputs of CTEs and IN subqueries; and each UPDATE and DELETE. Does nothing.
pub fn text_typing_laws()
    ensures queries { TextQueriesTyped }
    ensures explained { TextsExplainedTyped }
    ensures writes { TextWritesTyped }
{}
