//! The laws on the meaning of queries and writes, each as the contract of a function that does nothing.
#![tactic(auto)]

ghost use Rattle.cq_meaning_laws.specs.OrderRules.{StableSortAnswers, SameRows, KeysOrder, OrderFree};
ghost use Rattle.cq_meaning_laws.specs.WidthRules.{ExpressionsFit, ConditionsFit, QueriesFit, OutputsFit, WritesFit};
ghost use Rattle.cq_meaning_laws.specs.WholeRules.{ResultsInSteps, StatementsFit};

/// What the widths of the binder make sure of: no expression, query, write or whole statement overflows 128 bits, and values are
/// within their widths. Does nothing.
pub fn width_laws()
    ensures expressions { ExpressionsFit }
    ensures conditions { ConditionsFit }
    ensures queries { QueriesFit }
    ensures outputs { OutputsFit }
    ensures writes { WritesFit }
    ensures results { ResultsInSteps }
    ensures statements { StatementsFit }
{}

/// What ORDER BY leaves open, and what it doesn't. Does nothing.
pub fn order_laws()
    ensures stable { StableSortAnswers }
    ensures same { SameRows }
    ensures keys { KeysOrder }
    ensures order_free { OrderFree }
{}
