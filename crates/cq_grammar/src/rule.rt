/// The rules of expressions that may stand deeper inside an expression.
#[derive(Clone, Copy, Debug, PartialEq, Eq)]
pub enum Rule {
    /// A chain of OR: the whole expression.
    Or,
    /// A chain of AND.
    And,
    /// A condition, or NOT before one.
    Not,
    /// A chain of `*`, `/` and `%`.
    Term,
    /// A sign, or what stands without one.
    Unary,
}
