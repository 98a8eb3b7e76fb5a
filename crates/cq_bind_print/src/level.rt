/// How tightly a rule of the grammar binds: a condition is of one of the first three, an expression of one of the others.
#[derive(Clone, Copy, PartialEq, Eq, PartialOrd, Ord)]
pub(crate) enum Level {
    /// A chain of OR.
    Or,
    /// A chain of AND.
    And,
    /// NOT, or a test.
    Not,
    /// A chain of `+` and `-`.
    Sum,
    /// A chain of `*`, `/` and `%`.
    Term,
    /// A sign, or what stands alone.
    Unary,
    /// Digits alone, which have a meaning of their own behind a sign and as a key.
    Number,
}
