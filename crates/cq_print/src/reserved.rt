ghost use Rattle.std.specs.Prelude.{◌≡◌, bytes_eq};
ghost use Rattle.std.specs.List.{list_any};
ghost use Rattle.cq_print.specs.Cases as cases;

const RESERVED_WORDS: &[&str] = &[
    "all", "and", "as", "asc", "between", "by", "case", "coalesce", "copy", "count", "create",
    "cross", "delete", "desc", "distinct", "else", "end", "explain", "from", "group", "having",
    "in", "inner", "insert", "into", "is", "join", "key", "left", "limit", "max", "min", "not",
    "null", "offset", "on", "or", "order", "outer", "primary", "select", "set", "sum", "table",
    "then", "to", "update", "values", "when", "where", "with",
];

fn is_one_of(words: &[&str], name: &str) -> bool
    ensures { result ≡ list_any (λ word. bytes_eq word.now name.now) words.now }
{
    'words: for word in words {
        if *word == name {
            return true;
        }
    }
    false
}

/// Whether a word is reserved, which no name of a table is.
#[tactic(auto, unfolding(crate::specs::Cases::is_reserved))]
pub(crate) fn is_reserved(name: &str) -> bool
    ensures { result ≡ cases.is_reserved name.now }
{
    is_one_of(RESERVED_WORDS, name)
}
