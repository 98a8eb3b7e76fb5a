ghost use Rattle.std.specs.Prelude.{◌≡◌};
ghost use Rattle.cq_copy.specs.Texts as spec;

/// How data are written.
#[derive(Clone, Copy, Debug, PartialEq, Eq)]
pub enum Format {
    /// A line for each row, with tabs between the fields and backslashes in them.
    Text,
    /// A record for each row.
    Csv,
}

/// The byte between two fields.
pub(crate) fn separator(format: Format) -> u8
    ensures { result ≡ spec.separator format }
{
    match format {
        Format::Text => b'\t',
        Format::Csv => b',',
    }
}
