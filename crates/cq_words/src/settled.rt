/// What the words of the command line settle.
#[derive(Clone, Copy, Debug, PartialEq, Eq)]
pub struct Settled {
    /// How many nodes the run has, from 1 to 16: 2 where the words don't say.
    pub workers: u32,
    /// Repartition joins are on at the start.
    pub repartition: bool,
    /// Tables are written in CSV.
    pub csv: bool,
    /// The run stops at the first phase with a failed statement.
    pub stop: bool,
    /// The journals are written at the end.
    pub journal: bool,
    /// Rows lie in chunks by columns.
    pub columnar: bool,
    /// The number and the rows of a script that is generated in place of the input.
    pub generate: Option<(u32, u32)>,
    /// Of rows in chunks that are counted in place of a script: how many there are, and the least and the greatest that counts.
    pub chunks: Option<(u32, u32, u32)>,
}
