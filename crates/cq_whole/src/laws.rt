ghost use Rattle.cq_whole.specs.Laws.{TablesSuffice};

/// What a whole statement depends on: the rows of the tables that it reads. Does nothing.
pub fn table_laws()
    ensures tables { TablesSuffice }
{}
