ghost use Rattle.std.specs.Prelude.{◌≡◌, Option};
ghost use Rattle.cq_tree.specs.declared.journal.Who.{Who};
ghost use Rattle.cq_journal.specs.Stations as stations;
ghost use Rattle.cq_journal.specs.Stations.{moved};
ghost use Rattle.cq_journal_text.specs.Texts.{record_of};

use cq_journal::Journal;
use cq_tree::EntryKind;

/// Where a group is as its entries pass: its node, and the node to which it was last on its way.
#[derive(Clone, Copy)]
struct Station {
    node: u32,
    target: u32,
}

impl Station {
    /// After one more entry.
    fn pass(&mut self, kind: &EntryKind)
        ensures node { (who : Who) (moving : Option Who) → (moved (record { node = self.old.node; moving = moving; target = self.old.target }) who kind.now).node ≡ self.new.node }
        ensures target { (who : Who) (moving : Option Who) → (moved (record { node = self.old.node; moving = moving; target = self.old.target }) who kind.now).target ≡ self.new.target }
    {
        match kind {
            EntryKind::MoveStart(to) => self.target = *to,
            EntryKind::Cutover => self.node = self.target,
            EntryKind::Read | EntryKind::Write(..) | EntryKind::CatchUp | EntryKind::MoveStop => {}
        }
    }
}

/// The node of a group after its entries: that to which it was last cut over, or that on which it was opened.
pub(crate) fn node_of(journal: &Journal) -> u32
    ensures { result ≡ stations.node_of (record_of journal.now) }
{
    let mut station = Station {
        node: journal.opening,
        target: journal.opening,
    };
    for entry in journal.entries.as_slice() {
        station.pass(&entry.kind);
    }
    station.node
}
