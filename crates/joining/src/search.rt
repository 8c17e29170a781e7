// The search for a mark through containers and their statements.
ghost use Rattle.std.specs.Prelude.{◌≡◌};
ghost use Rattle.joining.specs.Tables.{searched};

use crate::table;
use tree::bytes;

// The list of a container and the statement in it.
#[derive(Clone, Copy)]
pub(crate) struct Place {
    pub list: usize,
    pub statement: usize,
}

// The statements of containers, as the tour of the tree files them: before each list the one before it, of each its last statement,
// before each statement the one before it; and the last of the lists. 0 stands for none, in 16 bits like a position.
#[derive(Clone, Copy)]
pub(crate) struct Filed<'a> {
    pub earlier: &'a [u16],
    pub holds: &'a [u16],
    pub before: &'a [u16],
    pub latest: usize,
}

impl<'a> Filed<'a> {
    // From the last container back to the first, and in each from its last statement on back: the statement that has the mark.
    pub(crate) fn search(&self, tree: &[u8], mark: usize) -> Option<Place>
        ensures { result ≡ searched tree.now self.now.earlier.now self.now.holds.now self.now.before.now mark self.now.latest }
    {
        let mut list = self.latest;
        // Along chains of positions, which fall: nothing is counted.
        'containers: while 0 < list {
            let mut statement = table::at(self.holds, list);
            while 0 < statement {
                if bytes::wide_at(tree, statement + 2) == mark {
                    return Some(Place { list, statement });
                }
                statement = table::back(self.before, statement);
            }
            list = table::back(self.earlier, list);
        }
        None
    }
}
