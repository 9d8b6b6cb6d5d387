// The tree of activities over slices, one number for each activity: the walk up the parents.
#![tactic(auto)]

ghost use Rattle.std.specs.Prelude.{◌≡◌, ◌<◌, length};
ghost use Rattle.model.specs.Tree.{steps_made};
ghost use Rattle.tree.specs.Figures.{parents_of};

pub mod table;

// The walk to the top, of at most `limit` steps, so that a circle ends: the steps made.
pub fn walk_up(parents: &[u64], from: usize, limit: u64) -> u64
    requires { from < length parents.now }
    ensures { result ≡ steps_made (parents_of parents.now) limit from }
{
    let count = parents.len() as u64;
    let mut at = parents[from];
    let mut made: u64 = 0;
    let steps = loop {
        if limit <= made {
            break made;
        }
        if count <= at {
            break made;
        }
        at = parents[at as usize];
        made += 1;
    };
    steps
}
