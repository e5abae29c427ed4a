// What the agent sees of the log, by its own list in the index. The observers are not lent here.
ghost use Rattle.std.specs.Prelude.{◌≡◌, true, List, ℕ, ◌+◌, ◌<◌, length};
ghost use Rattle.case_file.specs.Seen.{log_with, SeenUpTo};
ghost use Rattle.definition.specs.03-Lists.{begins};
ghost use Rattle.definition.specs.15-Records.{rows_in};
ghost use Rattle.definition.specs.35-Index.{index_of};
ghost use Rattle.definition.specs.48-Places.{OrderedLog};
ghost use Rattle.observer_index.specs.OwnList.{IndexOf, Hides, Listed, Marked};

use case_parts::log_row_at;

// The rows of the `len` entries from `from` on are seen: the table gets the number of each one's action.
fn mark_rows(rows: &[u8], index: &[u16], from: usize, len: usize, views: &mut [u16; 1024])
    requires { Listed rows.now index.now from len × (length views.old ≡ 1024) }
    ensures { Marked rows.now index.now from len views.old views.new }
{
    for entry in &index[from..from + len] {
        let k = *entry as usize;
        let row = log_row_at(rows, k);
        views[k] = row.action;
    }
}

// The table of what the agent sees, from one in which every row is hidden.
pub fn see_listed(rows: &[u8], index: &[u16], agent: u16, views: &mut [u16; 1024])
    requires { IndexOf rows.now index.now × Hides views.old }
    ensures { (o : List ℕ) → OrderedLog (log_with rows.now o) → begins (index_of (log_with rows.now o)) index.now ≡ true → SeenUpTo (log_with rows.now o) agent (rows_in (log_with rows.now o)) views.old views.new }
{
    let agents = index[0] as usize;
    for i in 0..agents {
        let place = 1 + 3 * i;
        if index[place] == agent {
            let from = index[place + 1] as usize;
            let len = index[place + 2] as usize;
            mark_rows(rows, index, from, len, views);
            return;
        }
    }
}
