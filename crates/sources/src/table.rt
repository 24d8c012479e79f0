// Tables of at most 64 rows, each with a node, for both sources. Functions and no struct: each source holds its rows to a
// test of its own, which a struct could take only through one more trait.
ghost use Rattle.std.specs.Prelude.{◌≡◌, true};
ghost use Rattle.fifo.specs.Bounded.{items};
ghost use Rattle.sources.specs.Table.{has_room, put};

use fifo::bounded::BoundedList;
use fifo::keyed::Keyed;

// Whether the node has a row, or there is room for one more.
pub(crate) fn has_room<T: Keyed>(rows: &BoundedList<T, 64>, node: u32) -> bool
    ensures { result ≡ has_room T.Keyed.tag node (items rows.now) }
{
    !rows.is_full() || rows.contains(node)
}

// Puts the row in the place of its node's row, or last.
#[tactic(auto, using(crate::specs::Puts::put_at, crate::specs::Puts::put_new, crate::specs::Puts::room_new))]
pub(crate) fn put_row<T: Keyed>(rows: &mut BoundedList<T, 64>, row: T)
    requires { has_room T.Keyed.tag (T.Keyed.tag row) (items rows.old) ≡ true }
    ensures { items rows.new ≡ put T.Keyed.tag row (items rows.old) }
{
    match rows.find(row.key()) {
        Some(i) => rows.set(i, row),
        None => rows.push(row),
    }
}
