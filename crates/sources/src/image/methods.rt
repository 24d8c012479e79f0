ghost use Rattle.std.specs.Prelude.{◌≡◌, ℕ, true, false, [], is_ok, IfOk, Some, None, Option, refl};
ghost use Rattle.values.specs.Kinds.{kind_of};
ghost use Rattle.sources.specs.Table.{has_room};
ghost use Rattle.sources.specs.Rows.{node_of_row, row_fits};
ghost use Rattle.sources.specs.Image.{image_rows, image_stands, Unchanged, fitting_kind, writing, answer, rows_after, stands_after_write, standing_of_row};
ghost use Rattle.fifo.specs.Lists;
ghost use Rattle.sources.specs.declared.rows.Row.{Row};
ghost use Rattle.sources.specs.Standings.{Sound};
ghost use Rattle.sources.specs.Puts.{every_lookup};

use crate::fault::SourceFault;
use crate::image::ProcessImage;
use crate::rows::Row;
use crate::source::{Source, Standing};
use crate::table;
use fifo::bounded::BoundedList;
use values::value::{Kind, Sample};

// The kind with the code, where the sample's value is empty or of that kind.
fn fitting_kind(code: u32, sample: &Sample) -> Option<Kind>
    ensures { result ≡ fitting_kind (kind_of code) sample.now }
{
    Kind::try_from(code)
        .ok()
        .filter(|kind| sample.value.fits(*kind))
}

impl ProcessImage {
    // No node is known.
    pub fn new() -> Self
        ensures { image_rows result ≡ [] }
    {
        let blank = Row {
            node: 0,
            kind: Kind::Boolean,
            sample: Sample::default(),
        };
        ProcessImage {
            rows: BoundedList::with_blank(blank),
        }
    }

    // The row that a write makes.
    fn row_for(&self, node: u32, code: u32, sample: Sample) -> Result<Row, SourceFault>
        ensures value { result ≡ writing (image_rows self.now) node code sample }
        ensures fits { IfOk result (λ row. (has_room node_of_row row.node (image_rows self.now) ≡ true) × (row_fits row ≡ true)) }
    {
        if !table::has_room(&self.rows, node) {
            return Err(SourceFault::TableFull(node));
        }
        let kind = fitting_kind(code, &sample).ok_or(SourceFault::TypeMismatch(node))?;
        Ok(Row { node, kind, sample })
    }

    // Replaces the node's row or adds one. The kind is the one given here, so a node's kind may change. Its code may be any
    // number, since a refusal is what an unknown one is answered with.
    #[tactic(auto, using(crate::specs::Puts::every_put, crate::specs::Puts::lookup_put))]
    pub fn write(&mut self, node: u32, code: u32, sample: Sample) -> Result<(), SourceFault>
        ensures value { result ≡ answer (writing (image_rows self.old) node code sample) }
        ensures rows { image_rows self.new ≡ rows_after node_of_row (writing (image_rows self.old) node code sample) (image_rows self.old) }
        ensures stands { (n : ℕ) → image_stands (image_rows self.new) n ≡ stands_after_write (writing (image_rows self.old) node code sample) n (image_stands (image_rows self.old) n) }
        ensures refused { is_ok result ≡ false → Unchanged self.old self.new }
    {
        let row = self.row_for(node, code, sample)?;
        table::put_row(&mut self.rows, row);
        Ok(())
    }
}

impl Source for ProcessImage {
    ghost stands = { λ s n. image_stands (image_rows s) n };

    // every row in use carries the fact
    ghost sound = { λ s n.
        let at : (o : Option Row) → Lists.lookup node_of_row n (image_rows s) ≡ o → Sound (standing_of_row o) =
        elim [
          | None ↦ λ e. tt
          | Some r ↦ λ e. every_lookup node_of_row row_fits n r (image_rows s) s.fit e
        ]
        in
        at (Lists.lookup node_of_row n (image_rows s)) refl };

    fn query(&self, node: u32) -> Option<Standing> {
        let row = self.rows.lookup(node)?;
        Some(Standing {
            kind: row.kind,
            sample: row.sample,
        })
    }
}
