ghost use Rattle.std.specs.Prelude.{◌≡◌, ℕ, ◌≤◌, true, false, [], is_ok, IfOk, Some};
ghost use Rattle.sources.specs.Table.{has_room};
ghost use Rattle.sources.specs.Rows.{node_of_expiry, day_fits};
ghost use Rattle.sources.specs.Image.{answer, rows_after};
ghost use Rattle.sources.specs.Certificates.{certificate_rows, today_of, Unchanged, certificates_stand, standing_of_expiry, entering, stands_after_entry, setting_today, today_after};
ghost use Rattle.std.proofs.Common.{rules, arith};

use crate::certificates::Certificates;
use crate::fault::SourceFault;
use crate::rows::Expiry;
use crate::source::{Source, Standing};
use crate::table;
use fifo::bounded::BoundedList;
use values::value::{Kind, Sample, Value};

const LAST_DAY: u32 = 1_000_000;

// A day in steps of 100 ns.
const DAY_STEPS: i64 = 864_000_000_000;

impl Certificates {
    // No node is known, and today is day 0.
    pub fn new() -> Self
        ensures rows { certificate_rows result ≡ [] }
        ensures today { today_of result ≡ 0 }
    {
        Certificates {
            rows: BoundedList::new(),
            today: 0,
        }
    }

    // The nodes with their end days, in the order in which they first came.
    pub fn rows(&self) -> &[Expiry]
        ensures { result.now ≡ certificate_rows self.now }
    {
        self.rows.as_slice()
    }

    // The row that an entry makes.
    fn row_for(&self, node: u32, end_day: u32) -> Result<Expiry, SourceFault>
        ensures value { result ≡ entering (certificate_rows self.now) node end_day }
        ensures fits { IfOk result (λ row. (has_room node_of_expiry row.node (certificate_rows self.now) ≡ true) × (day_fits row ≡ true)) }
    {
        if !table::has_room(&self.rows, node) {
            return Err(SourceFault::TableFull(node));
        }
        if end_day > LAST_DAY {
            return Err(SourceFault::OutOfRange(node));
        }
        Ok(Expiry { node, end_day })
    }

    // Replaces the node's row or adds one.
    #[tactic(auto, using(crate::specs::Puts::every_put, crate::specs::Puts::lookup_put))]
    pub fn enter(&mut self, node: u32, end_day: u32) -> Result<(), SourceFault>
        ensures value { result ≡ answer (entering (certificate_rows self.old) node end_day) }
        ensures rows { certificate_rows self.new ≡ rows_after node_of_expiry (entering (certificate_rows self.old) node end_day) (certificate_rows self.old) }
        ensures today { today_of self.new ≡ today_of self.old }
        ensures stands { (n : ℕ) → certificates_stand (today_of self.new) (certificate_rows self.new) n ≡ stands_after_entry (today_of self.old) (entering (certificate_rows self.old) node end_day) n (certificates_stand (today_of self.old) (certificate_rows self.old) n) }
        ensures refused { is_ok result ≡ false → Unchanged self.old self.new }
    {
        let row = self.row_for(node, end_day)?;
        table::put_row(&mut self.rows, row);
        Ok(())
    }

    // Today may go back.
    pub fn set_today(&mut self, day: u32) -> Result<(), SourceFault>
        ensures value { result ≡ answer (setting_today day) }
        ensures rows { certificate_rows self.new ≡ certificate_rows self.old }
        ensures today { today_of self.new ≡ today_after (setting_today day) (today_of self.old) }
        ensures stands { (n : ℕ) → certificates_stand (today_of self.new) (certificate_rows self.new) n ≡ certificates_stand (today_after (setting_today day) (today_of self.old)) (certificate_rows self.old) n }
        ensures refused { is_ok result ≡ false → Unchanged self.old self.new }
    {
        if day > LAST_DAY {
            return Err(SourceFault::OutOfRange(0));
        }
        self.today = day;
        Ok(())
    }
}

// What a row shows on the day: the days left, below 0 after the end day.
fn shown(row: &Expiry, today: u32) -> Standing
    requires end { row.now.end_day ≤ 1000000 }
    requires day { today ≤ 1000000 }
    ensures { Some result ≡ standing_of_expiry today (Some row.now) }
{
    // By `as`: both are at most 1,000,000, and a `try_from` would have a case that never comes.
    let days_left = row.end_day as i32 - today as i32;
    Standing {
        kind: Kind::Int32,
        sample: Sample::good(Value::Int32(days_left), i64::from(today) * DAY_STEPS),
    }
}

impl Source for Certificates {
    ghost stands = { λ s n. certificates_stand (today_of s) (certificate_rows s) n };

    ghost sound = { first_of (Prim.search rules, Prim.grind (arith, Self.row.coded.inj)) };

    #[tactic(auto, using(crate::specs::Puts::every_lookup))]
    fn query(&self, node: u32) -> Option<Standing> {
        let row = self.rows.lookup(node)?;
        Some(shown(&row, self.today))
    }
}
