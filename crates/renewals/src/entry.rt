ghost use Rattle.std.specs.Prelude.{◌≡◌, false, is_ok};
ghost use Rattle.sources.specs.Certificates.{certificate_rows, today_of, Unchanged};
ghost use Rattle.renewals.specs.Line.{reading};
ghost use Rattle.renewals.specs.Entries.{line_answer, rows_after_line};

use crate::line::read_line;
use crate::problem::Problem;
use sources::certificates::Certificates;
use sources::rows::Expiry;

// Enters what the line says; a blank line is passed over, and a problem changes nothing.
pub fn enter_line(certificates: &mut Certificates, line: &[u8]) -> Result<(), Problem>
    ensures value { result ≡ line_answer (certificate_rows certificates.old) (reading line.now) }
    ensures rows { certificate_rows certificates.new ≡ rows_after_line (certificate_rows certificates.old) (reading line.now) }
    ensures today { today_of certificates.new ≡ today_of certificates.old }
    ensures refused { is_ok result ≡ false → Unchanged certificates.old certificates.new }
{
    if let Some(Expiry { node, end_day }) = read_line(line)? {
        certificates.enter(node, end_day)?;
    }
    Ok(())
}
