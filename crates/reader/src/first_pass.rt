// The first pass: the whole file is judged, and what it needs is counted.
ghost use Rattle.std.specs.Prelude.{◌≡◌, ◌≤◌, length};
ghost use Rattle.record.specs.Refusals.{file_most};
ghost use Rattle.sheet.specs.Reading.{walk_from};
ghost use Rattle.reader.specs.Columns.{column_from};
ghost use Rattle.reader.specs.Read.{judged_of};

use crate::pieces::skim_rows;
use crate::turns::{first_stand, turn_at};
use crate::{Needs, Unread, located};
use machine::wanted;
use record::Mode;

// The sections, which begin at `start`, are judged, and what they need is counted.
pub(crate) fn judge(src: &[u8], mode: Mode, start: usize) -> Result<Needs, Unread>
    requires { (start ≤ length src.now) × (length src.now ≤ file_most) }
    ensures { result ≡ judged_of (column_from mode src.now start) (walk_from mode src.now start) }
{
    let mut d = first_stand(start);
    loop {
        match turn_at(src, mode, d) {
            Ok(Some(turn)) => d = skim_rows(src, mode, turn.stand),
            Ok(None) => return Ok(d.needs),
            Err(stopped) => return Err(located(src, mode, wanted(d.state), stopped)),
        }
    }
}
