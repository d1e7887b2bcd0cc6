// The second pass: every record of a file that was judged is stored.
ghost use Rattle.std.specs.Prelude.{◌≡◌, ◌≤◌, length};
ghost use Rattle.laws.specs.Lists.{over};
ghost use Rattle.record.specs.Refusals.{file_most};
ghost use Rattle.sheet.specs.Reading.{walk_from};
ghost use Rattle.reader.specs.Store.{section_tables, Room};

use crate::cells::store;
use crate::pieces::put_rows;
use crate::turns::{first_stand, turn_at};
use record::Mode;

// The second pass: the records are read again, and stored.
pub(crate) fn fill(
    src: &[u8],
    mode: Mode,
    start: usize,
    rows: &mut [i64],
    letters: &mut [u8],
    islands: &mut [u16],
    points: &mut [i64],
)
    requires start_in_bounds { (start ≤ length src.now) × (length src.now ≤ file_most) }
    requires room { Room (walk_from mode src.now start) (length rows.old) (length letters.old) (length islands.old) (length points.old) }
    ensures rows_after { rows.new ≡ over (section_tables (walk_from mode src.now start)).rows rows.old }
    ensures letters_after { letters.new ≡ over (section_tables (walk_from mode src.now start)).letters letters.old }
    ensures islands_after { islands.new ≡ over (section_tables (walk_from mode src.now start)).islands islands.old }
    ensures points_after { points.new ≡ over (section_tables (walk_from mode src.now start)).points points.old }
{
    let mut d = first_stand(start);
    loop {
        match turn_at(src, mode, d) {
            Ok(Some(turn)) => {
                let c = &src[d.at..d.at + turn.len];
                store(
                    d.state, turn.token, c, d.needs, rows, letters, islands, points,
                );
                d = put_rows(src, mode, turn.stand, rows, letters, islands, points);
            }
            Ok(None) => return,
            Err(_) => return,
        }
    }
}
