// A row that is taken out: what stands behind it in each table is copied down, and the starts of the rows behind it fall.
ghost use Rattle.std.specs.Prelude.{◌≡◌, true, ◌+◌, ◌*◌, ◌≤◌, ◌<◌, length, get_or, pos, Ok};
ghost use Rattle.std.specs.Int.Signed.{le_z};
ghost use Rattle.record.specs.declared.Mode.TheVariants.{Loose};
ghost use Rattle.kinds.specs.Kinds.{row_width};
ghost use Rattle.made.specs.Made.{tables_of, nat_of, starts_at, none_before, judge_rows};
ghost use Rattle.row.specs.Walk.{word_most, stand_of, Stands};
ghost use Rattle.edit.specs.Answers.{tables_at};
ghost use Rattle.edit.specs.Rows.{every_row, each_row};
ghost use Rattle.edit.specs.Removals.{removed_tables, remove_of};
ghost use Rattle.edit.specs.Closing.{closed_up, start_most, lowered, is_up, fallen_row, end_stand};

use crate::Unedited;
use heading::Header;
use kinds::{FIRST_ISLAND_PLACE, FIRST_LETTER_PLACE, FIRST_POINT_PLACE, ROW_WIDTH};
use made::{Lent, Sheet, count_at, count_of};
use row::{Stand, seek};

const LETTERS_PLACE: usize = 9;

const ISLANDS_PLACE: usize = 10;

const VERTICES_PLACE: usize = 11;

// Takes n out at a place of a table that is used up to `end`: what is used behind it is copied down.
fn close_letters(s: &mut [u8], at: usize, n: usize, end: usize)
    requires { (at + n ≤ end) × (end ≤ length s.old) }
    ensures { s.new ≡ closed_up at n end s.old }
{
    let stop = end - n;
    let mut i = at;
    while i < stop {
        s[i] = s[i + n];
        i += 1;
    }
}

fn close_islands(s: &mut [u16], at: usize, n: usize, end: usize)
    requires { (at + n ≤ end) × (end ≤ length s.old) }
    ensures { s.new ≡ closed_up at n end s.old }
{
    let stop = end - n;
    let mut i = at;
    while i < stop {
        s[i] = s[i + n];
        i += 1;
    }
}

fn close_numbers(s: &mut [i64], at: usize, n: usize, end: usize)
    requires { (at + n ≤ end) × (end ≤ length s.old) }
    ensures { s.new ≡ closed_up at n end s.old }
{
    let stop = end - n;
    let mut i = at;
    while i < stop {
        s[i] = s[i + n];
        i += 1;
    }
}

// A start of the first row, less n.
fn lower_at(rows: &mut [i64], place: usize, n: usize)
    requires { (place < length rows.old) × (n ≤ start_most) × (le_z (pos 0) (get_or rows.old place (pos 0)) ≡ true) }
    ensures { rows.new ≡ lowered place n rows.old }
{
    rows[place] = rows[place] - n as i64;
}

// The three starts of the first row.
fn lower_row(rows: &mut [i64], letters: usize, islands: usize, points: usize)
    requires { (row_width ≤ length rows.old) × (letters ≤ start_most) × (islands ≤ start_most) × (points ≤ start_most) × (is_up rows.old ≡ true) }
    ensures { rows.new ≡ each_row (fallen_row (starts_at letters islands points)) 1 rows.old }
{
    lower_at(rows, FIRST_LETTER_PLACE, letters);
    lower_at(rows, FIRST_ISLAND_PLACE, islands);
    lower_at(rows, FIRST_POINT_PLACE, points);
}

fn lower_rows(count: usize, rows: &mut [i64], letters: usize, islands: usize, points: usize)
    requires { (row_width * count ≤ length rows.old) × (letters ≤ start_most) × (islands ≤ start_most) × (points ≤ start_most) × (every_row is_up count rows.old ≡ true) }
    ensures { rows.new ≡ each_row (fallen_row (starts_at letters islands points)) count rows.old }
{
    let mut r = 0;
    let mut k = 0;
    while k < count {
        lower_row(&mut rows[r..], letters, islands, points);
        r += ROW_WIDTH;
        k += 1;
    }
}

// Where the last row ends, by its own starts and counts.
fn end_of(count: usize, rows: &[i64]) -> Stand
    requires { (1 ≤ count) × (row_width * count ≤ length rows.now) × Stands word_most word_most word_most word_most (end_stand count rows.now) }
    ensures { result ≡ end_stand count rows.now }
{
    let last = ROW_WIDTH * (count - 1);
    let own = &rows[last..];
    Stand {
        row: ROW_WIDTH * count,
        letters: count_at(own, FIRST_LETTER_PLACE) + count_at(own, LETTERS_PLACE),
        islands: count_at(own, FIRST_ISLAND_PLACE) + count_at(own, ISLANDS_PLACE),
        points: 2 * (count_at(own, FIRST_POINT_PLACE) + count_at(own, VERTICES_PLACE)),
    }
}

// A count of a row, by its place in the table.
fn counted(rows: &[i64], at: usize) -> usize
    requires { at < length rows.now }
    ensures { (result ≡ nat_of (get_or rows.now at (pos 0))) × (result ≤ start_most) }
{
    count_of(rows[at])
}

// Takes out the row that stands at d, of a sheet that was judged. The rows are closed up before the starts fall: the freed row keeps what it held.
fn remove_at(
    count: usize,
    rows: &mut [i64],
    letters: &mut [u8],
    islands: &mut [u16],
    points: &mut [i64],
    row: usize,
    d: Stand,
)
    requires { (judge_rows Loose count none_before (tables_of rows.old letters.old islands.old points.old) ≡ Ok tt) × (row < count) × (d ≡ stand_of row rows.old) }
    ensures rows_after { rows.new ≡ (removed_tables count row (tables_of rows.old letters.old islands.old points.old)).rows }
    ensures letters_after { letters.new ≡ (removed_tables count row (tables_of rows.old letters.old islands.old points.old)).letters }
    ensures islands_after { islands.new ≡ (removed_tables count row (tables_of rows.old letters.old islands.old points.old)).islands }
    ensures points_after { points.new ≡ (removed_tables count row (tables_of rows.old letters.old islands.old points.old)).points }
{
    let r = d.row;
    let l = counted(rows, r + LETTERS_PLACE);
    let i = counted(rows, r + ISLANDS_PLACE);
    let v = counted(rows, r + VERTICES_PLACE);
    let end = end_of(count, rows);
    close_letters(letters, d.letters, l, end.letters);
    close_islands(islands, d.islands, i, end.islands);
    close_numbers(points, d.points, 2 * v, end.points);
    close_numbers(rows, r, ROW_WIDTH, end.row);
    lower_rows(count - 1 - row, &mut rows[r..], l, i, v);
}

// Takes a row out, and answers the rows that are left. Any code is well made.
#[tactic(auto, unfolding(crate::specs::Removals::remove_of))]
pub fn remove_row(
    header: Header,
    count: usize,
    rows: &mut [i64],
    letters: &mut [u8],
    islands: &mut [u16],
    points: &mut [i64],
    row: usize,
) -> Result<usize, Unedited>
    ensures value { result ≡ remove_of header count (tables_of rows.old letters.old islands.old points.old) row }
    ensures rows_after { rows.new ≡ (tables_at result (removed_tables count row (tables_of rows.old letters.old islands.old points.old)) (tables_of rows.old letters.old islands.old points.old)).rows }
    ensures letters_after { letters.new ≡ (tables_at result (removed_tables count row (tables_of rows.old letters.old islands.old points.old)) (tables_of rows.old letters.old islands.old points.old)).letters }
    ensures islands_after { islands.new ≡ (tables_at result (removed_tables count row (tables_of rows.old letters.old islands.old points.old)) (tables_of rows.old letters.old islands.old points.old)).islands }
    ensures points_after { points.new ≡ (tables_at result (removed_tables count row (tables_of rows.old letters.old islands.old points.old)) (tables_of rows.old letters.old islands.old points.old)).points }
{
    let lent = Lent {
        rows: &*rows,
        letters: &*letters,
        islands: &*islands,
        points: &*points,
    };
    let sheet = Sheet {
        header,
        count,
        lent,
    };
    let d = seek(&sheet, row)?;
    remove_at(count, rows, letters, islands, points, row, d);
    Ok(count - 1)
}
