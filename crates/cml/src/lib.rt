// The lines of a sheet as CML (document 02, T-11): one element LINEA of source 001 for each LINEA row.
// All of it is proved, and no public function has a `requires`. The sheet is judged, then the length, then the room; a
// refusal alters nothing, and past the text nothing is altered.
#![tactic(auto)]

ghost use Rattle.std.specs.Prelude.{◌≡◌, true, leb, [], ◌++◌, ◌+◌, ◌*◌, ◌≤◌, min, length, Ok};
ghost use Rattle.laws.specs.Lists.{over};
ghost use Rattle.record.specs.Refusals.{file_most};
ghost use Rattle.record.specs.declared.Mode.TheVariants.{Loose};
ghost use Rattle.number.specs.Number.{is_real};
ghost use Rattle.spelling.specs.Spelling.{bare_real};
ghost use Rattle.made.specs.Made.{tables, tables_of, are_reals, none_before, judge_rows};
ghost use Rattle.writer.specs.Write.{written_after, output_of};
ghost use Rattle.row.specs.Walk.{cell_in};
ghost use Rattle.writer.specs.Put.{Put};
ghost use Rattle.cml.specs.Element.{opening, start_tag, element_text};
ghost use Rattle.cml.specs.Lines.{line_kind, polyline_of, cml_text, cml_of};
ghost use Rattle.cml.specs.Spaced.{gap, gaps_to, mark, spaced_text, row_element, lines_most, Drawn};

use made::{Lent, Sheet, count_at, judge, rest_of};
use record::{FILE_MOST, Mode};
use spelling::{bare_size, digit_count, put_bare, put_bytes, put_count};
use writer::Unwritten;

// The vertices that a COORD holds at most.
const COORD_MOST: usize = 1000;

const LINE_KIND: usize = 5;

const CODE_PLACE: usize = 2;

const VERTICES_PLACE: usize = 11;

// The bytes of an element without its numbers.
const FRAME: usize = 82;

// The bytes of an element without its points, at most; and of a coordinate with what stands before it.
const FRAME_MOST: usize = 98;

const COORDINATE_MOST: usize = 14;

// What stands before vertex i.
fn put_gap(out: &mut [u8], at: usize, i: usize) -> usize
    requires { at + length (gap i) ≤ length out.old }
    ensures { Put out.old at (gap i) out.new result }
{
    if i == 0 {
        return at;
    }
    if i % COORD_MOST == 0 {
        return put_bytes(out, at, b"</COORD><COORD>");
    }
    out[at] = b' ';
    at + 1
}

// What stands before coordinate j.
fn put_mark(out: &mut [u8], at: usize, j: usize) -> usize
    requires { at + length (mark j) ≤ length out.old }
    ensures { Put out.old at (mark j) out.new result }
{
    if j % 2 == 1 {
        out[at] = b',';
        return at + 1;
    }
    put_gap(out, at, j / 2)
}

// Coordinate j, and what stands before it.
fn put_coordinate(out: &mut [u8], at: usize, j: usize, value: i64) -> usize
    requires { (is_real value ≡ true) × (at + length (mark j ++ bare_real value) ≤ length out.old) }
    ensures { Put out.old at (mark j ++ bare_real value) out.new result }
{
    let mark_end = put_mark(out, at, j);
    put_bare(out, mark_end, value)
}

// The coordinates of a line: one call for x and y alike, so that it is compiled into the loop.
fn put_coordinates(out: &mut [u8], at: usize, s: &[i64]) -> usize
    requires s_value { are_reals s.now ≡ true }
    requires s_in_bounds { at + length (spaced_text 0 s.now) ≤ length out.old }
    ensures { Put out.old at (spaced_text 0 s.now) out.new result }
{
    let mut next = at;
    for (j, &value) in s.iter().enumerate() {
        next = put_coordinate(out, next, j, value);
    }
    next
}

// The start tag up to the code.
fn put_opening(out: &mut [u8], at: usize, outside: usize) -> usize
    requires { at + length (opening outside) ≤ length out.old }
    ensures { Put out.old at (opening outside) out.new result }
{
    if outside == 1 {
        return put_bytes(
            out,
            at,
            b"<LINEA valenza=\"CONSOLID\" esterconf=\"SI\" cod=\"",
        );
    }
    put_bytes(
        out,
        at,
        b"<LINEA valenza=\"CONSOLID\" esterconf=\"NO\" cod=\"",
    )
}

// The start tag.
fn put_tag(out: &mut [u8], at: usize, outside: usize, code: usize, n: usize) -> usize
    requires { at + length (start_tag outside code n) ≤ length out.old }
    ensures { Put out.old at (start_tag outside code n) out.new result }
{
    let opening_end = put_opening(out, at, outside);
    let code_end = put_count(out, opening_end, code);
    let word_end = put_bytes(out, code_end, b"\" n.vert=\"");
    let count_end = put_count(out, word_end, n);
    put_bytes(out, count_end, b"\">")
}

// The element of the first row, which is a line.
fn put_line(out: &mut [u8], at: usize, rows: &[i64], points: &[i64]) -> usize
    requires drawn { Drawn rows.now points.now × (cell_in rows.now 0 ≡ line_kind) }
    requires points_in_bounds { at + length (element_text (polyline_of (tables_of rows.now [] [] points.now))) ≤ length out.old }
    ensures { Put out.old at (element_text (polyline_of (tables_of rows.now [] [] points.now))) out.new result }
{
    let outside = count_at(rows, 1);
    let code = count_at(rows, CODE_PLACE);
    let n = count_at(rows, VERTICES_PLACE);
    let p = 2 * n;
    let tag_end = put_tag(out, at, outside, code, n);
    let begun = put_bytes(out, tag_end, b"<COORD>");
    let points_end = put_coordinates(out, begun, &points[..p]);
    put_bytes(out, points_end, b"</COORD></LINEA>\n")
}

// The element of the first row, if it is a line.
fn put_row(out: &mut [u8], at: usize, rows: &[i64], points: &[i64]) -> usize
    requires drawn { Drawn rows.now points.now }
    requires points_in_bounds { at + length (row_element (tables_of rows.now [] [] points.now)) ≤ length out.old }
    ensures { Put out.old at (row_element (tables_of rows.now [] [] points.now)) out.new result }
{
    if count_at(rows, 0) == LINE_KIND {
        return put_line(out, at, rows, points);
    }
    at
}

// The elements of all rows; the answer is the place behind them.
fn put_lines(out: &mut [u8], count: usize, lent: &Lent<'_>) -> usize
    requires lent_value { judge_rows Loose count none_before (tables lent.now) ≡ Ok tt }
    requires lent_in_bounds { length (cml_text count (tables lent.now)) ≤ length out.old }
    ensures value { result ≡ length (cml_text count (tables lent.now)) }
    ensures out_after { out.new ≡ over (cml_text count (tables lent.now)) out.old }
{
    let mut left = *lent;
    let mut next = 0;
    for _ in 0..count {
        next = put_row(out, next, left.rows, left.points);
        left = rest_of(&left);
    }
    next
}

// The bytes of a vertex without its comma.
fn pair_size(x: i64, y: i64) -> usize
    requires { (is_real x ≡ true) × (is_real y ≡ true) }
    ensures { result ≡ length (bare_real x) + length (bare_real y) }
{
    bare_size(x) + bare_size(y)
}

// The bytes that stand before n vertices: one before each but the first, and 14 more where a COORD is full.
fn gaps_size(n: usize) -> usize
    requires { n ≤ 9999 }
    ensures { result ≡ gaps_to n }
{
    if n == 0 {
        return 0;
    }
    let k = n - 1;
    k + 14 * (k / COORD_MOST)
}

// The bytes of the n vertices of a line, each with its comma, and of what stands before them.
fn pairs_size(n: usize, s: &[i64]) -> usize
    requires { (n ≤ 9999) × (length s.now ≡ 2 * n) × (are_reals s.now ≡ true) }
    ensures { result ≡ length (spaced_text 0 s.now) }
{
    let mut total = 0;
    for i in 0..n {
        total += pair_size(s[2 * i], s[2 * i + 1]);
    }
    total + n + gaps_size(n)
}

// The bytes of the element of the first row, if it is a line.
fn row_size(rows: &[i64], points: &[i64]) -> usize
    requires { Drawn rows.now points.now }
    ensures { result ≡ length (row_element (tables_of rows.now [] [] points.now)) }
{
    if count_at(rows, 0) == LINE_KIND {
        let code = digit_count(count_at(rows, CODE_PLACE));
        let n = count_at(rows, VERTICES_PLACE);
        let count = digit_count(n);
        let p = 2 * n;
        let pairs = pairs_size(n, &points[..p]);
        return FRAME + code + count + pairs;
    }
    0
}

// The bytes of all elements; one more than a file may have where they are too many.
fn lines_size(count: usize, lent: &Lent<'_>) -> usize
    requires { judge_rows Loose count none_before (tables lent.now) ≡ Ok tt }
    ensures { result ≡ min (length (cml_text count (tables lent.now))) (file_most + 1) }
{
    let mut left = *lent;
    let mut total = 0;
    for _ in 0..count {
        total += row_size(left.rows, left.points);
        if total > FILE_MOST {
            return FILE_MOST + 1;
        }
        left = rest_of(&left);
    }
    total
}

// Whether the elements find room whatever their numbers are: then none has to be measured.
fn is_roomy(count: usize, coordinates: usize, room: usize) -> bool
    ensures { result ≡ leb (lines_most count coordinates) (min file_most room) }
{
    if count > FILE_MOST || coordinates > FILE_MOST {
        return false;
    }
    FRAME_MOST * count + COORDINATE_MOST * coordinates <= FILE_MOST.min(room)
}

// The length, the room, then the text of a sheet that was judged.
fn lines_judged(count: usize, lent: &Lent<'_>, out: &mut [u8]) -> Result<usize, Unwritten>
    requires { judge_rows Loose count none_before (tables lent.now) ≡ Ok tt }
    ensures value { result ≡ written_after (Ok tt) (length (cml_text count (tables lent.now))) (length out.old) }
    ensures out_after { out.new ≡ output_of result (cml_text count (tables lent.now)) out.old }
{
    if is_roomy(count, lent.points.len(), out.len()) {
        return Ok(put_lines(out, count, lent));
    }
    let needed = lines_size(count, lent);
    if needed > FILE_MOST {
        return Err(Unwritten::TooLong);
    }
    if needed > out.len() {
        return Err(Unwritten::NoRoom(needed));
    }
    put_lines(out, count, lent);
    Ok(needed)
}

// Writes the lines of a sheet to the start of `out`, one element for each LINEA row, where the sheet is well made and there is room.
#[tactic(auto, unfolding(crate::specs::Lines::cml_of))]
pub fn cml_lines(sheet: &Sheet<'_>, out: &mut [u8]) -> Result<usize, Unwritten>
    ensures value { result ≡ cml_of sheet.now.header sheet.now.count (tables sheet.now.lent) (length out.old) }
    ensures out_after { out.new ≡ output_of result (cml_text sheet.now.count (tables sheet.now.lent)) out.old }
{
    judge(Mode::Loose, sheet)?;
    lines_judged(sheet.count, &sheet.lent, out)
}
