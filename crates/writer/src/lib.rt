// The writer of a sheet (document 01, "Sheet tables" and "Refusal numbers"): the exact mode's layout.
// All of it is proved, and no public function has a `requires`. The sheet is judged, then the length, then the room; a
// refusal alters nothing, and past the text nothing is altered.
#![tactic(auto)]

ghost use Rattle.std.specs.Prelude.{◌≡◌, true, [], ◌+◌, ◌-◌, ◌*◌, ◌≤◌, ◌<◌, min, length, get_or, Ok};
ghost use Rattle.laws.specs.Lists.{over};
ghost use Rattle.record.specs.Refusals.{file_most};
ghost use Rattle.record.specs.declared.Mode.TheVariants.{Exact};
ghost use Rattle.number.specs.Number.{is_real};
ghost use Rattle.spelling.specs.Spelling.{integer_most, integer_text, real_text};
ghost use Rattle.token.specs.Lex.{key_text, kind_most};
ghost use Rattle.kinds.specs.Kinds.{schedule, letters_place, want_at};
ghost use Rattle.header.specs.Header.{first_words};
ghost use Rattle.heading.specs.Heading.{is_header};
ghost use Rattle.made.specs.Made.{tables, tables_of, has_field, are_numbers, sum, are_reals, is_made, none_before, judge_rows, judge_of};
ghost use Rattle.layout.specs.Sheet.{line, field_text, fields_text, integers_text, reals_text, row_text, rows_text, header_text, sheet_text};
ghost use Rattle.writer.specs.declared.Unwritten.TheVariants.{Refused};
ghost use Rattle.writer.specs.Write.{written_after, write_of, output_of};
ghost use Rattle.row.specs.Walk.{cell_in};
ghost use Rattle.writer.specs.Put.{Put, row_size};

use heading::Header;
use kinds::{field_at, want_at};
use made::{Flaw, Lent, Sheet, count_at, judge, rest_of};
use record::{FILE_MOST, Mode};
use spelling::{put_bytes, spell_integer, spell_real};
use token::{WORD_STARTS, WORDS, Want};

// Why nothing is written: too long for a file (1); no room (14), with the needed length; or what is wrong with the sheet.
#[derive(Clone, Copy, Debug, PartialEq, Eq)]
pub enum Unwritten {
    TooLong,
    NoRoom(usize),
    Refused(Flaw),
}

impl From<Flaw> for Unwritten {
    ghost from_gives = { λ f r. r ≡ Refused f };

    fn from(flaw: Flaw) -> Unwritten {
        Unwritten::Refused(flaw)
    }
}

const LETTERS_PLACE: usize = 9;

const ISLANDS_PLACE: usize = 10;

const VERTICES_PLACE: usize = 11;

// By kind, from 0, the bytes of its records without letters, outside mark, island counts and points.
const FRAMES: [usize; 8] = [0, 97, 57, 57, 75, 19, 22, 24];

// The bytes of the EOF record.
const END_LENGTH: usize = 5;

// A record with this content.
fn put_line(out: &mut [u8], at: usize, s: &[u8]) -> usize
    requires { at + length (line s.now) ≤ length out.old }
    ensures { Put out.old at (line s.now) out.new result }
{
    let next = put_bytes(out, at, s);
    put_bytes(out, next, b"\r\n")
}

fn put_integer(out: &mut [u8], at: usize, n: usize) -> usize
    requires { (n ≤ integer_most) × (at + length (line (integer_text n)) ≤ length out.old) }
    ensures { Put out.old at (line (integer_text n)) out.new result }
{
    spell_integer(n, &mut out[at..]);
    put_bytes(out, at + 4, b"\r\n")
}

fn put_real(out: &mut [u8], at: usize, z: i64) -> usize
    requires { (is_real z ≡ true) × (at + length (line (real_text z)) ≤ length out.old) }
    ensures { Put out.old at (line (real_text z)) out.new result }
{
    spell_real(z, &mut out[at..]);
    put_bytes(out, at + 12, b"\r\n")
}

// The record of a keyword, with a final `\` for outside.
fn put_key(out: &mut [u8], at: usize, kind: usize, outside: usize) -> usize
    requires { (1 ≤ kind) × (kind ≤ kind_most) × (outside ≤ 1) × (at + length (line (key_text (2 * kind + outside))) ≤ length out.old) }
    ensures { Put out.old at (line (key_text (2 * kind + outside))) out.new result }
{
    let k = kind - 1;
    let start = WORD_STARTS[k];
    let end = WORD_STARTS[k + 1];
    let next = put_bytes(out, at, &WORDS[start..end]);
    if outside == 1 {
        return put_line(out, next, b"\\");
    }
    put_line(out, next, b"")
}

// The record of the field at a place.
fn put_field(out: &mut [u8], at: usize, rows: &[i64], letters: &[u8], place: usize) -> usize
    requires rows_value { (are_numbers rows.now ≡ true) × (cell_in rows.now letters_place ≤ length letters.now) }
    requires place_value { has_field (cell_in rows.now 0) place ≡ true }
    requires place_in_bounds { at + length (line (field_text (tables_of rows.now letters.now [] []) place (want_at place))) ≤ length out.old }
    ensures { Put out.old at (line (field_text (tables_of rows.now letters.now [] []) place (want_at place))) out.new result }
{
    match want_at(place) {
        Want::Key => put_line(out, at, b""),
        Want::Text => {
            let n = count_at(rows, LETTERS_PLACE);
            put_line(out, at, &letters[..n])
        }
        Want::Int => put_integer(out, at, count_at(rows, place)),
        Want::Real => put_real(out, at, rows[place]),
    }
}

// The records of a row's fields, in the schedule's order.
// `field_at` answers 0 behind the last field: a range that is left by a test is no plainer than this count.
fn put_fields(out: &mut [u8], at: usize, rows: &[i64], letters: &[u8]) -> usize
    requires rows_value { (are_numbers rows.now ≡ true) × (cell_in rows.now letters_place ≤ length letters.now) }
    requires rows_in_bounds { at + length (fields_text (tables_of rows.now letters.now [] []) (get_or schedule (cell_in rows.now 0) [])) ≤ length out.old }
    ensures { Put out.old at (fields_text (tables_of rows.now letters.now [] []) (get_or schedule (cell_in rows.now 0) [])) out.new result }
{
    let kind = count_at(rows, 0);
    let mut next = at;
    let mut j = 0;
    loop {
        let place = field_at(kind, j);
        if place == 0 {
            return next;
        }
        next = put_field(out, next, rows, letters, place);
        j += 1;
    }
}

// One integer per island.
fn put_islands(out: &mut [u8], at: usize, s: &[u16]) -> usize
    requires { (sum s.now ≤ integer_most) × (at + length (integers_text s.now) ≤ length out.old) }
    ensures { Put out.old at (integers_text s.now) out.new result }
{
    let mut next = at;
    for &n in s {
        next = put_integer(out, next, usize::from(n));
    }
    next
}

// Two reals per vertex.
fn put_points(out: &mut [u8], at: usize, s: &[i64]) -> usize
    requires { (are_reals s.now ≡ true) × (at + length (reals_text s.now) ≤ length out.old) }
    ensures { Put out.old at (reals_text s.now) out.new result }
{
    let mut next = at;
    for &z in s {
        next = put_real(out, next, z);
    }
    next
}

// The section of the first row: its keyword, its fields, its island counts, its points.
fn put_row(out: &mut [u8], at: usize, part: &Lent<'_>) -> usize
    requires part_value { is_made (tables part.now) ≡ true }
    requires part_in_bounds { at + length (row_text (tables part.now)) ≤ length out.old }
    ensures { Put out.old at (row_text (tables part.now)) out.new result }
{
    let key_end = put_key(out, at, count_at(part.rows, 0), count_at(part.rows, 1));
    let fields_end = put_fields(out, key_end, part.rows, part.letters);
    let i = count_at(part.rows, ISLANDS_PLACE);
    let islands_end = put_islands(out, fields_end, &part.islands[..i]);
    let p = 2 * count_at(part.rows, VERTICES_PLACE);
    put_points(out, islands_end, &part.points[..p])
}

// The sections of all rows.
fn put_rows(out: &mut [u8], at: usize, count: usize, lent: &Lent<'_>) -> usize
    requires lent_value { judge_rows Exact count none_before (tables lent.now) ≡ Ok tt }
    requires lent_in_bounds { at + length (rows_text count (tables lent.now)) ≤ length out.old }
    ensures { Put out.old at (rows_text count (tables lent.now)) out.new result }
{
    let mut left = *lent;
    let mut next = at;
    for _ in 0..count {
        next = put_row(out, next, &left);
        left = rest_of(&left);
    }
    next
}

// The bytes of the first row's section.
fn row_length(rows: &[i64]) -> usize
    requires { are_numbers rows.now ≡ true }
    ensures { result ≡ row_size rows.now }
{
    let frame = FRAMES[count_at(rows, 0)];
    let text = count_at(rows, 1) + count_at(rows, LETTERS_PLACE);
    let counts = 6 * count_at(rows, ISLANDS_PLACE);
    let vertices = 28 * count_at(rows, VERTICES_PLACE);
    frame + text + counts + vertices
}

// The bytes of all rows' sections, behind `start` bytes; one more than a file may have where they are too many.
fn rows_length(start: usize, count: usize, lent: &Lent<'_>) -> usize
    requires { (start ≤ file_most) × (judge_rows Exact count none_before (tables lent.now) ≡ Ok tt) }
    ensures { result ≡ min (start + length (rows_text count (tables lent.now))) (file_most + 1) }
{
    let mut left = *lent;
    let mut total = start;
    for _ in 0..count {
        total += row_length(left.rows);
        if total > FILE_MOST {
            return FILE_MOST + 1;
        }
        left = rest_of(&left);
    }
    total
}

// Record 1, the first word.
fn put_first(out: &mut [u8], at: usize, kind: usize) -> usize
    requires { (1 ≤ kind) × (kind ≤ 3) × (at + length (line (get_or first_words (kind - 1) [])) ≤ length out.old) }
    ensures { Put out.old at (line (get_or first_words (kind - 1) [])) out.new result }
{
    if kind == 1 {
        return put_line(out, at, b"MAPPA");
    }
    if kind == 2 {
        return put_line(out, at, b"MAPPA FONDIARIO");
    }
    put_line(out, at, b"QUADRO D'UNIONE")
}

// The three records of the header.
fn put_header(out: &mut [u8], at: usize, header: Header) -> usize
    requires { (is_header header ≡ true) × (at + length (header_text header) ≤ length out.old) }
    ensures { Put out.old at (header_text header) out.new result }
{
    let first_end = put_first(out, at, header.kind);
    let name_end = put_line(out, first_end, &header.name);
    put_real(out, name_end, header.scale)
}

// The bytes of the header.
#[tactic(auto, using(crate::proofs::HeaderWays::lengths))]
fn header_length(header: Header) -> usize
    requires { is_header header ≡ true }
    ensures { result ≡ length (header_text header) }
{
    if header.kind == 1 { 34 } else { 44 }
}

// The bytes of the sheet; one more than a file may have where they are too many.
fn sheet_length(sheet: &Sheet<'_>) -> usize
    requires { judge_of Exact sheet.now.header sheet.now.count (tables sheet.now.lent) ≡ Ok tt }
    ensures { result ≡ min (length (sheet_text sheet.now.header sheet.now.count (tables sheet.now.lent))) (file_most + 1) }
{
    let start = header_length(sheet.header) + END_LENGTH;
    rows_length(start, sheet.count, &sheet.lent)
}

// The header, the sections, `EOF`.
fn put_sheet(sheet: &Sheet<'_>, out: &mut [u8])
    requires sheet_value { judge_of Exact sheet.now.header sheet.now.count (tables sheet.now.lent) ≡ Ok tt }
    requires sheet_in_bounds { length (sheet_text sheet.now.header sheet.now.count (tables sheet.now.lent)) ≤ length out.old }
    ensures { out.new ≡ over (sheet_text sheet.now.header sheet.now.count (tables sheet.now.lent)) out.old }
{
    let header_end = put_header(out, 0, sheet.header);
    let rows_end = put_rows(out, header_end, sheet.count, &sheet.lent);
    put_line(out, rows_end, b"EOF");
}

// The length, the room, then the text of a sheet that was judged.
fn write_judged(sheet: &Sheet<'_>, out: &mut [u8]) -> Result<usize, Unwritten>
    requires { judge_of Exact sheet.now.header sheet.now.count (tables sheet.now.lent) ≡ Ok tt }
    ensures value { result ≡ written_after (Ok tt) (length (sheet_text sheet.now.header sheet.now.count (tables sheet.now.lent))) (length out.old) }
    ensures out_after { out.new ≡ output_of result (sheet_text sheet.now.header sheet.now.count (tables sheet.now.lent)) out.old }
{
    let needed = sheet_length(sheet);
    if needed > FILE_MOST {
        return Err(Unwritten::TooLong);
    }
    if needed > out.len() {
        return Err(Unwritten::NoRoom(needed));
    }
    put_sheet(sheet, out);
    Ok(needed)
}

// Writes a sheet to the start of `out`, where it is well made, its codes are listed and there is room.
#[tactic(auto, unfolding(crate::specs::Write::write_of))]
pub fn write(sheet: &Sheet<'_>, out: &mut [u8]) -> Result<usize, Unwritten>
    ensures value { result ≡ write_of sheet.now.header sheet.now.count (tables sheet.now.lent) (length out.old) }
    ensures out_after { out.new ≡ output_of result (sheet_text sheet.now.header sheet.now.count (tables sheet.now.lent)) out.old }
{
    judge(Mode::Exact, sheet)?;
    write_judged(sheet, out)
}
