// What the listing program writes (document 01, "Listing program"): a sheet's header, its tally and its count of rows, or a refusal,
// whose line the conversion program has too (document 02, T-09).
// All of it is proved, and no public function has a `requires`. The tables are local and hold any input that is read, so that
// no room (14) is only ever said of the buffer that is lent for the text; it is then not altered.
#![tactic(auto)]

ghost use Rattle.std.specs.Prelude.{◌≡◌, ◌+◌, ◌*◌, ◌≤◌, ◌<◌, [], length, get_or};
ghost use Rattle.record.specs.declared.Mode.TheVariants.{Loose};
ghost use Rattle.sheet.specs.Reading.{reading};
ghost use Rattle.made.specs.Made.{tables, nat_of};
ghost use Rattle.writer.specs.Put.{Put};
ghost use Rattle.listing.specs.Listing.{input_most, figure, figures, word_line, map_line, class_words, four_of, class_line, class_lines, refused_line, sheet_lines, sheet_listing, read_text, listing_of};
ghost use Rattle.reader.specs.Columns.{reading_column};
ghost use Rattle.reader.specs.Exit.{used_part};
ghost use Rattle.listing.specs.Listed.{listed_of, listed_in, text_most, UsedFits};

use heading::Header;
use kinds::ROW_WIDTH;
use made::{Lent, Sheet, count_at};
use reader::{Needs, Reading, Unread, read_as};
use record::Mode;
use record::refusal::Refusal;
use spelling::{put_bytes, put_count};
use tally::{refused_of, tally_sheet};

// No room (14) for a text, with the length that it needs.
#[derive(Clone, Copy, Debug, PartialEq, Eq)]
pub struct NoRoom(pub usize);

// More input is not listed (1).
pub const INPUT_MOST: usize = 8192;

// No listing is longer.
pub const TEXT_MOST: usize = 640;

// Tables for any input: a row takes 28 bytes of it at least, a letter one, an island count two, each number of a point six.
pub const ROWS_ROOM: usize = 4380;

pub const LETTERS_ROOM: usize = 8192;

pub const ISLANDS_ROOM: usize = 4096;

pub const POINTS_ROOM: usize = 1365;

// The classes of borders, and the figures of each.
const CLASSES: usize = 6;

const CLASS_FIGURES: usize = 4;

// A blank and a figure.
fn put_figure(out: &mut [u8], at: usize, n: usize) -> usize
    requires { at + length (figure n) ≤ length out.old }
    ensures { Put out.old at (figure n) out.new result }
{
    let next = put_bytes(out, at, b" ");
    put_count(out, next, n)
}

// The figures of a line, and its end.
fn put_figures(out: &mut [u8], at: usize, s: &[usize]) -> usize
    requires { at + length (figures s.now) ≤ length out.old }
    ensures { Put out.old at (figures s.now) out.new result }
{
    let mut next = at;
    for &n in s {
        next = put_figure(out, next, n);
    }
    put_bytes(out, next, b"\n")
}

fn put_line(out: &mut [u8], at: usize, word: &[u8], s: &[usize]) -> usize
    requires { at + length (word_line word.now s.now) ≤ length out.old }
    ensures { Put out.old at (word_line word.now s.now) out.new result }
{
    let next = put_bytes(out, at, word);
    put_figures(out, next, s)
}

// `REFUSED`, number, place, offset, column.
fn put_refused(out: &mut [u8], number: usize, place: usize, offset: usize, column: usize) -> usize
    requires { length (refused_line number place offset column) ≤ length out.old }
    ensures { Put out.old 0 (refused_line number place offset column) out.new result }
{
    put_line(out, 0, b"REFUSED", &[number, place, offset, column])
}

fn scale_of(header: Header) -> usize
    ensures { result ≡ nat_of header.scale }
{
    usize::try_from(header.scale).unwrap_or(0)
}

// `MAP`, kind, name, scale in thousandths.
fn put_map(out: &mut [u8], header: Header) -> usize
    requires { length (map_line header) ≤ length out.old }
    ensures { Put out.old 0 (map_line header) out.new result }
{
    let word_end = put_bytes(out, 0, b"MAP");
    let kind_end = put_figure(out, word_end, header.kind);
    let name_start = put_bytes(out, kind_end, b" ");
    let name_end = put_bytes(out, name_start, &header.name);
    put_figures(out, name_end, &[scale_of(header)])
}

// The word of class k.
#[tactic(auto, unfolding(crate::specs::Listing::class_words))]
fn class_word(k: usize) -> &'static [u8]
    ensures { result.now ≡ get_or class_words k [] }
{
    match k {
        0 => b"CONFINE",
        1 => b"OTHER",
        2 => b"ROAD",
        3 => b"WATER",
        4 => b"BUILDING",
        5 => b"PARCEL",
        _ => b"",
    }
}

// The line of class k: borders, outer total, islands, island total.
fn put_class(out: &mut [u8], at: usize, tally: &[i64], k: usize) -> usize
    requires { (k < 6) × (at + length (class_line tally.now k) ≤ length out.old) }
    ensures { Put out.old at (class_line tally.now k) out.new result }
{
    let i = CLASS_FIGURES * k;
    let four = [
        count_at(tally, i),
        count_at(tally, i + 1),
        count_at(tally, i + 2),
        count_at(tally, i + 3),
    ];
    put_line(out, at, class_word(k), &four)
}

// The six class lines.
fn put_classes(out: &mut [u8], at: usize, tally: &[i64]) -> usize
    requires { at + length (class_lines 0 class_words tally.now) ≤ length out.old }
    ensures { Put out.old at (class_lines 0 class_words tally.now) out.new result }
{
    let mut next = at;
    for k in 0..CLASSES {
        next = put_class(out, next, tally, k);
    }
    next
}

// The lines of a sheet that is tallied.
fn put_sheet(out: &mut [u8], header: Header, count: usize, tally: &[i64]) -> usize
    requires { length (sheet_lines header count tally.now) ≤ length out.old }
    ensures { Put out.old 0 (sheet_lines header count tally.now) out.new result }
{
    let map_end = put_map(out, header);
    let classes_end = put_classes(out, map_end, tally);
    put_line(out, classes_end, b"ROWS", &[count])
}

// The lines of a sheet, or the tally's refusal.
fn put_tallied(out: &mut [u8], sheet: &Sheet<'_>) -> usize
    requires { length (sheet_listing sheet.now.header sheet.now.count (tables sheet.now.lent)) ≤ length out.old }
    ensures { Put out.old 0 (sheet_listing sheet.now.header sheet.now.count (tables sheet.now.lent)) out.new result }
{
    let taken = tally_sheet(sheet);
    let fault = refused_of(taken.outcome);
    if fault.number == 0 {
        return put_sheet(out, sheet.header, sheet.count, &taken.tally.figures);
    }
    put_refused(out, fault.number, fault.row, 0, 0)
}

// The same for tables of which only a part is used.
fn put_used(out: &mut [u8], header: Header, needs: Needs, lent: &Lent<'_>) -> usize
    requires used_fits { UsedFits needs (length lent.now.rows.now) (length lent.now.letters.now) (length lent.now.islands.now) (length lent.now.points.now) }
    requires points_in_bounds { length (sheet_listing header needs.rows (used_part needs (tables lent.now))) ≤ length out.old }
    ensures { Put out.old 0 (sheet_listing header needs.rows (used_part needs (tables lent.now))) out.new result }
{
    let used = Lent {
        rows: &lent.rows[..ROW_WIDTH * needs.rows],
        letters: &lent.letters[..needs.letters],
        islands: &lent.islands[..needs.islands],
        points: &lent.points[..2 * needs.points],
    };
    let sheet = Sheet {
        header,
        count: needs.rows,
        lent: used,
    };
    put_tallied(out, &sheet)
}

// What an input of at most 8,192 bytes reads as.
fn put_reading(src: &[u8], out: &mut [u8]) -> usize
    requires { (length src.now ≤ input_most) × (text_most ≤ length out.old) }
    ensures { Put out.old 0 (read_text (reading_column Loose src.now) (reading Loose src.now)) out.new result }
{
    let mut rows = [0i64; ROWS_ROOM];
    let mut letters = [0u8; LETTERS_ROOM];
    let mut islands = [0u16; ISLANDS_ROOM];
    let mut points = [0i64; POINTS_ROOM];
    let answer = read_as(
        Mode::Loose,
        src,
        &mut rows,
        &mut letters,
        &mut islands,
        &mut points,
    );
    match answer {
        Ok(Reading { header, needs }) => {
            let lent = Lent {
                rows: &rows,
                letters: &letters,
                islands: &islands,
                points: &points,
            };
            put_used(out, header, needs, &lent)
        }
        // The tables hold any such input.
        Err(Unread::NoRoom(_)) => 0,
        Err(Unread::Refused(stopped, column)) => put_refused(
            out,
            stopped.refusal.number(),
            stopped.record,
            stopped.offset,
            column,
        ),
    }
}

// The whole text.
fn put_listing(src: &[u8], out: &mut [u8]) -> usize
    requires { text_most ≤ length out.old }
    ensures { Put out.old 0 (listing_of src.now) out.new result }
{
    if src.len() > INPUT_MOST {
        return put_refused(out, Refusal::TooLong.number(), 0, 0, 0);
    }
    put_reading(src, out)
}

// A text at the start of `out`, where there is room.
fn put_text(text: &[u8], out: &mut [u8]) -> Result<usize, NoRoom>
    ensures value { result ≡ listed_of text.now (length out.old) }
    ensures out_after { out.new ≡ listed_in result text.now out.old }
{
    let size = text.len();
    if size > out.len() {
        return Err(NoRoom(size));
    }
    put_bytes(out, 0, text);
    Ok(size)
}

// Writes what the listing program writes for this input to the start of `out`, where there is room.
pub fn list_text(src: &[u8], out: &mut [u8]) -> Result<usize, NoRoom>
    ensures value { result ≡ listed_of (listing_of src.now) (length out.old) }
    ensures out_after { out.new ≡ listed_in result (listing_of src.now) out.old }
{
    let mut text = [0u8; TEXT_MOST];
    let size = put_listing(src, &mut text);
    put_text(&text[..size], out)
}

// A refusal's line at the start of `out`, where there is room.
pub fn refused_text(
    number: usize,
    place: usize,
    offset: usize,
    column: usize,
    out: &mut [u8],
) -> Result<usize, NoRoom>
    ensures value { result ≡ listed_of (refused_line number place offset column) (length out.old) }
    ensures out_after { out.new ≡ listed_in result (refused_line number place offset column) out.old }
{
    let mut text = [0u8; TEXT_MOST];
    let size = put_refused(&mut text, number, place, offset, column);
    put_text(&text[..size], out)
}
