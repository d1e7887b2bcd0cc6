// Border classes and texts (document 01, "Border classes"): what a row says as a border, or as a text.
// All of it is proved, and no public function has a `requires`. Where a row is handed in as the front of two tables, numbers that
// are not held are 0, and of its letters those count that are held.
#![tactic(auto)]

ghost use Rattle.std.specs.Prelude.{◌≡◌, [], get_or, pos};
ghost use Rattle.made.specs.Made.{tables, tables_of, letters_of};
ghost use Rattle.border.specs.Borders.{is_border, border_with, border_of, text_of};
ghost use Rattle.border.specs.BorderAt.{border_at};
ghost use Rattle.border.specs.TextAt.{text_at};

use classes::{Class, class_of, is_surface};
use heading::Header;
use made::{Sheet, count_at};
use row::{Unfound, left_at, seek};

// A border row: its class, size and angle, its text's point and its inner point, and how many letters, islands and vertices it has.
#[derive(Clone, Copy)]
pub struct Border {
    pub class: Class,
    pub size: i64,
    pub angle: i64,
    pub x: i64,
    pub y: i64,
    pub x2: i64,
    pub y2: i64,
    pub letters: usize,
    pub islands: usize,
    pub vertices: usize,
}

// A text row may be a surface right, a raster parcel's centroid, or both.
#[derive(Clone, Copy)]
pub struct Text {
    pub surface: bool,
    pub centroid: bool,
}

const SIZE_PLACE: usize = 3;

const ANGLE_PLACE: usize = 4;

const X_PLACE: usize = 5;

const Y_PLACE: usize = 6;

const X2_PLACE: usize = 7;

const Y2_PLACE: usize = 8;

const LETTERS_PLACE: usize = 9;

const ISLANDS_PLACE: usize = 10;

const VERTICES_PLACE: usize = 11;

// The number at a place of the first row; past the end it is 0.
fn cell_at(rows: &[i64], place: usize) -> i64
    ensures { result ≡ get_or rows.now place (pos 0) }
{
    rows.get(place).copied().unwrap_or(0)
}

// The first row's letters, at the front of `letters`; of them those that are held.
fn own_letters<'a>(rows: &[i64], letters: &'a [u8]) -> &'a [u8]
    ensures { result.now ≡ letters_of (tables_of rows.now letters.now [] []) }
{
    &letters[..count_at(rows, LETTERS_PLACE).min(letters.len())]
}

// The first row is a border.
pub fn is_border(rows: &[i64]) -> bool
    ensures { result ≡ is_border (tables_of rows.now [] [] []) }
{
    count_at(rows, 0) == 1
}

// The first row as a border of this class.
pub fn border_with(class: Class, rows: &[i64]) -> Border
    ensures { result ≡ border_with class (tables_of rows.now [] [] []) }
{
    Border {
        class,
        size: cell_at(rows, SIZE_PLACE),
        angle: cell_at(rows, ANGLE_PLACE),
        x: cell_at(rows, X_PLACE),
        y: cell_at(rows, Y_PLACE),
        x2: cell_at(rows, X2_PLACE),
        y2: cell_at(rows, Y2_PLACE),
        letters: count_at(rows, LETTERS_PLACE),
        islands: count_at(rows, ISLANDS_PLACE),
        vertices: count_at(rows, VERTICES_PLACE),
    }
}

// The first row as a border, its letters at the front of `letters`.
#[tactic(auto, unfolding(crate::specs::Borders::border_of))]
pub fn border_of(header: Header, rows: &[i64], letters: &[u8]) -> Border
    ensures { result ≡ border_of header (tables_of rows.now letters.now [] []) }
{
    border_with(class_of(header, own_letters(rows, letters)), rows)
}

// What the first row says as a text, its letters at the front of `letters`.
#[tactic(auto, unfolding(crate::specs::Borders::text_of))]
pub fn text_of(rows: &[i64], letters: &[u8]) -> Text
    ensures { result ≡ text_of (tables_of rows.now letters.now [] []) }
{
    let is_text = count_at(rows, 0) == 2;
    Text {
        surface: is_text && is_surface(own_letters(rows, letters)),
        centroid: is_text && cell_at(rows, SIZE_PLACE) == 0,
    }
}

// The border of row `row` of a sheet; a row that is no border is refused as a missing one (19).
#[tactic(auto, unfolding(crate::specs::BorderAt::border_at, crate::specs::Borders::border_of))]
pub fn border_at(sheet: &Sheet<'_>, row: usize) -> Result<Border, Unfound>
    ensures { result ≡ border_at sheet.now.header sheet.now.count (tables sheet.now.lent) row }
{
    let own = left_at(&sheet.lent, seek(sheet, row)?);
    if !is_border(own.rows) {
        return Err(Unfound::Missing);
    }
    Ok(border_of(sheet.header, own.rows, own.letters))
}

// What row `row` of a sheet says as a text.
#[tactic(auto, unfolding(crate::specs::TextAt::text_at, crate::specs::Borders::text_of))]
pub fn text_at(sheet: &Sheet<'_>, row: usize) -> Result<Text, Unfound>
    ensures { result ≡ text_at sheet.now.header sheet.now.count (tables sheet.now.lent) row }
{
    let own = left_at(&sheet.lent, seek(sheet, row)?);
    Ok(text_of(own.rows, own.letters))
}
