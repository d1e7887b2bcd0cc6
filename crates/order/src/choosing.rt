// Which rows are listed, which of these have a code that is too long, and which a window looks at and takes.
ghost use Rattle.std.specs.Prelude.{◌≡◌, []};
ghost use Rattle.made.specs.Made.{tables, tables_of};
ghost use Rattle.row.specs.Walk.{left_at};
ghost use Rattle.order.specs.SupBorders.{is_wanted, is_in_sup, is_long};
ghost use Rattle.order.specs.WindowTurn.{is_within, joins_window};

use crate::comparing::{is_before, is_later, is_past};
use crate::letters_at;
use border::{Border, border_of, is_border};
use classes::Class;
use heading::Header;
use made::Sheet;
use row::Stand;

const WIDTH: usize = 384;

// The kind of a union sheet.
const UNION: usize = 3;

// A code has 11 places in its line.
const CODE_MOST: usize = 11;

// By the class that the border carries: a union sheet lists OTHER in place of PARCEL.
fn is_wanted(kind: usize, border: Border) -> bool
    ensures { result ≡ is_wanted kind border }
{
    match border.class {
        Class::Other => kind == UNION,
        Class::Parcel => kind != UNION,
        Class::Confine | Class::Road | Class::Water | Class::Building => false,
    }
}

// The row at a stand is a border that is listed.
#[tactic(auto, unfolding(crate::specs::SupBorders::is_in_sup, border::specs::Borders::border_of))]
pub fn is_in_sup(header: Header, rows: &[i64], letters: &[u8], d: Stand) -> bool
    ensures { result ≡ is_in_sup header (left_at (tables_of rows.now letters.now [] []) d) }
{
    let left = &rows[d.row.min(rows.len())..];
    is_border(left)
        && is_wanted(
            header.kind,
            border_of(header, left, &letters[d.letters.min(letters.len())..]),
        )
}

// It is listed, and its code is too long for a line.
#[tactic(auto, unfolding(crate::specs::SupBorders::is_long))]
pub(crate) fn is_long(header: Header, rows: &[i64], letters: &[u8], d: Stand) -> bool
    ensures { result ≡ is_long header (left_at (tables_of rows.now letters.now [] []) d) }
{
    is_in_sup(header, rows, letters, d) && letters_at(rows, letters, d).len() > CODE_MOST
}

// Letters that do not come before `from` nor, on a guided walk, after the guide: most rows fail this, and need no more.
#[tactic(auto, unfolding(crate::specs::WindowTurn::is_within, crate::specs::WindowTurn::is_up_to))]
pub(crate) fn is_within(code: &[u8], from: &[u8], guide: &[u8], guided: bool) -> bool
    ensures { result ≡ is_within from.now guide.now guided code.now }
{
    !is_later(from, code) && !(guided && is_later(code, guide))
}

// It is past `since`, comes before the last of a full window, and is listed: most rows fail one of the first two, which cost less.
#[tactic(auto, unfolding(crate::specs::WindowTurn::joins_window, crate::specs::SupBorders::is_in_sup, border::specs::Borders::border_of))]
pub(crate) fn joins_window(
    sheet: &Sheet<'_>,
    since: Option<Stand>,
    n: usize,
    last: Stand,
    d: Stand,
) -> bool
    ensures { result ≡ joins_window sheet.now.header (tables sheet.now.lent) since n last d }
{
    let lent = sheet.lent;
    is_past(&lent, since, d)
        && (n < WIDTH || is_before(&lent, d, last))
        && is_in_sup(sheet.header, lent.rows, lent.letters, d)
}
