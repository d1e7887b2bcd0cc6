// The borders that a SUP file lists, in its order (document 02, T-01 and T-10): a window at a time, as there is no room to sort them all.
// All of it is proved, and no public function has a `requires`: each answers for any rows. A row is handed on as the place where it
// stands; the order is that of letters and nets there, so a sheet has to be judged before it means anything.
#![tactic(auto)]

pub mod choosing;
pub mod comparing;

ghost use Rattle.std.specs.Prelude.{◌≡◌, [], ◌+◌, ◌^◌, ◌<◌, length};
ghost use Rattle.made.specs.Made.{tables, tables_of, letters_of};
ghost use Rattle.row.specs.Walk.{first_stand, left_at};
ghost use Rattle.order.specs.SupBorders.{sup_borders, first_long};
ghost use Rattle.order.specs.SupOrder.{net_left};
ghost use Rattle.order.specs.Windows.{window_width, window_of, Small, Shows};
ghost use Rattle.order.specs.WindowTurn.{since_letters};

use crate::choosing::{is_in_sup, is_long, is_within, joins_window};
use crate::comparing::is_before;
use area::net_of;
use border::is_border;
use heading::Header;
use made::{Lent, Sheet, count_at};
use row::{Stand, left_at, stand_next};

// The first `count` of the items, in order; behind them there is room for one that falls off.
#[derive(Clone, Copy)]
pub struct Window {
    pub items: [Stand; 385],
    pub count: usize,
}

const WIDTH: usize = 384;

const LETTERS_PLACE: usize = 9;

const ISLANDS_PLACE: usize = 10;

const VERTICES_PLACE: usize = 11;

// The letters of the row at a stand; of those that the tables lack, none.
pub fn letters_at<'a>(rows: &[i64], letters: &'a [u8], d: Stand) -> &'a [u8]
    ensures { result.now ≡ letters_of (left_at (tables_of rows.now letters.now [] []) d) }
{
    let left = &letters[d.letters.min(letters.len())..];
    let n = count_at(&rows[d.row.min(rows.len())..], LETTERS_PLACE);
    &left[..n.min(left.len())]
}

// The net of the first row; 0 where it has none.
#[tactic(auto, unfolding(crate::specs::SupOrder::net_left, area::specs::Questions::net_area_of))]
fn net_left(part: &Lent<'_>) -> i64
    ensures { result ≡ net_left (tables part.now) }
{
    if !is_border(part.rows) {
        return 0;
    }
    let n = count_at(part.rows, ISLANDS_PLACE).min(part.islands.len());
    let vertices = count_at(part.rows, VERTICES_PLACE);
    net_of(vertices, &part.islands[..n], part.points).unwrap_or(0)
}

// The doubled net of the border at a stand; 0 where there is none, or a ring is too wide.
pub fn net_at(lent: &Lent<'_>, d: Stand) -> i64
    ensures { result ≡ net_left (left_at (tables lent.now) d) }
{
    net_left(&left_at(lent, d))
}

// Before the first row.
fn first_stand() -> Stand
    ensures { result ≡ first_stand }
{
    Stand {
        row: 0,
        letters: 0,
        islands: 0,
        points: 0,
    }
}

// No table is longer than a number of the code, so that a walk over rows that were judged never wraps. It does nothing: a proof that calls it has
// the lengths of slices in a struct, which it does not find by itself.
pub fn sized(lent: &Lent<'_>)
    ensures small { Small (tables lent.now) }
    ensures few { length lent.now.rows.now < 2 ^ 60 }
{}

// A function of its own, so that no goal has 385 items written out.
fn empty_items() -> [Stand; 385]
    ensures { length result ≡ window_width + 1 }
{
    [first_stand(); 385]
}

// The letters of the border that was had last; where there is none yet, no letters, which none come before.
#[tactic(auto, unfolding(crate::specs::WindowTurn::since_letters))]
fn since_letters<'a>(rows: &[i64], letters: &'a [u8], since: Option<Stand>) -> &'a [u8]
    ensures { result.now ≡ since_letters (tables_of rows.now letters.now [] []) since }
{
    match since {
        None => &letters[..0],
        Some(e) => letters_at(rows, letters, e),
    }
}

// The listed borders in order, from past `since` on, as many as a window holds: a walk over the rows. A row is put in at its place,
// which is found by halves, and what stands behind is carried on by one. (A function of its own would copy the items at each call.)
// The guide is a caller's guess at letters that no border of the window comes after; empty is no guess. It makes the walk short, and never
// changes the answer: rows after it are passed by, and where the window is not full then, the walk is made once more without it.
pub fn guided_window(sheet: &Sheet<'_>, since: Option<Stand>, guide: &[u8]) -> Window
    ensures { Shows result (window_of sheet.now.header sheet.now.count (tables sheet.now.lent) since) }
{
    let lent = sheet.lent;
    let from = since_letters(lent.rows, lent.letters, since);
    let mut guided = guide.len() > 0;
    loop {
        let mut items = empty_items();
        let mut n = 0;
        let mut d = first_stand();
        for _ in 0..sheet.count {
            if is_within(letters_at(lent.rows, lent.letters, d), from, guide, guided) {
                let last = items[383];
                if joins_window(sheet, since, n, last, d) {
                    let mut low = 0;
                    let mut high = n;
                    while low < high {
                        let middle = low + (high - low) / 2;
                        let e = items[middle];
                        if is_before(&lent, d, e) {
                            high = middle;
                        } else {
                            low = middle + 1;
                        }
                    }
                    let mut carried = d;
                    for i in low..n {
                        let e = items[i];
                        items[i] = carried;
                        carried = e;
                    }
                    items[n] = carried;
                    n = (n + 1).min(WIDTH);
                }
            }
            d = stand_next(lent.rows, d);
        }
        if n == WIDTH || !guided {
            return Window { items, count: n };
        }
        guided = false;
    }
}

// The same with no guide.
pub fn next_window(sheet: &Sheet<'_>, since: Option<Stand>) -> Window
    ensures { Shows result (window_of sheet.now.header sheet.now.count (tables sheet.now.lent) since) }
{
    guided_window(sheet, since, &[])
}

// How many borders are listed.
pub fn sup_count(header: Header, count: usize, rows: &[i64], letters: &[u8]) -> usize
    ensures { result ≡ length (sup_borders header count (tables_of rows.now letters.now [] [])) }
{
    let mut n = 0;
    let mut d = first_stand();
    for _ in 0..count {
        if is_in_sup(header, rows, letters, d) {
            n += 1;
        }
        d = stand_next(rows, d);
    }
    n
}

// The first row, from 0, whose border is listed and whose code is too long (22).
pub fn first_long(header: Header, count: usize, rows: &[i64], letters: &[u8]) -> Option<usize>
    ensures { result ≡ first_long header count (tables_of rows.now letters.now [] []) }
{
    let mut d = first_stand();
    for k in 0..count {
        if is_long(header, rows, letters, d) {
            return Some(k);
        }
        d = stand_next(rows, d);
    }
    None
}
