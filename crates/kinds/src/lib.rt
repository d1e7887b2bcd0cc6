// The kinds of section (document 01, "Sections"): the fields of each in the file's order, and its listed codes.
// All of it is proved, and no public function has a `requires`. A kind is a row of the tables below, and a number of `nexts` and of `codes`.
#![tactic(auto)]

ghost use Rattle.std.specs.Prelude.{◌≡◌, true, [], get_or, eqb};
ghost use Rattle.std.specs.List.{list_any};
ghost use Rattle.laws.specs.Lists.{holds};
ghost use Rattle.kinds.specs.Kinds.{schedule, next_of, fixed_vertices, is_listed, want_at};
ghost use Rattle.kinds.specs.Digits.{are_nexts, are_codes};

use token::{KINDS, Want};

// A row of a sheet has 15 numbers: 12 that its section gives, and behind them where its letters, its island counts and its points begin.
pub const ROW_WIDTH: usize = 15;

pub const FIRST_LETTER_PLACE: usize = 12;

pub const FIRST_ISLAND_PLACE: usize = 13;

pub const FIRST_POINT_PLACE: usize = 14;

pub const OWN_WIDTH: usize = 12;

// The places of a row that are no integers.
const ANGLE_PLACE: usize = 4;

const SECOND_Y_PLACE: usize = 8;

const LETTERS_PLACE: usize = 9;

// The greatest code that is listed for any kind.
const CODE_MOST: usize = 35;

// By kind, from 0, its fields as places of its row, in the file's order.
const FIELDS: [&[u8]; 8] = [
    &[],
    &[9, 3, 4, 5, 6, 7, 8, 10, 11],
    &[9, 3, 4, 5, 6],
    &[2, 4, 5, 6],
    &[9, 2, 5, 6, 7, 8],
    &[2, 11],
    &[9],
    &[9, 2, 11],
];

// By kind, from 0, the vertices of a section that has no record of their count.
const FIXED: [u8; 8] = [0, 0, 0, 0, 0, 0, 4, 0];

// The order of a kind's fields as one number: hex digit p, from the right, is the place that follows place p in the file; digit 0 is the first field, and 0 stands after the last.
#[tactic(auto, unfolding(crate::specs::Digits::are_nexts, crate::specs::Kinds::next_of, crate::specs::Kinds::next_in, crate::specs::Kinds::schedule, laws::specs::Lists::below), using(crate::proofs::KindLaws::nexts_none))]
fn nexts(kind: usize) -> usize
    ensures { are_nexts kind result ≡ true }
{
    match kind {
        1 => 0x0B3A87654009,
        2 => 0x003000654009,
        3 => 0x000000650402,
        4 => 0x002087600509,
        5 => 0x000000000B02,
        6 => 0x000000000009,
        7 => 0x002000000B09,
        _ => 0,
    }
}

// The field of a kind after the one at a place, or 0.
pub fn next_field(kind: usize, place: usize) -> usize
    ensures { result ≡ next_of kind place }
{
    if place >= OWN_WIDTH {
        return 0;
    }
    (nexts(kind) >> (4 * place)) % 16
}

// The vertices of a section that has points and no record of their count, or 0.
pub fn fixed_vertices(kind: usize) -> usize
    ensures { result ≡ fixed_vertices kind }
{
    if kind > KINDS {
        return 0;
    }
    usize::from(FIXED[kind])
}

// One of the bytes is n.
fn is_in(list: &[u8], n: usize) -> bool
    ensures { result ≡ list_any (eqb n) list.now }
{
    list.iter().any(|&b| n == usize::from(b))
}

// The listed codes of a kind as one number: bit c, from the right, is 1 where code c is listed.
#[tactic(auto, unfolding(crate::specs::Digits::are_codes, crate::specs::Kinds::is_listed, crate::specs::Kinds::codes, laws::specs::Lists::below, laws::specs::Lists::holds), using(crate::proofs::KindLaws::codes_zero))]
fn codes(kind: usize) -> usize
    ensures { are_codes kind result ≡ true }
{
    match kind {
        3 => 0x00011EFFE,
        4 => 0x000100100,
        5 => 0xFE0001862,
        7 => 0x000000002,
        _ => 0,
    }
}

// A code that is listed for a kind.
pub fn is_listed(kind: usize, code: usize) -> bool
    ensures { result ≡ is_listed kind code }
{
    if code > CODE_MOST {
        return false;
    }
    (codes(kind) >> code) % 2 == 1
}

// The rows of a kind have a field at a place.
pub fn has_field(kind: usize, place: usize) -> bool
    ensures { result ≡ holds (get_or schedule kind []) place }
{
    if kind > KINDS {
        return false;
    }
    is_in(FIELDS[kind], place)
}

// The place of field j of a kind, from 0; 0 past the last.
pub fn field_at(kind: usize, j: usize) -> usize
    ensures { result ≡ get_or (get_or schedule kind []) j 0 }
{
    if kind > KINDS {
        return 0;
    }
    let fields = FIELDS[kind];
    if j >= fields.len() {
        return 0;
    }
    usize::from(fields[j])
}

// What a record is to be read as, by its place in the row.
#[tactic(auto, unfolding(crate::specs::Kinds::want_at))]
pub fn want_at(place: usize) -> Want
    ensures { result ≡ want_at place }
{
    match place {
        LETTERS_PLACE => Want::Text,
        ANGLE_PLACE..=SECOND_Y_PLACE => Want::Real,
        _ => Want::Int,
    }
}
