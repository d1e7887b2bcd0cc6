// Well made sheets (document 01, "Sheet tables"; document 02, T-07, the starts): a sheet that is handed in is judged completely.
// All of it is proved, and no public function has a `requires`: a sheet is a header, a count of rows and four tables, of any
// contents and any lengths.
#![tactic(auto)]

mod numbers;
mod rings;

ghost use Rattle.std.specs.Prelude.{◌≡◌, ◌-◌, get_or, pos};
ghost use Rattle.made.specs.Made.{tables, none_before, nat_of, are_letters, sum, rest_of, is_made, is_coded, judge_rows, judge_of, fault_of};
ghost use Rattle.made.specs.Turn.{row_turn};

use crate::numbers::{are_numbers, are_starts};
use crate::rings::{are_counts, are_points};
use heading::{Header, is_header};
use kinds::{ROW_WIDTH, has_field, is_listed};
use record::refusal::Refusal;
use record::{Mode, is_exact, is_plain};

// The four tables of a sheet, or what is left of them from a row on.
#[derive(Clone, Copy)]
pub struct Lent<'a> {
    pub rows: &'a [i64],
    pub letters: &'a [u8],
    pub islands: &'a [u16],
    pub points: &'a [i64],
}

// A sheet that is handed in: its header, how many rows it has, and its tables.
#[derive(Clone, Copy)]
pub struct Sheet<'a> {
    pub header: Header,
    pub count: usize,
    pub lent: Lent<'a>,
}

// What is wrong with a sheet: its header (6); or the first row that is faulty (15), or whose code is not listed (10).
#[derive(Clone, Copy, Debug, PartialEq, Eq)]
pub enum Flaw {
    BadHeader,
    Faulty(usize),
    Unlisted(usize),
}

// A judgement in the paper's numbers: the refusal, or 0, and the row with 15 and 10.
#[derive(Clone, Copy)]
pub struct Fault {
    pub number: usize,
    pub row: usize,
}

// How many letters, island counts and points.
#[derive(Clone, Copy)]
struct Counts {
    letters: usize,
    islands: usize,
    points: usize,
}

const CODE_PLACE: usize = 2;

const LETTERS_PLACE: usize = 9;

const ISLANDS_PLACE: usize = 10;

const VERTICES_PLACE: usize = 11;

// A count; a number below 0 counts nothing.
pub fn count_of(z: i64) -> usize
    ensures { result ≡ nat_of z }
{
    z.max(0) as usize
}

// The count at a place of the first row; past the end there is none.
pub fn count_at(rows: &[i64], place: usize) -> usize
    ensures { result ≡ nat_of (get_or rows.now place (pos 0)) }
{
    rows.get(place).map_or(0, |&z| count_of(z))
}

// The first n letters are held: bytes 32 to 126, no blank at an end.
#[tactic(auto, unfolding(crate::specs::Made::are_letters))]
fn are_letters(n: usize, s: &[u8]) -> bool
    ensures { result ≡ are_letters n s.now }
{
    let Some(own) = s.get(..n) else {
        return false;
    };
    is_plain(own) && own.first() != Some(&b' ') && own.last() != Some(&b' ')
}

// The vertices that the islands leave for the outer ring; none where they are more.
#[tactic(auto, using(crate::proofs::TableWays::sums))]
pub fn outer_of(v: usize, s: &[u16]) -> usize
    ensures { result ≡ v - sum s.now }
{
    let mut rest = v;
    for &n in s {
        let n = usize::from(n);
        if rest < n {
            return 0;
        }
        rest -= n;
    }
    rest
}

// The first row of the tables is well made.
#[tactic(auto, using(crate::proofs::RowWays::parts), unfolding(crate::specs::Made::is_made))]
fn is_made(part: &Lent<'_>) -> bool
    ensures { result ≡ is_made (tables part.now) }
{
    let Lent {
        rows,
        letters,
        islands,
        points,
    } = *part;
    let kind = count_at(rows, 0);
    let i = count_at(rows, ISLANDS_PLACE);
    let v = count_at(rows, VERTICES_PLACE);
    are_numbers(rows)
        && are_letters(count_at(rows, LETTERS_PLACE), letters)
        && are_counts(kind, i, v, islands)
        && are_points(kind, v, &islands[..i], points)
}

// What is left of the tables behind their first row; past the end of one of them, none of it.
pub fn rest_of<'a>(part: &Lent<'a>) -> Lent<'a>
    ensures { tables result ≡ rest_of (tables part.now) }
{
    let letters = count_at(part.rows, LETTERS_PLACE);
    let islands = count_at(part.rows, ISLANDS_PLACE);
    let points = count_at(part.rows, VERTICES_PLACE).saturating_mul(2);
    Lent {
        rows: &part.rows[ROW_WIDTH.min(part.rows.len())..],
        letters: &part.letters[letters.min(part.letters.len())..],
        islands: &part.islands[islands.min(part.islands.len())..],
        points: &part.points[points.min(part.points.len())..],
    }
}

// A code that the mode takes.
#[tactic(auto, unfolding(crate::specs::Made::is_coded, crate::specs::Made::has_field))]
fn is_coded(mode: Mode, kind: usize, code: usize) -> bool
    ensures { result ≡ is_coded mode kind code }
{
    if !is_exact(mode) {
        return true;
    }
    !has_field(kind, CODE_PLACE) || is_listed(kind, code)
}

// The first row of the tables, number k, behind so many letters, island counts and points: 15, then 10, or how many it has itself.
#[tactic(auto, using(crate::proofs::RowWays::made_row), unfolding(crate::specs::Turn::row_turn))]
fn judge_row(mode: Mode, k: usize, before: Counts, part: &Lent<'_>) -> Result<Counts, Flaw>
    ensures { result ≡ row_turn mode k before (tables part.now) }
{
    if !is_made(part) || !are_starts(before, part.rows) {
        return Err(Flaw::Faulty(k));
    }
    if !is_coded(
        mode,
        count_at(part.rows, 0),
        count_at(part.rows, CODE_PLACE),
    ) {
        return Err(Flaw::Unlisted(k));
    }
    Ok(Counts {
        letters: count_at(part.rows, LETTERS_PLACE),
        islands: count_at(part.rows, ISLANDS_PLACE),
        points: count_at(part.rows, VERTICES_PLACE),
    })
}

// The rows in order, each on what the rows before it leave of the tables.
fn judge_rows(mode: Mode, count: usize, lent: &Lent<'_>) -> Result<(), Flaw>
    ensures { result ≡ judge_rows mode count none_before (tables lent.now) }
{
    let mut left = *lent;
    let mut before = Counts {
        letters: 0,
        islands: 0,
        points: 0,
    };
    for k in 0..count {
        let own = judge_row(mode, k, before, &left)?;
        left = Lent {
            rows: &left.rows[ROW_WIDTH..],
            letters: &left.letters[own.letters..],
            islands: &left.islands[own.islands..],
            points: &left.points[2 * own.points..],
        };
        before = Counts {
            letters: before.letters + own.letters,
            islands: before.islands + own.islands,
            points: before.points + own.points,
        };
    }
    Ok(())
}

// The header first, then every row.
#[tactic(auto, unfolding(crate::specs::Made::judge_of))]
pub fn judge(mode: Mode, sheet: &Sheet<'_>) -> Result<(), Flaw>
    ensures { result ≡ judge_of mode sheet.now.header sheet.now.count (tables sheet.now.lent) }
{
    if !is_header(sheet.header) {
        return Err(Flaw::BadHeader);
    }
    judge_rows(mode, sheet.count, &sheet.lent)
}

// What a judgement says in the paper's numbers.
pub fn fault_of(judged: Result<(), Flaw>) -> Fault
    ensures { result ≡ fault_of judged }
{
    match judged {
        Ok(()) => Fault { number: 0, row: 0 },
        Err(Flaw::BadHeader) => Fault {
            number: Refusal::Header.number(),
            row: 0,
        },
        Err(Flaw::Faulty(k)) => Fault {
            number: Refusal::NotMade.number(),
            row: k,
        },
        Err(Flaw::Unlisted(k)) => Fault {
            number: Refusal::Code.number(),
            row: k,
        },
    }
}
