// The reader of a sheet (document 01, "Sheet tables"): the whole file is judged, then the room, then the tables are written.
// All of it is proved, and no public function has a `requires`. A refusal alters nothing that was lent, and past the used
// part no table is altered. There is no scratch array: the size of a ring is read again from the file when the one before it ends.
#![tactic(auto)]

mod cells;
mod first_pass;
mod first_runs;
mod heads;
mod pieces;
mod ring_runs;
mod second_pass;
mod second_runs;
mod turns;
mod whole_rows;

ghost use Rattle.std.specs.Prelude.{◌≡◌, length};
ghost use Rattle.record.specs.declared.Mode.TheVariants.{Exact};
ghost use Rattle.sheet.specs.Reading.{reading};
ghost use Rattle.reader.specs.Columns.{located_in};
ghost use Rattle.reader.specs.Read.{rooms_of, holds_all, read_of, tables_in, written};

use crate::first_pass::judge;
use crate::second_pass::fill;
use column::column_at;
use header::{Headed, Stopped, header_at};
use heading::Header;
use kinds::ROW_WIDTH;
use machine::State;
use record::refusal::Refusal;
use record::{FILE_MOST, Mode};
use token::Want;

// How many rows, letters, island counts and points a file needs.
#[derive(Clone, Copy, Debug, PartialEq, Eq)]
pub struct Needs {
    pub rows: usize,
    pub letters: usize,
    pub islands: usize,
    pub points: usize,
}

// Where a walk over the records stands: the machine's state, the place and the number of the next record, the place of
// the next ring's size, and what was read so far.
#[derive(Clone, Copy)]
struct ReadStand {
    pub state: State,
    pub at: usize,
    pub nth: usize,
    pub ring: usize,
    pub needs: Needs,
}

// One record further, with its token and its content's length.
#[derive(Clone, Copy)]
struct Turn {
    pub stand: ReadStand,
    pub token: usize,
    pub len: usize,
}

// A sheet that is read: its header, and what it used of each table.
#[derive(Clone, Copy)]
pub struct Reading {
    pub header: Header,
    pub needs: Needs,
}

// Why a sheet is not read: no room (14), with what is needed; or refused where it stands, with the column: 0 but where a number is malformed (8).
#[derive(Clone, Copy, Debug, PartialEq, Eq)]
pub enum Unread {
    NoRoom(Needs),
    Refused(Stopped, usize),
}

// A ring's size, and the bytes of the record that says it. (No Option: where none is said, the machine and the place of the next size go by 0 of each.)
#[derive(Clone, Copy)]
struct Size {
    pub n: usize,
    pub width: usize,
}

// What a field of a row says, and its record's bytes.
#[derive(Clone, Copy)]
struct Said {
    pub token: usize,
    pub width: usize,
}

// A vertex that was read, and the place behind it.
#[derive(Clone, Copy)]
struct First {
    pub x: usize,
    pub y: usize,
    pub next: usize,
}

// What two records one behind the other say, and the place behind them.
#[derive(Clone, Copy)]
struct TwoSaid {
    pub first: usize,
    pub second: usize,
    pub next: usize,
}

// Two vertices that were read one behind the other, and the place behind them.
#[derive(Clone, Copy)]
struct TwoPoints {
    pub x: usize,
    pub y: usize,
    pub x2: usize,
    pub y2: usize,
    pub next: usize,
}

// A row from its keyword up to its vertices: what its records say, 0 where it has none; where its letters stand; the place behind, and how
// many records they are.
#[derive(Clone, Copy)]
struct RowHead {
    pub token: usize,
    pub letters: usize,
    pub word: usize,
    pub number: usize,
    pub angle: usize,
    pub x: usize,
    pub y: usize,
    pub x2: usize,
    pub y2: usize,
    pub islands: usize,
    pub vertices: usize,
    pub records: usize,
    pub next: usize,
}

// Every table is long enough: 15 numbers a row, two a point.
#[tactic(auto, unfolding(crate::specs::Read::holds_all))]
fn has_room(a: Needs, rows: usize, letters: usize, islands: usize, points: usize) -> bool
    ensures { result ≡ holds_all a (rooms_of rows letters islands points) }
{
    a.rows <= rows / ROW_WIDTH
        && a.letters <= letters
        && a.islands <= islands
        && a.points <= points / 2
}

// A refusal with its column, by what its record was to be read as.
fn located(src: &[u8], mode: Mode, want: Want, stopped: Stopped) -> Unread
    ensures { result ≡ located_in mode src.now want stopped }
{
    let column = column_at(src, stopped.offset, mode, want, stopped.refusal.number());
    Unread::Refused(stopped, column)
}

// Reads a sheet in the mode that is named, into the tables that are lent.
pub fn read_as(
    mode: Mode,
    src: &[u8],
    rows: &mut [i64],
    letters: &mut [u8],
    islands: &mut [u16],
    points: &mut [i64],
) -> Result<Reading, Unread>
    ensures value { result ≡ read_of mode src.now (rooms_of (length rows.old) (length letters.old) (length islands.old) (length points.old)) }
    ensures rows_after { rows.new ≡ written result (tables_in (reading mode src.now)).rows rows.old }
    ensures letters_after { letters.new ≡ written result (tables_in (reading mode src.now)).letters letters.old }
    ensures islands_after { islands.new ≡ written result (tables_in (reading mode src.now)).islands islands.old }
    ensures points_after { points.new ≡ written result (tables_in (reading mode src.now)).points points.old }
{
    if src.len() > FILE_MOST {
        let stopped = Stopped {
            refusal: Refusal::TooLong,
            record: 0,
            offset: 0,
        };
        return Err(Unread::Refused(stopped, 0));
    }
    let Headed { header, at } = match header_at(src, mode) {
        Ok(headed) => headed,
        Err(stopped) => return Err(located(src, mode, Want::Real, stopped)),
    };
    let needs = judge(src, mode, at)?;
    if !has_room(
        needs,
        rows.len(),
        letters.len(),
        islands.len(),
        points.len(),
    ) {
        return Err(Unread::NoRoom(needs));
    }
    fill(src, mode, at, rows, letters, islands, points);
    Ok(Reading { header, needs })
}

// A reading that names no mode is exact (document 02, T-12).
pub fn read(
    src: &[u8],
    rows: &mut [i64],
    letters: &mut [u8],
    islands: &mut [u16],
    points: &mut [i64],
) -> Result<Reading, Unread>
    ensures value { result ≡ read_of Exact src.now (rooms_of (length rows.old) (length letters.old) (length islands.old) (length points.old)) }
    ensures rows_after { rows.new ≡ written result (tables_in (reading Exact src.now)).rows rows.old }
    ensures letters_after { letters.new ≡ written result (tables_in (reading Exact src.now)).letters letters.old }
    ensures islands_after { islands.new ≡ written result (tables_in (reading Exact src.now)).islands islands.old }
    ensures points_after { points.new ≡ written result (tables_in (reading Exact src.now)).points points.old }
{
    read_as(Mode::Exact, src, rows, letters, islands, points)
}
