// What a caller in another language asks and is told: the structs of `include/cxf.h`, and each answer laid out in one.
// All of it is proved, and no public function has a `requires`. `number` is 0 where the question was answered, else the refusal; a
// field that the answer does not name is 0.
#![tactic(auto)]

pub mod edits;
pub mod masks;
pub mod question;
pub mod sup_checks;
pub mod sup_files;
pub mod tallies;

ghost use Rattle.std.specs.Prelude.{◌≡◌, length};
ghost use Rattle.heading.specs.Heading.{no_header};
ghost use Rattle.told.specs.Asked.{mode_of, header_of};
ghost use Rattle.told.specs.Told.{reading_of, read_told, write_told, record_told, real_told, listed_told};

use heading::Header;
use listing::NoRoom;
use made::fault_of;
use reader::{Needs, Reading, Unread};
use record::refusal::Refusal;
use record::{Found, Mode};
use writer::Unwritten;

const NO_HEADER: Header = Header {
    kind: 0,
    name: [0; 11],
    scale: 0,
};

#[repr(C)]
#[derive(Clone, Copy, Default)]
pub struct CxfReading {
    pub number: usize,
    pub nth: usize,
    pub offset: usize,
    pub column: usize,
    pub rows: usize,
    pub letters: usize,
    pub islands: usize,
    pub points: usize,
    pub kind: usize,
    pub scale: i64,
    pub name: [u8; 11],
}

#[repr(C)]
#[derive(Clone, Copy)]
pub struct CxfWritten {
    pub number: usize,
    pub row: usize,
    pub length: usize,
}

#[repr(C)]
#[derive(Clone, Copy)]
pub struct CxfTile {
    pub number: usize,
    pub east: f32,
    pub south: f32,
}

#[repr(C)]
#[derive(Clone, Copy)]
pub struct CxfRecord {
    pub number: usize,
    pub start: usize,
    pub length: usize,
    pub next: usize,
}

#[repr(C)]
#[derive(Clone, Copy)]
pub struct CxfNumber {
    pub number: usize,
    pub column: usize,
    pub value: i64,
}

#[repr(C)]
#[derive(Clone, Copy)]
pub struct CxfListed {
    pub number: usize,
    pub length: usize,
}

// 0 is loose, 2 is the former reading, anything else is exact.
pub fn mode_of(mode: usize) -> Mode
    ensures { result ≡ mode_of mode }
{
    match mode {
        0 => Mode::Loose,
        2 => Mode::Former,
        _ => Mode::Exact,
    }
}

// A name of another length than 11 is a wrong name: no header, which is refused 6.
#[tactic(auto, unfolding(crate::specs::Asked::header_of))]
pub fn header_of(kind: usize, name: &[u8], scale: i64) -> Header
    ensures { result ≡ header_of kind name.now scale }
{
    match name.try_into() {
        Ok(name) => Header { kind, name, scale },
        Err(_) => NO_HEADER,
    }
}

// The counts of a sheet, with no header beside them.
fn counted(number: usize, counts: Needs) -> CxfReading
    ensures { result ≡ reading_of number 0 0 0 counts no_header }
{
    CxfReading {
        number,
        rows: counts.rows,
        letters: counts.letters,
        islands: counts.islands,
        points: counts.points,
        ..CxfReading::default()
    }
}

pub fn reading_of(answer: Result<Reading, Unread>) -> CxfReading
    ensures { result ≡ read_told answer }
{
    match answer {
        Ok(Reading { header, needs }) => {
            let Header { kind, name, scale } = header;
            CxfReading {
                kind,
                scale,
                name,
                ..counted(0, needs)
            }
        }
        Err(Unread::NoRoom(needs)) => counted(Refusal::NoRoom.number(), needs),
        Err(Unread::Refused(stopped, column)) => CxfReading {
            number: stopped.refusal.number(),
            nth: stopped.record,
            offset: stopped.offset,
            column,
            ..CxfReading::default()
        },
    }
}

pub fn record_told(answer: Result<Found, Refusal>) -> CxfRecord
    ensures { result ≡ record_told answer }
{
    match answer {
        Ok(found) => CxfRecord {
            number: 0,
            start: found.start,
            length: found.len,
            next: found.next,
        },
        Err(refusal) => CxfRecord {
            number: refusal.number(),
            start: 0,
            length: 0,
            next: 0,
        },
    }
}

// A number, or the column where its content is malformed.
pub fn number_told(answer: Result<i64, usize>) -> CxfNumber
    ensures { result ≡ real_told answer }
{
    match answer {
        Ok(value) => CxfNumber {
            number: 0,
            column: 0,
            value,
        },
        Err(column) => CxfNumber {
            number: Refusal::Number.number(),
            column,
            value: 0,
        },
    }
}

// The length of a text that was written, or that needs more room.
pub fn listed_told(answer: Result<usize, NoRoom>) -> CxfListed
    ensures { result ≡ listed_told answer }
{
    match answer {
        Ok(length) => CxfListed { number: 0, length },
        Err(NoRoom(length)) => CxfListed {
            number: Refusal::NoRoom.number(),
            length,
        },
    }
}

pub fn written_of(w: Result<usize, Unwritten>) -> CxfWritten
    ensures { result ≡ write_told w }
{
    match w {
        Ok(used) => CxfWritten {
            number: 0,
            row: 0,
            length: used,
        },
        Err(Unwritten::TooLong) => CxfWritten {
            number: Refusal::TooLong.number(),
            row: 0,
            length: 0,
        },
        Err(Unwritten::NoRoom(needed)) => CxfWritten {
            number: Refusal::NoRoom.number(),
            row: 0,
            length: needed,
        },
        Err(Unwritten::Refused(flaw)) => {
            let f = fault_of(Err(flaw));
            CxfWritten {
                number: f.number,
                row: f.row,
                length: 0,
            }
        }
    }
}
