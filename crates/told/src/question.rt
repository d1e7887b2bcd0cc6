// Answers to questions about a sheet that is handed in (document 01, "Border classes", "Areas" and "Ring check"), laid out.
ghost use Rattle.std.specs.Prelude.{◌≡◌, Ok};
ghost use Rattle.told.specs.Answers.{no_border, border_told, text_told, area_told, no_ring, ring_told};

use area::AreaRefusal;
use border::{Border, Text};
use classes::index_of;
use crossing::FaultyPair;
use made::fault_of;
use record::refusal::Refusal;
use row::Unfound;

#[repr(C)]
#[derive(Clone, Copy)]
pub struct CxfBorder {
    pub number: usize,
    pub row: usize,
    pub class: usize,
    pub size: i64,
    pub angle: i64,
    pub x: i64,
    pub y: i64,
    pub x2: i64,
    pub y2: i64,
    pub letters: usize,
    pub islands: usize,
    pub vertices: usize,
}

#[repr(C)]
#[derive(Clone, Copy)]
pub struct CxfText {
    pub number: usize,
    pub row: usize,
    pub surface: usize,
    pub centroid: usize,
}

#[repr(C)]
#[derive(Clone, Copy)]
pub struct CxfArea {
    pub number: usize,
    pub row: usize,
    pub doubled: i64,
}

#[repr(C)]
#[derive(Clone, Copy)]
pub struct CxfRing {
    pub number: usize,
    pub row: usize,
    pub simple: usize,
    pub first: usize,
    pub second: usize,
}

fn border_refused(number: usize, row: usize) -> CxfBorder
    ensures { result ≡ no_border number row }
{
    CxfBorder {
        number,
        row,
        class: 0,
        size: 0,
        angle: 0,
        x: 0,
        y: 0,
        x2: 0,
        y2: 0,
        letters: 0,
        islands: 0,
        vertices: 0,
    }
}

fn border_laid(b: Border) -> CxfBorder
    ensures { result ≡ border_told (Ok b) }
{
    CxfBorder {
        number: 0,
        row: 0,
        class: index_of(b.class) + 1,
        size: b.size,
        angle: b.angle,
        x: b.x,
        y: b.y,
        x2: b.x2,
        y2: b.y2,
        letters: b.letters,
        islands: b.islands,
        vertices: b.vertices,
    }
}

pub fn border_of(a: Result<Border, Unfound>) -> CxfBorder
    ensures { result ≡ border_told a }
{
    match a {
        Ok(b) => border_laid(b),
        Err(Unfound::Missing) => border_refused(Refusal::NoSuch.number(), 0),
        Err(Unfound::Refused(flaw)) => {
            let f = fault_of(Err(flaw));
            border_refused(f.number, f.row)
        }
    }
}

pub fn text_of(a: Result<Text, Unfound>) -> CxfText
    ensures { result ≡ text_told a }
{
    match a {
        Ok(t) => CxfText {
            number: 0,
            row: 0,
            surface: usize::from(t.surface),
            centroid: usize::from(t.centroid),
        },
        Err(Unfound::Missing) => CxfText {
            number: Refusal::NoSuch.number(),
            row: 0,
            surface: 0,
            centroid: 0,
        },
        Err(Unfound::Refused(flaw)) => {
            let f = fault_of(Err(flaw));
            CxfText {
                number: f.number,
                row: f.row,
                surface: 0,
                centroid: 0,
            }
        }
    }
}

pub fn area_of(a: Result<i64, AreaRefusal>) -> CxfArea
    ensures { result ≡ area_told a }
{
    match a {
        Ok(doubled) => CxfArea {
            number: 0,
            row: 0,
            doubled,
        },
        Err(AreaRefusal::Wide) => CxfArea {
            number: Refusal::TooWide.number(),
            row: 0,
            doubled: 0,
        },
        Err(AreaRefusal::Missing) => CxfArea {
            number: Refusal::NoSuch.number(),
            row: 0,
            doubled: 0,
        },
        Err(AreaRefusal::Refused(flaw)) => {
            let f = fault_of(Err(flaw));
            CxfArea {
                number: f.number,
                row: f.row,
                doubled: 0,
            }
        }
    }
}

fn ring_refused(number: usize, row: usize) -> CxfRing
    ensures { result ≡ no_ring number row }
{
    CxfRing {
        number,
        row,
        simple: 0,
        first: 0,
        second: 0,
    }
}

pub fn ring_of(a: Result<Option<FaultyPair>, AreaRefusal>) -> CxfRing
    ensures { result ≡ ring_told a }
{
    match a {
        Ok(None) => CxfRing {
            number: 0,
            row: 0,
            simple: 1,
            first: 0,
            second: 0,
        },
        Ok(Some(pair)) => CxfRing {
            number: 0,
            row: 0,
            simple: 0,
            first: pair.first,
            second: pair.second,
        },
        Err(AreaRefusal::Wide) => ring_refused(Refusal::TooWide.number(), 0),
        Err(AreaRefusal::Missing) => ring_refused(Refusal::NoSuch.number(), 0),
        Err(AreaRefusal::Refused(flaw)) => {
            let f = fault_of(Err(flaw));
            ring_refused(f.number, f.row)
        }
    }
}
