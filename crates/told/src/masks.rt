// The answer of a mask (document 02, T-03), laid out.
ghost use Rattle.std.specs.Prelude.{◌≡◌};
ghost use Rattle.told.specs.Masks.{mask_figures_laid, mask_figures_of, mask_told};

use made::fault_of;
use mask::{Mask, Unmasked};
use record::refusal::Refusal;

const BAD_SIDE: usize = 26;

#[repr(C)]
#[derive(Clone, Copy)]
pub struct CxfMask {
    pub number: usize,
    pub row: usize,
    pub rows: [u64; 64],
    pub covered: usize,
}

// What is told beside the rows.
#[derive(Clone, Copy)]
struct MaskFigures {
    number: usize,
    row: usize,
    covered: usize,
}

fn mask_laid(number: usize, row: usize, covered: usize) -> MaskFigures
    ensures { result ≡ mask_figures_laid number row covered }
{
    MaskFigures {
        number,
        row,
        covered,
    }
}

fn mask_figures(a: Result<usize, Unmasked>) -> MaskFigures
    ensures { result ≡ mask_figures_of a }
{
    match a {
        Ok(covered) => mask_laid(0, 0, covered),
        Err(Unmasked::BadSide) => mask_laid(BAD_SIDE, 0, 0),
        Err(Unmasked::Wide) => mask_laid(Refusal::TooWide.number(), 0, 0),
        Err(Unmasked::OffGrid) => mask_laid(Refusal::OffTile.number(), 0, 0),
        Err(Unmasked::Missing) => mask_laid(Refusal::NoSuch.number(), 0, 0),
        Err(Unmasked::Refused(flaw)) => {
            let f = fault_of(Err(flaw));
            mask_laid(f.number, f.row, 0)
        }
    }
}

pub fn mask_told(m: Mask) -> CxfMask
    ensures { result ≡ mask_told m }
{
    let f = mask_figures(m.answer);
    // A proof of a literal takes an array by a variable alone.
    let rows = m.rows;
    CxfMask {
        number: f.number,
        row: f.row,
        rows,
        covered: f.covered,
    }
}
