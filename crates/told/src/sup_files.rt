// The answer of a SUP file (document 02, T-01), laid out.
ghost use Rattle.std.specs.Prelude.{◌≡◌};
ghost use Rattle.told.specs.SupFiles.{sup_laid, sup_told};

use record::refusal::Refusal;
use sup::NoSup;
use tally::refused_of;

#[repr(C)]
#[derive(Clone, Copy)]
pub struct CxfSup {
    pub number: usize,
    pub row: usize,
    pub line: usize,
    pub length: usize,
}

fn sup_laid(number: usize, row: usize, line: usize, length: usize) -> CxfSup
    ensures { result ≡ sup_laid number row line length }
{
    CxfSup {
        number,
        row,
        line,
        length,
    }
}

pub fn sup_told(a: Result<usize, NoSup>) -> CxfSup
    ensures { result ≡ sup_told a }
{
    match a {
        Ok(used) => sup_laid(0, 0, 0, used),
        Err(NoSup::NoRoom(needed)) => sup_laid(Refusal::NoRoom.number(), 0, 0, needed),
        Err(NoSup::Refused(untallied)) => {
            let f = refused_of(Err(untallied));
            sup_laid(f.number, f.row, 0, 0)
        }
        Err(NoSup::BadDate) => sup_laid(Refusal::BadDate.number(), 0, 0, 0),
        Err(NoSup::CodeTooLong(row)) => sup_laid(Refusal::LongCode.number(), row, 0, 0),
        Err(NoSup::PastTotal) => sup_laid(Refusal::PastLimit.number(), 0, 0, 0),
        Err(NoSup::WideFigure(line)) => sup_laid(Refusal::WideFigure.number(), 0, line, 0),
    }
}
