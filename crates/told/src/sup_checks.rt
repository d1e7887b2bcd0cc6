// The answer to a SUP file that is checked (document 02, T-10), laid out.
ghost use Rattle.std.specs.Prelude.{◌≡◌};
ghost use Rattle.told.specs.SupChecks.{checked_laid, checked_told};

use record::refusal::Refusal;
use supcheck::Unaccepted;
use tally::refused_of;

#[repr(C)]
#[derive(Clone, Copy)]
pub struct CxfSupChecked {
    pub number: usize,
    pub row: usize,
    pub line: usize,
}

const WRONG_LINE: usize = 25;

fn checked_laid(number: usize, row: usize, line: usize) -> CxfSupChecked
    ensures { result ≡ checked_laid number row line }
{
    CxfSupChecked { number, row, line }
}

pub fn checked_told(a: Result<(), Unaccepted>) -> CxfSupChecked
    ensures { result ≡ checked_told a }
{
    match a {
        Ok(()) => checked_laid(0, 0, 0),
        Err(Unaccepted::Refused(untallied)) => {
            let f = refused_of(Err(untallied));
            checked_laid(f.number, f.row, 0)
        }
        Err(Unaccepted::PastTotal) => checked_laid(Refusal::PastLimit.number(), 0, 0),
        Err(Unaccepted::WrongLine(line)) => checked_laid(WRONG_LINE, 0, line),
    }
}
