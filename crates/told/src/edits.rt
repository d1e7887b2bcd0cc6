// The answer of an edit (document 02, T-08), laid out.
ghost use Rattle.std.specs.Prelude.{◌≡◌};
ghost use Rattle.told.specs.Edits.{edit_laid, edit_told};

use edit::Unedited;
use made::fault_of;
use record::refusal::Refusal;

const MOVED_OFF: usize = 24;

#[repr(C)]
#[derive(Clone, Copy)]
pub struct CxfEdited {
    pub number: usize,
    pub row: usize,
    pub count: usize,
}

fn edit_laid(number: usize, row: usize, count: usize) -> CxfEdited
    ensures { result ≡ edit_laid number row count }
{
    CxfEdited { number, row, count }
}

pub fn edit_told(a: Result<usize, Unedited>) -> CxfEdited
    ensures { result ≡ edit_told a }
{
    match a {
        Ok(count) => edit_laid(0, 0, count),
        Err(Unedited::Missing) => edit_laid(Refusal::NoSuch.number(), 0, 0),
        Err(Unedited::MovedOff) => edit_laid(MOVED_OFF, 0, 0),
        Err(Unedited::Refused(flaw)) => {
            let f = fault_of(Err(flaw));
            edit_laid(f.number, f.row, 0)
        }
    }
}
