// What the conversion program writes (document 02, T-09): the clean file of a file of the first year, read in the former mode, or a refusal.
// All of it is proved, and no public function has a `requires`. The tables are local and hold any input that is read, so that
// no room (14) is only ever said of the buffer that is lent for the text; it is then not altered.
#![tactic(auto)]

ghost use Rattle.std.specs.Prelude.{◌≡◌, ◌≤◌, length};
ghost use Rattle.record.specs.declared.Mode.TheVariants.{Former};
ghost use Rattle.record.specs.Refusals.{file_most};
ghost use Rattle.sheet.specs.Reading.{reading};
ghost use Rattle.reader.specs.Columns.{reading_column};
ghost use Rattle.made.specs.Made.{tables};
ghost use Rattle.layout.specs.Sheet.{sheet_text};
ghost use Rattle.listing.specs.Listing.{input_most};
ghost use Rattle.listing.specs.Listed.{listed_of, listed_in};
ghost use Rattle.conversion.specs.Conversion.{clean_text, converted_text, conversion_of};

use listing::{
    INPUT_MOST, ISLANDS_ROOM, LETTERS_ROOM, NoRoom, POINTS_ROOM, ROWS_ROOM, refused_text,
};
use made::{Lent, Sheet, fault_of};
use reader::{Reading, Unread, read_as};
use record::Mode;
use record::refusal::Refusal;
use writer::{Unwritten, write};

// No conversion is longer.
pub const CLEAN_MOST: usize = 53248;

// The clean file of a sheet, or the writer's refusal as a line.
fn clean_text(sheet: &Sheet<'_>, out: &mut [u8]) -> Result<usize, NoRoom>
    requires { length (sheet_text sheet.now.header sheet.now.count (tables sheet.now.lent)) ≤ file_most }
    ensures value { result ≡ listed_of (clean_text sheet.now.header sheet.now.count (tables sheet.now.lent)) (length out.old) }
    ensures out_after { out.new ≡ listed_in result (clean_text sheet.now.header sheet.now.count (tables sheet.now.lent)) out.old }
{
    match write(sheet, out) {
        Ok(used) => Ok(used),
        Err(Unwritten::NoRoom(needed)) => Err(NoRoom(needed)),
        // No text of such a sheet is so long.
        Err(Unwritten::TooLong) => Err(NoRoom(0)),
        Err(Unwritten::Refused(flaw)) => {
            let fault = fault_of(Err(flaw));
            refused_text(fault.number, fault.row, 0, 0, out)
        }
    }
}

// What an input of at most 8,192 bytes is converted to.
fn converted_text(src: &[u8], out: &mut [u8]) -> Result<usize, NoRoom>
    requires { length src.now ≤ input_most }
    ensures value { result ≡ listed_of (converted_text (reading_column Former src.now) (reading Former src.now)) (length out.old) }
    ensures out_after { out.new ≡ listed_in result (converted_text (reading_column Former src.now) (reading Former src.now)) out.old }
{
    let mut rows = [0i64; ROWS_ROOM];
    let mut letters = [0u8; LETTERS_ROOM];
    let mut islands = [0u16; ISLANDS_ROOM];
    let mut points = [0i64; POINTS_ROOM];
    let answer = read_as(
        Mode::Former,
        src,
        &mut rows,
        &mut letters,
        &mut islands,
        &mut points,
    );
    match answer {
        Ok(Reading { header, needs }) => {
            let lent = Lent {
                rows: &rows,
                letters: &letters,
                islands: &islands,
                points: &points,
            };
            let sheet = Sheet {
                header,
                count: needs.rows,
                lent,
            };
            clean_text(&sheet, out)
        }
        // The tables hold any such input.
        Err(Unread::NoRoom(_)) => Err(NoRoom(0)),
        Err(Unread::Refused(stopped, column)) => refused_text(
            stopped.refusal.number(),
            stopped.record,
            stopped.offset,
            column,
            out,
        ),
    }
}

// Writes what the conversion program writes for this input to the start of `out`, where there is room.
pub fn convert_text(src: &[u8], out: &mut [u8]) -> Result<usize, NoRoom>
    ensures value { result ≡ listed_of (conversion_of src.now) (length out.old) }
    ensures out_after { out.new ≡ listed_in result (conversion_of src.now) out.old }
{
    if src.len() > INPUT_MOST {
        return refused_text(Refusal::TooLong.number(), 0, 0, 0, out);
    }
    converted_text(src, out)
}
