// The C library: each function that `include/cxf.h` declares, exported under that name. No crate can stand on a static library, so the
// functions themselves are those of the library `cabi`: each one here calls its namesake there and states the same clauses.
#![tactic(auto)]

ghost use Rattle.std.specs.Prelude.{◌≡◌, length};
ghost use Rattle.record.specs.declared.Mode.TheVariants.{Exact};
ghost use Rattle.record.specs.Record.{record_at};
ghost use Rattle.column.specs.Columns.{integer_placed, real_placed};
ghost use Rattle.sheet.specs.Reading.{reading};
ghost use Rattle.reader.specs.Read.{rooms_of, read_of, tables_in, written};
ghost use Rattle.made.specs.Made.{tables_of};
ghost use Rattle.layout.specs.Sheet.{sheet_text};
ghost use Rattle.writer.specs.Write.{write_of, output_of};
ghost use Rattle.cml.specs.Lines.{cml_text, cml_of};
ghost use Rattle.border.specs.BorderAt.{border_at};
ghost use Rattle.border.specs.TextAt.{text_at};
ghost use Rattle.area.specs.Questions.{ring_area_at, net_area_at};
ghost use Rattle.ring.specs.RingCheck.{ring_check_at};
ghost use Rattle.tally.specs.Take.{taken_of, tally_of};
ghost use Rattle.sup.specs.Answer.{sheet_sup, sup_of, sup_output};
ghost use Rattle.supcheck.specs.Checked.{sup_checked};
ghost use Rattle.tile.specs.Tiles.{tile_of};
ghost use Rattle.mask.specs.Masks.{mask_at};
ghost use Rattle.edit.specs.Answers.{tables_at};
ghost use Rattle.edit.specs.Removals.{removed_tables, remove_of};
ghost use Rattle.edit.specs.Moves.{moved_tables, move_of};
ghost use Rattle.listing.specs.Listing.{listing_of};
ghost use Rattle.listing.specs.Listed.{listed_of, listed_in};
ghost use Rattle.conversion.specs.Conversion.{conversion_of};
ghost use Rattle.told.specs.Asked.{mode_of, is_keyword_due, header_of};
ghost use Rattle.told.specs.Told.{interface_number, read_told, write_told, record_told, integer_told, real_told, tile_told, listed_told};
ghost use Rattle.told.specs.Answers.{border_told, text_told, area_told, ring_told};
ghost use Rattle.told.specs.Tallies.{tally_in, tally_told, take_told};
ghost use Rattle.told.specs.SupFiles.{sup_told};
ghost use Rattle.told.specs.SupChecks.{checked_told};
ghost use Rattle.told.specs.Masks.{mask_told};
ghost use Rattle.told.specs.Edits.{edit_told};

use told::edits::CxfEdited;
use told::masks::CxfMask;
use told::question::{CxfArea, CxfBorder, CxfRing, CxfText};
use told::sup_checks::CxfSupChecked;
use told::sup_files::CxfSup;
use told::tallies::CxfTally;
use told::{CxfListed, CxfNumber, CxfReading, CxfRecord, CxfTile, CxfWritten};

// The number of this interface, for a binding that was made for one number and is to refuse another.
#[unsafe(no_mangle)]
pub extern "C" fn cxf_interface() -> usize
    ensures { result ≡ interface_number }
{
    cabi::cxf_interface()
}

// Reads a sheet into the tables that are lent, in exact mode, since no mode is named.
#[unsafe(no_mangle)]
pub extern "C" fn cxf_read_default(
    src: &[u8],
    rows: &mut [i64],
    letters: &mut [u8],
    islands: &mut [u16],
    points: &mut [i64],
) -> CxfReading
    ensures value { result ≡ read_told (read_of Exact src.now (rooms_of (length rows.old) (length letters.old) (length islands.old) (length points.old))) }
    ensures rows_after { rows.new ≡ written (read_of Exact src.now (rooms_of (length rows.old) (length letters.old) (length islands.old) (length points.old))) (tables_in (reading Exact src.now)).rows rows.old }
    ensures letters_after { letters.new ≡ written (read_of Exact src.now (rooms_of (length rows.old) (length letters.old) (length islands.old) (length points.old))) (tables_in (reading Exact src.now)).letters letters.old }
    ensures islands_after { islands.new ≡ written (read_of Exact src.now (rooms_of (length rows.old) (length letters.old) (length islands.old) (length points.old))) (tables_in (reading Exact src.now)).islands islands.old }
    ensures points_after { points.new ≡ written (read_of Exact src.now (rooms_of (length rows.old) (length letters.old) (length islands.old) (length points.old))) (tables_in (reading Exact src.now)).points points.old }
{
    cabi::cxf_read_default(src, rows, letters, islands, points)
}

// The same in the mode that is named.
#[unsafe(no_mangle)]
pub extern "C" fn cxf_read(
    src: &[u8],
    mode: usize,
    rows: &mut [i64],
    letters: &mut [u8],
    islands: &mut [u16],
    points: &mut [i64],
) -> CxfReading
    ensures value { result ≡ read_told (read_of (mode_of mode) src.now (rooms_of (length rows.old) (length letters.old) (length islands.old) (length points.old))) }
    ensures rows_after { rows.new ≡ written (read_of (mode_of mode) src.now (rooms_of (length rows.old) (length letters.old) (length islands.old) (length points.old))) (tables_in (reading (mode_of mode) src.now)).rows rows.old }
    ensures letters_after { letters.new ≡ written (read_of (mode_of mode) src.now (rooms_of (length rows.old) (length letters.old) (length islands.old) (length points.old))) (tables_in (reading (mode_of mode) src.now)).letters letters.old }
    ensures islands_after { islands.new ≡ written (read_of (mode_of mode) src.now (rooms_of (length rows.old) (length letters.old) (length islands.old) (length points.old))) (tables_in (reading (mode_of mode) src.now)).islands islands.old }
    ensures points_after { points.new ≡ written (read_of (mode_of mode) src.now (rooms_of (length rows.old) (length letters.old) (length islands.old) (length points.old))) (tables_in (reading (mode_of mode) src.now)).points points.old }
{
    cabi::cxf_read(src, mode, rows, letters, islands, points)
}

// Writes a sheet that is handed in.
#[unsafe(no_mangle)]
pub extern "C" fn cxf_write(
    kind: usize,
    name: &[u8],
    scale: i64,
    count: usize,
    rows: &[i64],
    letters: &[u8],
    islands: &[u16],
    points: &[i64],
    out: &mut [u8],
) -> CxfWritten
    ensures value { result ≡ write_told (write_of (header_of kind name.now scale) count (tables_of rows.now letters.now islands.now points.now) (length out.old)) }
    ensures out_after { out.new ≡ output_of (write_of (header_of kind name.now scale) count (tables_of rows.now letters.now islands.now points.now) (length out.old)) (sheet_text (header_of kind name.now scale) count (tables_of rows.now letters.now islands.now points.now)) out.old }
{
    cabi::cxf_write(
        kind, name, scale, count, rows, letters, islands, points, out,
    )
}

// Writes the lines of a sheet that is handed in as CML.
#[unsafe(no_mangle)]
pub extern "C" fn cxf_cml_lines(
    kind: usize,
    name: &[u8],
    scale: i64,
    count: usize,
    rows: &[i64],
    letters: &[u8],
    islands: &[u16],
    points: &[i64],
    out: &mut [u8],
) -> CxfWritten
    ensures value { result ≡ write_told (cml_of (header_of kind name.now scale) count (tables_of rows.now letters.now islands.now points.now) (length out.old)) }
    ensures out_after { out.new ≡ output_of (cml_of (header_of kind name.now scale) count (tables_of rows.now letters.now islands.now points.now) (length out.old)) (cml_text count (tables_of rows.now letters.now islands.now points.now)) out.old }
{
    cabi::cxf_cml_lines(
        kind, name, scale, count, rows, letters, islands, points, out,
    )
}

#[unsafe(no_mangle)]
pub extern "C" fn cxf_record_at(src: &[u8], at: usize, mode: usize, due: usize) -> CxfRecord
    ensures { result ≡ record_told (record_at src.now at (mode_of mode) (is_keyword_due due)) }
{
    cabi::cxf_record_at(src, at, mode, due)
}

#[unsafe(no_mangle)]
pub extern "C" fn cxf_integer(content: &[u8], mode: usize) -> CxfNumber
    ensures { result ≡ integer_told (integer_placed (mode_of mode) content.now) }
{
    cabi::cxf_integer(content, mode)
}

#[unsafe(no_mangle)]
pub extern "C" fn cxf_real(content: &[u8], mode: usize) -> CxfNumber
    ensures { result ≡ real_told (real_placed (mode_of mode) content.now) }
{
    cabi::cxf_real(content, mode)
}

// The mask of a row's border on a grid of 64 rows of 64 cells.
#[unsafe(no_mangle)]
pub extern "C" fn cxf_mask_of(
    kind: usize,
    name: &[u8],
    scale: i64,
    count: usize,
    rows: &[i64],
    letters: &[u8],
    islands: &[u16],
    points: &[i64],
    row: usize,
    cx: i64,
    cy: i64,
    cell: i64,
) -> CxfMask
    ensures { result ≡ mask_told (mask_at (header_of kind name.now scale) count (tables_of rows.now letters.now islands.now points.now) row cx cy cell) }
{
    cabi::cxf_mask_of(
        kind, name, scale, count, rows, letters, islands, points, row, cx, cy, cell,
    )
}

#[unsafe(no_mangle)]
pub extern "C" fn cxf_tile_point(west: i64, north: i64, x: i64, y: i64) -> CxfTile
    ensures { result ≡ tile_told (tile_of west north x y) }
{
    cabi::cxf_tile_point(west, north, x, y)
}

// What the listing program writes for an input.
#[unsafe(no_mangle)]
pub extern "C" fn cxf_listing(src: &[u8], out: &mut [u8]) -> CxfListed
    ensures value { result ≡ listed_told (listed_of (listing_of src.now) (length out.old)) }
    ensures out_after { out.new ≡ listed_in (listed_of (listing_of src.now) (length out.old)) (listing_of src.now) out.old }
{
    cabi::cxf_listing(src, out)
}

// What the conversion program writes for an input.
#[unsafe(no_mangle)]
pub extern "C" fn cxf_convert(src: &[u8], out: &mut [u8]) -> CxfListed
    ensures value { result ≡ listed_told (listed_of (conversion_of src.now) (length out.old)) }
    ensures out_after { out.new ≡ listed_in (listed_of (conversion_of src.now) (length out.old)) (conversion_of src.now) out.old }
{
    cabi::cxf_convert(src, out)
}

// The border of a row.
#[unsafe(no_mangle)]
pub extern "C" fn cxf_border_at(
    kind: usize,
    name: &[u8],
    scale: i64,
    count: usize,
    rows: &[i64],
    letters: &[u8],
    islands: &[u16],
    points: &[i64],
    row: usize,
) -> CxfBorder
    ensures { result ≡ border_told (border_at (header_of kind name.now scale) count (tables_of rows.now letters.now islands.now points.now) row) }
{
    cabi::cxf_border_at(
        kind, name, scale, count, rows, letters, islands, points, row,
    )
}

// What a row says as a text.
#[unsafe(no_mangle)]
pub extern "C" fn cxf_text_at(
    kind: usize,
    name: &[u8],
    scale: i64,
    count: usize,
    rows: &[i64],
    letters: &[u8],
    islands: &[u16],
    points: &[i64],
    row: usize,
) -> CxfText
    ensures { result ≡ text_told (text_at (header_of kind name.now scale) count (tables_of rows.now letters.now islands.now points.now) row) }
{
    cabi::cxf_text_at(
        kind, name, scale, count, rows, letters, islands, points, row,
    )
}

// The doubled area of one ring of a row's border.
#[unsafe(no_mangle)]
pub extern "C" fn cxf_ring_area(
    kind: usize,
    name: &[u8],
    scale: i64,
    count: usize,
    rows: &[i64],
    letters: &[u8],
    islands: &[u16],
    points: &[i64],
    row: usize,
    ring: usize,
) -> CxfArea
    ensures { result ≡ area_told (ring_area_at (header_of kind name.now scale) count (tables_of rows.now letters.now islands.now points.now) row ring) }
{
    cabi::cxf_ring_area(
        kind, name, scale, count, rows, letters, islands, points, row, ring,
    )
}

// The doubled area of a row's border without its islands.
#[unsafe(no_mangle)]
pub extern "C" fn cxf_net_area(
    kind: usize,
    name: &[u8],
    scale: i64,
    count: usize,
    rows: &[i64],
    letters: &[u8],
    islands: &[u16],
    points: &[i64],
    row: usize,
) -> CxfArea
    ensures { result ≡ area_told (net_area_at (header_of kind name.now scale) count (tables_of rows.now letters.now islands.now points.now) row) }
{
    cabi::cxf_net_area(
        kind, name, scale, count, rows, letters, islands, points, row,
    )
}

// Whether one ring of a row's border is simple.
#[unsafe(no_mangle)]
pub extern "C" fn cxf_ring_check(
    kind: usize,
    name: &[u8],
    scale: i64,
    count: usize,
    rows: &[i64],
    letters: &[u8],
    islands: &[u16],
    points: &[i64],
    row: usize,
    ring: usize,
) -> CxfRing
    ensures { result ≡ ring_told (ring_check_at (header_of kind name.now scale) count (tables_of rows.now letters.now islands.now points.now) row ring) }
{
    cabi::cxf_ring_check(
        kind, name, scale, count, rows, letters, islands, points, row, ring,
    )
}

// The tally of a sheet.
#[unsafe(no_mangle)]
pub extern "C" fn cxf_tally_sheet(
    kind: usize,
    name: &[u8],
    scale: i64,
    count: usize,
    rows: &[i64],
    letters: &[u8],
    islands: &[u16],
    points: &[i64],
) -> CxfTally
    ensures { result ≡ tally_told (tally_of (header_of kind name.now scale) count (tables_of rows.now letters.now islands.now points.now)) }
{
    cabi::cxf_tally_sheet(kind, name, scale, count, rows, letters, islands, points)
}

// A running tally takes the border of a row.
#[unsafe(no_mangle)]
pub extern "C" fn cxf_tally_take(
    figures: &[i64],
    kind: usize,
    name: &[u8],
    scale: i64,
    count: usize,
    rows: &[i64],
    letters: &[u8],
    islands: &[u16],
    points: &[i64],
    row: usize,
) -> CxfTally
    ensures { result ≡ take_told (length figures.now) (taken_of (tally_in figures.now) (header_of kind name.now scale) count (tables_of rows.now letters.now islands.now points.now) row) }
{
    cabi::cxf_tally_take(
        figures, kind, name, scale, count, rows, letters, islands, points, row,
    )
}

// Writes the SUP file of a sheet.
#[unsafe(no_mangle)]
pub extern "C" fn cxf_sup_write(
    kind: usize,
    name: &[u8],
    scale: i64,
    count: usize,
    rows: &[i64],
    letters: &[u8],
    islands: &[u16],
    points: &[i64],
    date: &[u8],
    out: &mut [u8],
) -> CxfSup
    ensures value { result ≡ sup_told (sup_of (header_of kind name.now scale) count (tables_of rows.now letters.now islands.now points.now) date.now (length out.old)) }
    ensures out_after { out.new ≡ sup_output (sup_of (header_of kind name.now scale) count (tables_of rows.now letters.now islands.now points.now) date.now (length out.old)) (sheet_sup (header_of kind name.now scale) count (tables_of rows.now letters.now islands.now points.now) date.now) out.old }
{
    cabi::cxf_sup_write(
        kind, name, scale, count, rows, letters, islands, points, date, out,
    )
}

// Checks a SUP file that came with a sheet.
#[unsafe(no_mangle)]
pub extern "C" fn cxf_sup_check(
    kind: usize,
    name: &[u8],
    scale: i64,
    count: usize,
    rows: &[i64],
    letters: &[u8],
    islands: &[u16],
    points: &[i64],
    sup: &[u8],
) -> CxfSupChecked
    ensures { result ≡ checked_told (sup_checked (header_of kind name.now scale) count (tables_of rows.now letters.now islands.now points.now) sup.now) }
{
    cabi::cxf_sup_check(
        kind, name, scale, count, rows, letters, islands, points, sup,
    )
}

// Takes a row out of a sheet, in the tables that are lent.
#[unsafe(no_mangle)]
pub extern "C" fn cxf_remove(
    kind: usize,
    name: &[u8],
    scale: i64,
    count: usize,
    rows: &mut [i64],
    letters: &mut [u8],
    islands: &mut [u16],
    points: &mut [i64],
    row: usize,
) -> CxfEdited
    ensures value { result ≡ edit_told (remove_of (header_of kind name.now scale) count (tables_of rows.old letters.old islands.old points.old) row) }
    ensures rows_after { rows.new ≡ (tables_at (remove_of (header_of kind name.now scale) count (tables_of rows.old letters.old islands.old points.old) row) (removed_tables count row (tables_of rows.old letters.old islands.old points.old)) (tables_of rows.old letters.old islands.old points.old)).rows }
    ensures letters_after { letters.new ≡ (tables_at (remove_of (header_of kind name.now scale) count (tables_of rows.old letters.old islands.old points.old) row) (removed_tables count row (tables_of rows.old letters.old islands.old points.old)) (tables_of rows.old letters.old islands.old points.old)).letters }
    ensures islands_after { islands.new ≡ (tables_at (remove_of (header_of kind name.now scale) count (tables_of rows.old letters.old islands.old points.old) row) (removed_tables count row (tables_of rows.old letters.old islands.old points.old)) (tables_of rows.old letters.old islands.old points.old)).islands }
    ensures points_after { points.new ≡ (tables_at (remove_of (header_of kind name.now scale) count (tables_of rows.old letters.old islands.old points.old) row) (removed_tables count row (tables_of rows.old letters.old islands.old points.old)) (tables_of rows.old letters.old islands.old points.old)).points }
{
    cabi::cxf_remove(
        kind, name, scale, count, rows, letters, islands, points, row,
    )
}

// Moves a sheet, in the tables that are lent.
#[unsafe(no_mangle)]
pub extern "C" fn cxf_move(
    kind: usize,
    name: &[u8],
    scale: i64,
    count: usize,
    rows: &mut [i64],
    letters: &mut [u8],
    islands: &mut [u16],
    points: &mut [i64],
    dx: i64,
    dy: i64,
) -> CxfEdited
    ensures value { result ≡ edit_told (move_of (header_of kind name.now scale) count (tables_of rows.old letters.old islands.old points.old) dx dy) }
    ensures rows_after { rows.new ≡ (tables_at (move_of (header_of kind name.now scale) count (tables_of rows.old letters.old islands.old points.old) dx dy) (moved_tables dx dy count (tables_of rows.old letters.old islands.old points.old)) (tables_of rows.old letters.old islands.old points.old)).rows }
    ensures letters_unchanged { letters.new ≡ letters.old }
    ensures islands_unchanged { islands.new ≡ islands.old }
    ensures points_after { points.new ≡ (tables_at (move_of (header_of kind name.now scale) count (tables_of rows.old letters.old islands.old points.old) dx dy) (moved_tables dx dy count (tables_of rows.old letters.old islands.old points.old)) (tables_of rows.old letters.old islands.old points.old)).points }
{
    cabi::cxf_move(
        kind, name, scale, count, rows, letters, islands, points, dx, dy,
    )
}
