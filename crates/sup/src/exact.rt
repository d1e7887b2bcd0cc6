// A sheet's tally with the exact areas that its SUP file rounds (document 02, T-01).
ghost use Rattle.std.specs.Prelude.{◌≡◌};
ghost use Rattle.made.specs.Made.{tables};
ghost use Rattle.tally.specs.Tally.{Good};
ghost use Rattle.sup.specs.ExactAreas.{exact_areas, exact_of};

use crate::ExactSheet;
use crate::totalling::{net_in, sheet_confine, sheet_total};
use made::Sheet;
use tally::tally_sheet;

const ROAD: usize = 2;

const WATER: usize = 3;

const BUILDING: usize = 4;

const PARCEL: usize = 5;

const CONFINE_INNER: usize = 3;

// In the file's order, TOTALE left out.
fn areas_in(kind: usize, figures: &[i64]) -> [i64; 6]
    requires { Good figures.now }
    ensures { result ≡ exact_areas kind figures.now }
{
    let buildings = net_in(figures, BUILDING);
    let parcels = net_in(figures, PARCEL);
    let roads = net_in(figures, ROAD);
    let waters = net_in(figures, WATER);
    let insets = figures[CONFINE_INNER];
    let confine = sheet_confine(kind, figures);
    [buildings, parcels, roads, waters, insets, confine]
}

// The tally of a sheet, and its areas before they are rounded.
pub fn sheet_exact(sheet: &Sheet<'_>) -> ExactSheet
    ensures { result ≡ exact_of sheet.now.header sheet.now.count (tables sheet.now.lent) }
{
    let taken = tally_sheet(sheet);
    let figures = taken.tally.figures;
    ExactSheet {
        outcome: taken.outcome,
        figures,
        total: sheet_total(sheet.header.kind, &figures),
        areas: areas_in(sheet.header.kind, &figures),
    }
}
