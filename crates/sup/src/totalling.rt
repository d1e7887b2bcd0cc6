// The figures of a SUP file from the sheet's tally (document 02, T-01), and the combined total with its limit.
ghost use Rattle.std.specs.Prelude.{◌≡◌, ◌+◌, ◌*◌, ◌^◌, ◌<◌, length, get_or, pos, ◌+ℤ◌, ◌-ℤ◌};
ghost use Rattle.tally.specs.Tally.{Good};
ghost use Rattle.sup.specs.Sup.{exact_total, exact_confine, head_lines, foot_lines, figures_in, wide_from};
ghost use Rattle.sup.specs.Totals.{high_sum, low_sum, total_of};

use crate::rounding::metres_of;
use spelling::is_narrow;

const BILLION: i64 = 1_000_000_000;

// The greatest sum of high parts that is judged with the low ones.
const HIGH_MOST: i64 = 9_100_000_000;

const LIMIT: i64 = 9_000_000_000_000_000_000;

// The kind of a union sheet.
const UNION: usize = 3;

// The places of classes in a tally, and of CONFINE's two areas.
const OTHER: usize = 1;

const ROAD: usize = 2;

const WATER: usize = 3;

const BUILDING: usize = 4;

const PARCEL: usize = 5;

const CONFINE_OUTER: usize = 1;

const CONFINE_INNER: usize = 3;

// The high parts of four numbers, and the low parts, together: neither sum overflows.
fn high_sum(a: i64, b: i64, c: i64, d: i64) -> i64
    ensures { result ≡ high_sum a b c d }
{
    a / BILLION + b / BILLION + c / BILLION + d / BILLION
}

fn low_sum(a: i64, b: i64, c: i64, d: i64) -> i64
    ensures { result ≡ low_sum a b c d }
{
    a % BILLION + b % BILLION + c % BILLION + d % BILLION
}

// The sum of four numbers, where it keeps the limit on either side of zero.
fn total_of(a: i64, b: i64, c: i64, d: i64) -> Option<i64>
    ensures { result ≡ total_of (a +ℤ (b +ℤ (c +ℤ d))) }
{
    let high = high_sum(a, b, c, d);
    if high > HIGH_MOST || high < -HIGH_MOST {
        return None;
    }
    let total = high * BILLION + low_sum(a, b, c, d);
    if total > LIMIT || total < -LIMIT {
        return None;
    }
    Some(total)
}

// The first figure of more than 10 characters, counted from `from`; 0 where there is none.
pub(crate) fn first_wide(figures: &[i64], from: usize) -> usize
    requires { from + length figures.now < 2 ^ 64 }
    ensures { result ≡ wide_from from figures.now }
{
    for i in 0..figures.len() {
        if !is_narrow(figures[i]) {
            return from + i;
        }
    }
    0
}

// The net total of the class at place k: its outer rings less its islands.
pub(crate) fn net_in(figures: &[i64], k: usize) -> i64
    requires { Good figures.now × (k < 6) }
    ensures { result ≡ get_or figures.now (4 * k + 1) (pos 0) -ℤ get_or figures.now (4 * k + 3) (pos 0) }
{
    let outer = figures[4 * k + 1];
    let inner = figures[4 * k + 3];
    outer - inner
}

// TOTALE before it is rounded; past the limit it is refused (18).
pub(crate) fn sheet_total(kind: usize, figures: &[i64]) -> Option<i64>
    requires { Good figures.now }
    ensures { result ≡ total_of (exact_total kind figures.now) }
{
    if kind == UNION {
        return total_of(net_in(figures, OTHER), 0, 0, 0);
    }
    let parcels = net_in(figures, PARCEL);
    let roads = net_in(figures, ROAD);
    let waters = net_in(figures, WATER);
    let insets = figures[CONFINE_INNER];
    total_of(parcels, roads, waters, insets)
}

// The figures before the listed borders: counts, and the buildings' area.
pub(crate) fn head_figures(figures: &[i64]) -> [i64; 6]
    requires { Good figures.now }
    ensures { result ≡ figures_in (head_lines figures.now) }
{
    let buildings = figures[16];
    let parcels = figures[20];
    let roads = figures[8];
    let waters = figures[12];
    let insets = figures[2];
    let area = metres_of(net_in(figures, BUILDING));
    [buildings, parcels, roads, waters, insets, area]
}

// CONFINE before it is rounded: outer rings only; in a union sheet what TOTALE is.
pub(crate) fn sheet_confine(kind: usize, figures: &[i64]) -> i64
    requires { Good figures.now }
    ensures { result ≡ exact_confine kind figures.now }
{
    if kind == UNION {
        return net_in(figures, OTHER);
    }
    figures[CONFINE_OUTER]
}

// The figures behind the listed borders: areas, the two totals, and the difference of the two as they are printed.
pub(crate) fn foot_figures(kind: usize, figures: &[i64], total: i64) -> [i64; 7]
    requires { Good figures.now × (total ≡ exact_total kind figures.now) }
    ensures { result ≡ figures_in (foot_lines kind figures.now) }
{
    let parcels = metres_of(net_in(figures, PARCEL));
    let roads = metres_of(net_in(figures, ROAD));
    let waters = metres_of(net_in(figures, WATER));
    let islands = figures[CONFINE_INNER];
    let insets = metres_of(islands);
    let whole = metres_of(total);
    let border = metres_of(sheet_confine(kind, figures));
    [
        parcels,
        roads,
        waters,
        insets,
        whole,
        border,
        whole - border,
    ]
}
