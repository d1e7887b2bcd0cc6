// What the figures of a SUP file have to be near (document 02, T-10), from the sheet's tally and its exact areas.
ghost use Rattle.std.specs.Prelude.{◌≡◌, true, length};
ghost use Rattle.laws.specs.Whole.{low_z, Within};
ghost use Rattle.tally.specs.Tally.{is_figure, Good};
ghost use Rattle.supcheck.specs.Due.{confine_allowance};
ghost use Rattle.supcheck.specs.Walking.{count_exact, head_exact, head_allowed, foot_exact, parts_allowed, foot_allowed};

// The doubled square millimetres of a square metre.
const METRE: i64 = 2_000_000;

// One more than a figure can be.
const COUNT_MOST: i64 = 10_000_000_000;

// More square metres than any figure and any exact area are apart.
const APART_MOST: i64 = 1_000_000_000_000_000_000;

// The kind of a union sheet.
const UNION: usize = 3;

fn lower(a: i64, b: i64) -> i64
    ensures { result ≡ low_z a b }
{
    a.min(b)
}

fn count_exact(count: i64) -> i64
    requires { is_figure count ≡ true }
    ensures { result ≡ count_exact count }
{
    METRE * lower(count, COUNT_MOST)
}

// What TOTALE is allowed: its parts' allowances together.
fn parts_allowed(kind: usize, figures: &[i64]) -> i64
    requires { Good figures.now }
    ensures { result ≡ parts_allowed kind figures.now }
{
    if kind == UNION {
        return figures[4];
    }
    let parcels = lower(figures[20], APART_MOST);
    let roads = lower(figures[8], APART_MOST);
    let waters = lower(figures[12], APART_MOST);
    let insets = lower(figures[2], APART_MOST);
    parcels + (roads + (waters + insets))
}

// What CONFINE is allowed.
fn confine_allowed(kind: usize, figures: &[i64]) -> i64
    requires { Good figures.now }
    ensures { result ≡ confine_allowance kind figures.now }
{
    if kind == UNION {
        return figures[4];
    }
    figures[0]
}

// Before the listed borders: five counts, and the buildings' area.
pub(crate) fn head_exact(figures: &[i64], areas: &[i64]) -> [i64; 6]
    requires { Good figures.now × (length areas.now ≡ 6) }
    ensures { result ≡ head_exact figures.now areas.now }
{
    let buildings = count_exact(figures[16]);
    let parcels = count_exact(figures[20]);
    let roads = count_exact(figures[8]);
    let waters = count_exact(figures[12]);
    let insets = count_exact(figures[2]);
    let area = areas[0];
    [buildings, parcels, roads, waters, insets, area]
}

pub(crate) fn head_allowed(figures: &[i64]) -> [i64; 6]
    requires { Good figures.now }
    ensures { result ≡ head_allowed figures.now }
{
    let buildings = figures[16];
    [0, 0, 0, 0, 0, buildings]
}

// Behind the listed borders: four areas, the two totals, and the balance of the file's two.
pub(crate) fn foot_exact(areas: &[i64], total: i64, balance: i64) -> [i64; 7]
    requires { (length areas.now ≡ 6) × Within 460000000000 balance }
    ensures { result ≡ foot_exact areas.now total balance }
{
    let parcels = areas[1];
    let roads = areas[2];
    let waters = areas[3];
    let insets = areas[4];
    let confine = areas[5];
    [
        parcels,
        roads,
        waters,
        insets,
        total,
        confine,
        METRE * balance,
    ]
}

pub(crate) fn foot_allowed(kind: usize, figures: &[i64]) -> [i64; 7]
    requires { Good figures.now }
    ensures { result ≡ foot_allowed kind figures.now }
{
    let parcels = figures[20];
    let roads = figures[8];
    let waters = figures[12];
    let insets = figures[2];
    let parts = parts_allowed(kind, figures);
    let confine = confine_allowed(kind, figures);
    [parcels, roads, waters, insets, parts, confine, 0]
}
