// A line of a SUP file that came with a delivery (document 02, T-10): what stands in it, and whether it is right.
// All of it is proved, and no public function has a `requires`. A right line is the one that T-01 writes (crate `sup`) for its name and for the figure
// that stands there, and that figure is as near to the exact area as is allowed.
#![tactic(auto)]

pub mod reading;

ghost use Rattle.std.specs.Prelude.{◌≡◌, true};
ghost use Rattle.spelling.specs.Figures.{is_narrow};
ghost use Rattle.supline.specs.Right.{is_near, due, due_line, is_right_line};

use crate::reading::{figure_in, is_line};
use spelling::is_narrow;

// The doubled square millimetres of a square metre.
const METRE: i64 = 2_000_000;

// A figure is as near to an exact area as is allowed: by whole square metres, so that nothing overflows. What is left over makes one more of the
// gap on its side.
fn is_near(figure: i64, exact: i64, allowed: i64) -> bool
    requires { is_narrow figure ≡ true }
    ensures { result ≡ is_near figure exact allowed }
{
    let gap = figure - exact / METRE;
    let rest = exact % METRE;
    if rest < 0 {
        if gap + 1 > allowed {
            return false;
        }
        return -gap <= allowed;
    }
    if gap > allowed {
        return false;
    }
    if rest > 0 {
        return 1 - gap <= allowed;
    }
    -gap <= allowed
}

// The first line of s is right.
pub fn is_right_line(name: &[u8], exact: i64, allowed: i64, s: &[u8]) -> bool
    ensures { result ≡ is_right_line (due_line name.now (due exact allowed)) s.now }
{
    let figure = figure_in(s);
    if !is_narrow(figure) {
        return false;
    }
    if !is_line(name, figure, s) {
        return false;
    }
    is_near(figure, exact, allowed)
}
