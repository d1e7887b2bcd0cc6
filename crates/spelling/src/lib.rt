// A number as exact mode has it (document 01, "Records"): the 4 characters of an integer, the 12 of a real.
// And as the listing has it ("Listing program"): its digits alone.
// And as a SUP file has it (document 02, T-01): right aligned in 10 characters.
// And as CML has it (document 02, T-11): a real with no blank in front.
// And bytes as they are, at a place.
// All of it is proved, and no public function has a `requires`: a value out of range, or too little room, alters nothing.
#![tactic(auto)]

ghost use Rattle.std.specs.Prelude.{◌≡◌, true, cond, ◌&&◌, [], ◌∷◌, ◌+◌, ◌-◌, ◌^◌, ◌/◌, ◌%◌, ◌≤◌, ◌<◌, length, leb, nat_abs};
ghost use Rattle.laws.specs.Lists.{over, pasted};
ghost use Rattle.number.specs.Number.{is_real};
ghost use Rattle.spelling.specs.Stored.{Stored};
ghost use Rattle.spelling.specs.Figures.{figure_width, is_narrow, figure_text};
ghost use Rattle.spelling.specs.Spelling.{integer_most, integer_width, real_width, digits, places, count_text, integer_text, minus, bare_real, real_text};

const INTEGER_MOST: usize = 9999;

const INTEGER_WIDTH: usize = 4;

const REAL_LEAST: i64 = -9_999_999_999;

const REAL_MOST: i64 = 99_999_999_999;

const REAL_WIDTH: usize = 12;

// The numbers of at most 10 characters, a minus counted.
const FIGURE_LEAST: i64 = -999_999_999;

const FIGURE_MOST: i64 = 9_999_999_999;

const FIGURE_WIDTH: usize = 10;

// The last digit of a number, as a character.
fn glyph(n: usize) -> u8
    ensures { result ≡ 48 + n % 10 }
{
    48 + (n % 10) as u8
}

// A tenth of a number below 100, by a product: 103 / 1024 is a little more than a tenth.
fn tenth(n: usize) -> usize
    requires { n < 100 }
    ensures { result ≡ n / 10 }
{
    n * 103 / 1024
}

// The two characters of a number below 100.
fn tens(n: usize) -> u8
    requires { n < 100 }
    ensures { result ≡ 48 + n / 10 }
{
    48 + tenth(n) as u8
}

fn ones(n: usize) -> u8
    requires { n < 100 }
    ensures { result ≡ 48 + n % 10 }
{
    48 + (n - 10 * tenth(n)) as u8
}

// Places the one or two digits of a number below 100 before `end`; the answer is where they start.
#[tactic(auto, using(crate::proofs::Ways::placing_ways))]
fn put_lead(text: &mut [u8], end: usize, n: usize) -> usize
    requires { (1 ≤ end) × (end ≤ length text.old) × (n < 10 ^ end) × (n < 100) }
    ensures { (result + length (digits end n) ≡ end) × (text.new ≡ pasted text.old result (digits end n)) }
{
    if n < 10 {
        text[end - 1] = glyph(n);
        return end - 1;
    }
    text[end - 1] = ones(n);
    text[end - 2] = tens(n);
    end - 2
}

// Places the digits of a number before `end`, the last two first; the answer is where they start.
#[tactic(auto, using(crate::proofs::Ways::placing_ways))]
fn put_digits(text: &mut [u8], end: usize, n: usize) -> usize
    requires { (1 ≤ end) × (end ≤ length text.old) × (n < 10 ^ end) }
    ensures { (result + length (digits end n) ≡ end) × (text.new ≡ pasted text.old result (digits end n)) }
{
    let mut at = end;
    let mut rest = n;
    while rest >= 100 {
        text[at - 1] = ones(rest % 100);
        text[at - 2] = tens(rest % 100);
        at -= 2;
        rest /= 100;
    }
    put_lead(text, at, rest)
}

// Places a point and the three digits of a number below 1000 at a place. 41 / 4096 is a little more than a hundredth.
#[tactic(auto, using(crate::proofs::BareWays::places_ways))]
fn put_places(text: &mut [u8], at: usize, m: usize)
    requires { (at + 4 ≤ length text.old) × (m < 1000) }
    ensures { text.new ≡ pasted text.old at (46 ∷ places 3 m) }
{
    let first = m * 41 / 4096;
    let pair = m - 100 * first;
    text[at] = b'.';
    text[at + 1] = glyph(first);
    text[at + 2] = tens(pair);
    text[at + 3] = ones(pair);
}

// Places the sign of a number, if it has one, before `at`.
#[tactic(auto, using(crate::proofs::Ways::sign_ways), unfolding(crate::specs::Spelling::minus))]
fn put_sign(text: &mut [u8], at: usize, value: i64)
    requires { (length (minus value) ≤ at) × (at ≤ length text.old) }
    ensures { text.new ≡ pasted text.old (at - length (minus value)) (minus value) }
{
    if value < 0 {
        text[at - 1] = b'-';
    }
}

// A number without its sign.
fn magnitude(value: i64) -> usize
    requires { is_real value ≡ true }
    ensures { result ≡ nat_abs value }
{
    value.unsigned_abs() as usize
}

// A value within the range of a real.
#[tactic(auto, unfolding(number::specs::Number::is_real))]
pub fn is_real(value: i64) -> bool
    ensures { result ≡ is_real value }
{
    (REAL_LEAST..=REAL_MOST).contains(&value)
}

// Copies a text to the start of `out`. A byte at a time, which compiles to memcpy: `copy_from_slice` calls memmove, and the library for C needs no
// such name from outside.
fn copy(text: &[u8], out: &mut [u8])
    requires { length text.now ≤ length out.old }
    ensures { out.new ≡ over text.now out.old }
{
    for i in 0..text.len() {
        out[i] = text[i];
    }
}

// Copies bytes to a place; the answer is the place behind them. Where they find no room `out` is as it was, and the answer is the place.
pub fn put_bytes(out: &mut [u8], at: usize, s: &[u8]) -> usize
    ensures { Stored out.old at s.now out.new result }
{
    if at > out.len() || s.len() > out.len() - at {
        return at;
    }
    copy(s, &mut out[at..]);
    at + s.len()
}

// The characters of an integer, straight at the start of `out`: digits at the end of blanks.
fn put_integer(value: usize, out: &mut [u8])
    requires { (value ≤ integer_most) × (integer_width ≤ length out.old) }
    ensures { out.new ≡ over (integer_text value) out.old }
{
    copy(b"    ", out);
    put_digits(out, INTEGER_WIDTH, value);
}

// The characters of a real, its point at a place: places, digits and sign, each before the last.
fn put_round(out: &mut [u8], point: usize, value: i64)
    requires { (is_real value ≡ true) × (length (bare_real value) ≤ point + 4) × (point + 4 ≤ length out.old) }
    ensures { out.new ≡ pasted out.old (point + 4 - length (bare_real value)) (bare_real value) }
{
    let m = magnitude(value);
    put_places(out, point, m % 1000);
    let first = put_digits(out, point, m / 1000);
    put_sign(out, first, value);
}

// The characters of a real, straight at the start of `out`, over blanks.
fn put_real(value: i64, out: &mut [u8])
    requires { (is_real value ≡ true) × (real_width ≤ length out.old) }
    ensures { out.new ≡ over (real_text value) out.old }
{
    copy(b"        ", out);
    put_round(out, 8, value);
}

// True where the 4 characters of an integer now stand at the start of `out`;
// false, and `out` as it was, where the value is above 9999 or `out` is shorter.
pub fn spell_integer(value: usize, out: &mut [u8]) -> bool
    ensures value { result ≡ (leb value integer_most && leb integer_width (length out.old)) }
    ensures out_after { out.new ≡ cond result (over (integer_text value) out.old) out.old }
{
    if value > INTEGER_MOST || out.len() < INTEGER_WIDTH {
        return false;
    }
    put_integer(value, out);
    true
}

// True where the 12 characters of a real, given in thousandths, now stand at the start of `out`;
// false, and `out` as it was, where the value is out of range or `out` is shorter.
pub fn spell_real(value: i64, out: &mut [u8]) -> bool
    ensures value { result ≡ (is_real value && leb real_width (length out.old)) }
    ensures out_after { out.new ≡ cond result (over (real_text value) out.old) out.old }
{
    if !is_real(value) || out.len() < REAL_WIDTH {
        return false;
    }
    put_real(value, out);
    true
}

// How many digits a number has, with no zero in front except for 0 itself.
#[tactic(auto, using(crate::proofs::Ways::counting_ways))]
fn count_size(value: usize) -> usize
    ensures { result ≡ length (count_text value) }
{
    let mut size = 1;
    let mut rest = value;
    while rest >= 10 {
        rest /= 10;
        size += 1;
    }
    size
}

// Stores the digits of a number at a place, with no zero in front except for 0 itself; the answer is the place behind them.
// Where they find no room `out` is as it was, and the answer is the place.
pub fn put_count(out: &mut [u8], at: usize, value: usize) -> usize
    ensures { Stored out.old at (count_text value) out.new result }
{
    if at > out.len() {
        return at;
    }
    let size = count_size(value);
    if size > out.len() - at {
        return at;
    }
    put_digits(out, at + size, value);
    at + size
}

// How many digits a number has; 8 where it has more. A sum of tests spares a jump for each digit.
#[tactic(auto, using(crate::proofs::BareWays::count_ways))]
pub fn digit_count(n: usize) -> usize
    ensures { result ≡ length (digits 8 n) }
{
    1 + usize::from(n >= 10)
        + usize::from(n >= 100)
        + usize::from(n >= 1000)
        + usize::from(n >= 10000)
        + usize::from(n >= 100000)
        + usize::from(n >= 1000000)
        + usize::from(n >= 10000000)
}

// How many characters the sign of a number takes.
#[tactic(auto, unfolding(crate::specs::Spelling::minus))]
fn sign_size(value: i64) -> usize
    ensures { result ≡ length (minus value) }
{
    usize::from(value < 0)
}

// How many characters a real takes with no blank in front; 0 where the value is out of range.
#[tactic(auto, using(crate::proofs::BareWays::size_ways))]
pub fn bare_size(value: i64) -> usize
    ensures { result ≡ cond (is_real value) (length (bare_real value)) 0 }
{
    if !is_real(value) {
        return 0;
    }
    sign_size(value) + digit_count(magnitude(value) / 1000) + 4
}

// Stores a real with no blank in front at a place; the answer is the place behind it.
// Where the value is out of range or finds no room `out` is as it was, and the answer is the place.
pub fn put_bare(out: &mut [u8], at: usize, value: i64) -> usize
    ensures { Stored out.old at (cond (is_real value) (bare_real value) []) out.new result }
{
    if !is_real(value) || at > out.len() {
        return at;
    }
    let size = bare_size(value);
    if size > out.len() - at {
        return at;
    }
    put_round(out, at + size - 4, value);
    at + size
}

// A figure finds room in its 10 characters.
#[tactic(auto, using(crate::proofs::Ways::narrow_is))]
pub fn is_narrow(value: i64) -> bool
    ensures { result ≡ is_narrow value }
{
    (FIGURE_LEAST..=FIGURE_MOST).contains(&value)
}

// The characters of a figure, straight at the start of `out`: blanks, and over them digits and sign.
fn put_figure(value: i64, out: &mut [u8])
    requires { (is_narrow value ≡ true) × (figure_width ≤ length out.old) }
    ensures { out.new ≡ over (figure_text value) out.old }
{
    copy(b"          ", out);
    let m = magnitude(value);
    let at = put_digits(out, FIGURE_WIDTH, m);
    put_sign(out, at, value);
}

// As `spell_real`, with its own test, width and text: one function for both would take these three, and be no plainer.
// True where the 10 characters of a figure now stand at the start of `out`;
// false, and `out` as it was, where the figure has more characters or `out` is shorter.
pub fn spell_figure(value: i64, out: &mut [u8]) -> bool
    ensures value { result ≡ (is_narrow value && leb figure_width (length out.old)) }
    ensures out_after { out.new ≡ cond result (over (figure_text value) out.old) out.old }
{
    if !is_narrow(value) || out.len() < FIGURE_WIDTH {
        return false;
    }
    put_figure(value, out);
    true
}
