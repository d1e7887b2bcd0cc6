// The date of a SUP file (document 02, T-01): eight digits, month 01-12, day 01-31.
ghost use Rattle.std.specs.Prelude.{◌≡◌, ◌+◌, ◌-◌, ◌≤◌, length};
ghost use Rattle.laws.specs.Lists.{all_at};
ghost use Rattle.sup.specs.Date.{date_byte, two_digits, is_date};

const DATE_WIDTH: usize = 8;

const MONTH_PLACE: usize = 4;

const DAY_PLACE: usize = 6;

fn are_digits(s: &[u8]) -> bool
    ensures { result ≡ all_at date_byte 0 s.now }
{
    s.iter().all(|b| b.is_ascii_digit())
}

fn digit_of(b: u8) -> usize
    ensures { result ≡ b - 48 }
{
    usize::from(b.saturating_sub(b'0'))
}

fn two_digits(s: &[u8], i: usize) -> usize
    requires { i + 2 ≤ length s.now }
    ensures { result ≡ two_digits s.now i }
{
    10 * digit_of(s[i]) + digit_of(s[i + 1])
}

#[tactic(auto, unfolding(crate::specs::Date::is_date))]
pub fn is_date(s: &[u8]) -> bool
    ensures { result ≡ is_date s.now }
{
    if s.len() != DATE_WIDTH || !are_digits(s) {
        return false;
    }
    (1..=12).contains(&two_digits(s, MONTH_PLACE)) && (1..=31).contains(&two_digits(s, DAY_PLACE))
}
