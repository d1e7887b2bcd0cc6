// The values of a header (document 01, "Header and EOF"): the form of a name, and the check of a header that is handed in.
// All of it is proved, and no public function has a `requires`.
#![tactic(auto)]

ghost use Rattle.std.specs.Prelude.{◌≡◌};
ghost use Rattle.laws.specs.Lists.{all_at};
ghost use Rattle.heading.specs.Heading.{name_byte, is_name, is_header};

#[derive(Clone, Copy)]
pub struct Header {
    pub kind: usize,
    pub name: [u8; 11],
    pub scale: i64,
}

// The largest scale.
const REAL_MOST: i64 = 99_999_999_999;

// A byte that a name may have at a place.
#[tactic(auto, unfolding(crate::specs::Heading::name_byte))]
fn is_name_byte(i: usize, b: u8) -> bool
    ensures { result ≡ name_byte i b }
{
    match i {
        0 => b.is_ascii_uppercase(),
        1..=3 | 5..=8 => b.is_ascii_digit(),
        4 => b.is_ascii_uppercase() || b == b'_',
        _ => b.is_ascii_digit() || b.is_ascii_uppercase(),
    }
}

// Every byte is one that a name may have at its place.
#[tactic(auto, using(laws::proofs::ListLaws::places))]
fn is_formed(s: &[u8]) -> bool
    ensures { result ≡ all_at name_byte 0 s.now }
{
    for (i, &b) in s.iter().enumerate() {
        if !is_name_byte(i, b) {
            return false;
        }
    }
    true
}

// A name; for kind 3 its last two are `QU`.
#[tactic(auto, using(crate::proofs::HeadingWays::ends_in), unfolding(crate::specs::Heading::is_name))]
pub fn is_name(kind: usize, s: &[u8]) -> bool
    ensures { result ≡ is_name kind s.now }
{
    if s.len() != 11 || !is_formed(s) {
        return false;
    }
    kind != 3 || s.ends_with(b"QU")
}

// A header that is handed in.
#[tactic(auto, unfolding(crate::specs::Heading::is_header))]
pub fn is_header(h: Header) -> bool
    ensures { result ≡ is_header h }
{
    (1..=3).contains(&h.kind) && is_name(h.kind, &h.name) && 0 < h.scale && h.scale <= REAL_MOST
}
