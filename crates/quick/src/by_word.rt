// The real of twelve bytes that are known to be exact mode's: the first eight as one number, a byte to a lane, so that all digits are turned at once.
ghost use Rattle.std.specs.Prelude.{◌≡◌, ◌+◌, ◌*◌, ◌<◌, ◌≤◌, length};
ghost use Rattle.quick.specs.Seen.{word_of8, Valued, ValueAt};
ghost use Rattle.quick.specs.Word.{marks_of, figures_of, number_of, Trusted};

#[tactic(auto, unfolding(crate::specs::Word::marks_of))]
fn marks(word: usize) -> usize
    ensures { (result ≡ marks_of word) × (result ≤ 72340172838076673) }
{
    (word / 16) & 0x0101010101010101
}

#[tactic(auto, unfolding(crate::specs::Word::figures_of))]
fn figures(word: usize, marks: usize) -> usize
    requires { marks ≤ 72340172838076673 }
    ensures { (result ≡ figures_of word marks) × (result ≤ 15 * marks) }
{
    word & (15 * marks)
}

// The number that eight figures make, one in a lane.
#[tactic(auto, unfolding(crate::specs::Word::number_of))]
fn number_of(figures: usize) -> usize
    requires { figures ≤ 1085102592571150095 }
    ensures { (result ≡ number_of figures) × (result ≤ 257575755) }
{
    let p = figures * 10 + figures / 256;
    p % 256 * 1000000
        + p / 65536 % 256 * 10000
        + p / 4294967296 % 256 * 100
        + p / 281474976710656 % 256
}

// Only a minus is no sum of 32, its mark and its figure. The bytes of the last three digits are 48 too large: 5328 in all.
#[tactic(auto, using(crate::proofs::WordLaws::word_value_ways))]
pub fn word_value(word: usize, x: u8, y: u8, z: u8) -> usize
    ensures { Valued word x y z result }
{
    let m = marks(word);
    let f = figures(word, m);
    let n = number_of(f) * 1000 + (usize::from(x) * 100 + usize::from(y) * 10 + usize::from(z));
    if word == 0x2020202020202020 + 16 * m + f {
        return n + 9_999_994_672;
    }
    std::num::wrapping_sub_usize(10_000_005_328, n)
}

pub(crate) fn four(a: u8, b: u8, c: u8, d: u8) -> usize
    ensures { (result ≡ a + 256 * (b + 256 * (c + 256 * d))) × (result < 4294967296) }
{
    usize::from(a) + 256 * (usize::from(b) + 256 * (usize::from(c) + 256 * usize::from(d)))
}

// The first eight bytes as one number: it compiles to one load.
fn eight(c: &[u8]) -> usize
    requires { 8 ≤ length c.now }
    ensures { result ≡ word_of8 c.now }
{
    let low = four(c[0], c[1], c[2], c[3]);
    let high = four(c[4], c[5], c[6], c[7]);
    low + 4294967296 * high
}

// The real, lifted, of twelve bytes that were judged before.
#[tactic(auto, using(crate::proofs::WordLaws::trusted_ways))]
pub(crate) fn trusted(c: &[u8]) -> usize
    requires { length c.now ≡ 12 }
    ensures { Trusted c.now result }
{
    word_value(eight(c), c[9], c[10], c[11])
}

// The real, lifted, that stands at a place in its usual form; 0 where no 12 bytes are there.
#[tactic(auto, using(crate::proofs::UsualLaws::usual_value_ways))]
pub fn usual_value(s: &[u8], at: usize) -> usize
    ensures { ValueAt s.now at result }
{
    let n = s.len();
    if n < 12 {
        return 0;
    }
    if at > n - 12 {
        return 0;
    }
    trusted(&s[at..at + 12])
}
