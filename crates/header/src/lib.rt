// The header of a file (document 01, "Header and EOF"): its three records.
// All of it is proved, and no public function has a `requires`.
#![tactic(auto)]

ghost use Rattle.std.specs.Prelude.{◌≡◌, ◌≤◌, cond, length, drop, Some, None};
ghost use Rattle.laws.specs.Lists.{place};
ghost use Rattle.number.specs.Words.{trimmed};
ghost use Rattle.header.specs.Header.{first_words, stopped, kind_said, is_named, head_scale, head_name, headed};

use heading::{Header, is_name};
use number::{Word, real, word_of};
use record::refusal::Refusal;
use record::{Line, Mode, is_same, line_at};

// A header, and where the sections begin behind it.
#[derive(Clone, Copy)]
pub struct Headed {
    pub header: Header,
    pub at: usize,
}

// Why a file is refused, with its record's number and place.
#[derive(Clone, Copy, Debug, PartialEq, Eq)]
pub struct Stopped {
    pub refusal: Refusal,
    pub record: usize,
    pub offset: usize,
}

// The kind that a first word says, or 0.
#[tactic(auto, unfolding(crate::specs::Header::first_words, laws::specs::Lists::place))]
fn kind_of_word(w: &[u8]) -> usize
    ensures { result ≡ place 1 first_words w.now }
{
    if is_same(w, b"MAPPA") {
        1
    } else if is_same(w, b"MAPPA FONDIARIO") {
        2
    } else if is_same(w, b"QUADRO D'UNIONE") {
        3
    } else {
        0
    }
}

#[tactic(auto, using(crate::proofs::HeadWays::word_ways))]
fn kind_of(c: &[u8], mode: Mode) -> usize
    ensures { result ≡ kind_said mode c.now }
{
    let Some(Word { start, len }) = word_of(c, mode) else {
        return 0;
    };
    kind_of_word(&c[start..start + len])
}

fn refused(refusal: Refusal, record: usize, offset: usize) -> Result<Headed, Stopped>
    ensures { result ≡ stopped refusal «record» offset }
{
    Err(Stopped {
        refusal,
        record,
        offset,
    })
}

// Record 3, which starts at `at`: the scale.
#[tactic(auto, using(crate::proofs::HeadWays::line_ways), unfolding(crate::specs::Header::head_scale))]
fn scale_at(
    src: &[u8],
    at: usize,
    kind: usize,
    name: [u8; 11],
    mode: Mode,
) -> Result<Headed, Stopped>
    requires { at ≤ length src.now }
    ensures { result ≡ head_scale mode kind name at (drop at src.now) }
{
    let Line { len, width } = line_at(&src[at..], mode, false).map_err(|refusal| Stopped {
        refusal,
        record: 3,
        offset: at,
    })?;
    let Some(scale) = real(&src[at..at + len], mode) else {
        return refused(Refusal::Number, 3, at);
    };
    if scale <= 0 {
        return refused(Refusal::Header, 3, at);
    }
    Ok(Headed {
        header: Header { kind, name, scale },
        at: at + width,
    })
}

// The name that a content holds.
#[tactic(auto, using(crate::proofs::HeadWays::name_ways), unfolding(crate::specs::Header::is_named))]
fn name_of(c: &[u8], kind: usize, mode: Mode) -> Option<[u8; 11]>
    ensures { result ≡ cond (is_named mode kind c.now) (Some (trimmed c.now)) None }
{
    let Word { start, len } = word_of(c, mode)?;
    let said = &c[start..start + len];
    if !is_name(kind, said) {
        return None;
    }
    said.try_into().ok()
}

// Record 2, which starts at `at`: the name.
#[tactic(auto, using(crate::proofs::HeadWays::line_ways), unfolding(crate::specs::Header::head_name))]
fn name_at(src: &[u8], at: usize, kind: usize, mode: Mode) -> Result<Headed, Stopped>
    requires { at ≤ length src.now }
    ensures { result ≡ head_name mode kind at (drop at src.now) }
{
    let Line { len, width } = line_at(&src[at..], mode, false).map_err(|refusal| Stopped {
        refusal,
        record: 2,
        offset: at,
    })?;
    let Some(name) = name_of(&src[at..at + len], kind, mode) else {
        return refused(Refusal::Header, 2, at);
    };
    scale_at(src, at + width, kind, name, mode)
}

// The header of a file, and where its sections begin.
#[tactic(auto, using(crate::proofs::HeadWays::head_ways), unfolding(crate::specs::Header::headed))]
pub fn header_at(src: &[u8], mode: Mode) -> Result<Headed, Stopped>
    ensures { result ≡ headed mode src.now }
{
    let Line { len, width } = line_at(src, mode, false).map_err(|refusal| Stopped {
        refusal,
        record: 1,
        offset: 0,
    })?;
    let kind = kind_of(&src[..len], mode);
    if kind == 0 {
        return refused(Refusal::Header, 1, 0);
    }
    name_at(src, width, kind, mode)
}
