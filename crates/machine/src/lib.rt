// The machine over records (document 01, "Sections"): its state says what the next record must be, and a token moves it.
// All of it is proved, and no public function has a `requires`.
#![tactic(auto)]

ghost use Rattle.std.specs.Prelude.{◌≡◌, not, ◌&&◌, length, eqb};
ghost use Rattle.record.specs.Record.{is_exact};
ghost use Rattle.token.specs.Lex.{lex_of};
ghost use Rattle.kinds.specs.Kinds.{code_place, is_listed};
ghost use Rattle.machine.specs.Machine.{want_of, is_due, fresh_ring, vertices_of, fields_end, field_of, island_of, is_shut, ring_step, vertex_of, key_step, step_of, of_token, one_of};

use kinds::{fixed_vertices, is_listed, next_field, want_at};
use record::refusal::Refusal;
use record::{Mode, is_exact, line_at};
use token::{Want, lex};

// The ring, or the line, whose vertices are at work: whether it must close, whether its first vertex is yet to come,
// how many rings follow, how many vertices are left, and its first vertex.
#[derive(Clone, Copy, Debug, PartialEq, Eq)]
pub struct Ring {
    pub closed: bool,
    pub fresh: bool,
    pub rings: usize,
    pub left: usize,
    pub fx: usize,
    pub fy: usize,
}

// What the next record must be: a keyword; a field of a kind at a place of its row; an island's count, so many left,
// so many vertices spare; an x; a y, with its x.
#[derive(Clone, Copy, Debug, PartialEq, Eq)]
pub enum State {
    Due,
    Field {
        kind: usize,
        place: usize,
        islands: usize,
    },
    Island {
        left: usize,
        spare: usize,
        rings: usize,
    },
    X(Ring),
    Y(Ring, usize),
}

// One record at a state: the next state, its token, the content's length and the record's; or the EOF record's length.
#[derive(Clone, Copy, Debug, PartialEq, Eq)]
pub enum One {
    Go {
        state: State,
        token: usize,
        len: usize,
        width: usize,
    },
    End(usize),
}

// The places of a row that the machine goes by.
const CODE_PLACE: usize = 2;

const ISLANDS_PLACE: usize = 10;

const VERTICES_PLACE: usize = 11;

// What a content at a state is to be read as.
#[tactic(auto, unfolding(crate::specs::Machine::want_of))]
pub fn wanted(st: State) -> Want
    ensures { result ≡ want_of st }
{
    match st {
        State::Due => Want::Key,
        State::Field { place, .. } => want_at(place),
        State::Island { .. } => Want::Int,
        State::X(_) | State::Y(_, _) => Want::Real,
    }
}

fn is_due(st: State) -> bool
    ensures { result ≡ is_due st }
{
    matches!(st, State::Due)
}

// A ring, or a line, whose vertices are to come.
fn ring_of(closed: bool, rings: usize, left: usize) -> Ring
    ensures { result ≡ fresh_ring closed rings left }
{
    Ring {
        closed,
        fresh: true,
        rings,
        left,
        fx: 0,
        fy: 0,
    }
}

// After a count of vertices: the points follow, or the islands' counts.
#[tactic(auto, unfolding(crate::specs::Machine::vertices_of))]
fn vertices_step(kind: usize, islands: usize, n: usize) -> Result<Option<State>, Refusal>
    ensures { result ≡ vertices_of kind islands n }
{
    if kind != 1 {
        if n < 2 {
            return Err(Refusal::Count);
        }
        return Ok(Some(State::X(ring_of(false, 0, n))));
    }
    if n < 4 || (n - 4) / 4 < islands {
        return Err(Refusal::Count);
    }
    if islands == 0 {
        return Ok(Some(State::X(ring_of(true, 0, n))));
    }
    Ok(Some(State::Island {
        left: islands,
        spare: n,
        rings: islands,
    }))
}

// After the last field: a keyword, or the points that no record counts.
#[tactic(auto, unfolding(crate::specs::Machine::fields_end))]
fn fields_end(kind: usize) -> Result<Option<State>, Refusal>
    ensures { result ≡ fields_end kind }
{
    let n = fixed_vertices(kind);
    if n == 0 {
        return Ok(Some(State::Due));
    }
    vertices_step(kind, 0, n)
}

// A code that the mode refuses.
fn is_refused_code(mode: Mode, kind: usize, place: usize, n: usize) -> bool
    ensures { result ≡ (eqb place code_place && is_exact mode && not (is_listed kind n)) }
{
    place == CODE_PLACE && is_exact(mode) && !is_listed(kind, n)
}

// After a field of a row.
#[tactic(auto, unfolding(crate::specs::Machine::field_of))]
pub fn field_step(
    mode: Mode,
    kind: usize,
    place: usize,
    islands: usize,
    n: usize,
) -> Result<Option<State>, Refusal>
    ensures { result ≡ field_of mode kind place islands n }
{
    if is_refused_code(mode, kind, place, n) {
        return Err(Refusal::Code);
    }
    if place == VERTICES_PLACE {
        return vertices_step(kind, islands, n);
    }
    let next = next_field(kind, place);
    if next == 0 {
        return fields_end(kind);
    }
    let islands = if place == ISLANDS_PLACE { n } else { islands };
    Ok(Some(State::Field {
        kind,
        place: next,
        islands,
    }))
}

// After an island's count: four vertices at least are left for the outer ring.
#[tactic(auto, unfolding(crate::specs::Machine::island_of))]
fn island_step(left: usize, spare: usize, rings: usize, n: usize) -> Result<Option<State>, Refusal>
    ensures { result ≡ island_of left spare rings n }
{
    if n < 4 || spare < 4 || spare - 4 < n {
        return Err(Refusal::Count);
    }
    if left <= 1 {
        return Ok(Some(State::X(ring_of(true, rings, spare - n))));
    }
    Ok(Some(State::Island {
        left: left - 1,
        spare: spare - n,
        rings,
    }))
}

// The last vertex of a ring is its first.
#[tactic(auto, unfolding(crate::specs::Machine::is_shut))]
pub fn is_shut(closed: bool, fx: usize, fy: usize, x: usize, y: usize) -> bool
    ensures { result ≡ is_shut closed fx fy x y }
{
    !closed || x == fx && y == fy
}

// After a vertex (x, y) of a ring whose first is (fx, fy).
#[tactic(auto, unfolding(crate::specs::Machine::ring_step))]
fn ring_step(
    r: Ring,
    fx: usize,
    fy: usize,
    x: usize,
    y: usize,
    next: usize,
) -> Result<Option<State>, Refusal>
    ensures { result ≡ ring_step r fx fy x y next }
{
    if r.left > 1 {
        return Ok(Some(State::X(Ring {
            fresh: false,
            left: r.left - 1,
            fx,
            fy,
            ..r
        })));
    }
    if !is_shut(r.closed, fx, fy, x, y) {
        return Err(Refusal::OpenRing);
    }
    if r.rings == 0 {
        return Ok(Some(State::Due));
    }
    Ok(Some(State::X(ring_of(r.closed, r.rings - 1, next))))
}

#[tactic(auto, unfolding(crate::specs::Machine::vertex_of))]
fn vertex_step(r: Ring, x: usize, y: usize, next: usize) -> Result<Option<State>, Refusal>
    ensures { result ≡ vertex_of r x y next }
{
    if r.fresh {
        return ring_step(r, x, y, x, y, next);
    }
    ring_step(r, r.fx, r.fy, x, y, next)
}

// After a keyword.
#[tactic(auto, unfolding(crate::specs::Machine::key_step))]
fn key_step(t: usize) -> Result<Option<State>, Refusal>
    ensures { result ≡ key_step t }
{
    if t == 0 {
        return Ok(None);
    }
    let kind = t / 2;
    let first = next_field(kind, 0);
    if first == 0 {
        return Err(Refusal::Keyword);
    }
    Ok(Some(State::Field {
        kind,
        place: first,
        islands: 0,
    }))
}

// Where a token leads from a state, or no further, where the file ends; `next` is the size of the ring after the one at work.
#[tactic(auto, unfolding(crate::specs::Machine::step_of))]
pub fn step_at(mode: Mode, st: State, t: usize, next: usize) -> Result<Option<State>, Refusal>
    ensures { result ≡ step_of mode st t next }
{
    match st {
        State::Due => key_step(t),
        State::Field {
            kind,
            place,
            islands,
        } => field_step(mode, kind, place, islands, t),
        State::Island { left, spare, rings } => island_step(left, spare, rings, t),
        State::X(r) => Ok(Some(State::Y(r, t))),
        State::Y(r, x) => vertex_step(r, x, t, next),
    }
}

// A content at a state, in a record of `width` bytes.
fn content_at(c: &[u8], mode: Mode, st: State, next: usize, width: usize) -> Result<One, Refusal>
    ensures { result ≡ of_token mode st next (length c.now) width (lex_of mode (want_of st) c.now) }
{
    let token = lex(c, mode, wanted(st))?;
    match step_at(mode, st, token, next)? {
        Some(state) => Ok(One::Go {
            state,
            token,
            len: c.len(),
            width,
        }),
        None => Ok(One::End(width)),
    }
}

// One record at a state, at the front of the bytes.
#[tactic(auto, unfolding(crate::specs::Machine::one_of), using(crate::proofs::MachineWays::line_counted))]
pub fn one_at(bs: &[u8], mode: Mode, st: State, next: usize) -> Result<One, Refusal>
    ensures { result ≡ one_of mode st next bs.now }
{
    let line = line_at(bs, mode, is_due(st))?;
    content_at(&bs[..line.len], mode, st, next, line.width)
}
