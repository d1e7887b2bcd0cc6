// A row from its keyword up to its vertices in one go, for both passes, for speed. What is not in the usual order is not seen, and the walk takes its turns.
ghost use Rattle.std.specs.Prelude.{◌≡◌, true, ◌+◌, ◌*◌, ◌/◌, ◌%◌, ◌<◌, ◌≤◌, length, take, drop, IfSome};
ghost use Rattle.laws.specs.Lists.{pasted};
ghost use Rattle.record.specs.Record.{is_exact};
ghost use Rattle.record.specs.Refusals.{file_most};
ghost use Rattle.kinds.specs.Kinds.{row_width};
ghost use Rattle.quick.specs.Seen.{RealAt, IntegerAt, Usual};
ghost use Rattle.sheet.specs.Tables.{new_row};
ghost use Rattle.reader.specs.Store.{Counted, starts_behind};
ghost use Rattle.reader.specs.Trust.{Vouched};
ghost use Rattle.reader.specs.Heads.{KeySays, IsTrim, WordSays, LeadAt, CountsAt, CodeGoes, Countable, PointIn, PointAt, PointsAt, HeadAt, HeadRead, HeadFew, border_cells, note_cells, sign_cells, mark_cells, path_cells, rows_head};

use crate::cells::{put_letters, put_number, put_real, put_row};
use crate::first_runs::first_at;
use crate::ring_runs::{judged_width, trusted_width};
use crate::turns::size_of;
use crate::{First, Needs, RowHead, Said, Size, TwoPoints, TwoSaid};
use kinds::ROW_WIDTH;
use machine::field_step;
use quick::by_word::usual_value;
use quick::integers::{integer_at, loose_integer};
use quick::real_at;
use record::{Mode, is_exact, is_same, line_at};
use token::{Want, lex};

const CODE_PLACE: usize = 2;

// BORDO's record, the most frequent of all: its bytes.
fn border_key(src: &[u8], at: usize, mode: Mode) -> Option<usize>
    ensures { IfSome result (λ w. KeySays mode src.now at w 2) }
{
    let n = src.len();
    if n < 7 {
        return None;
    }
    if at > n - 7 {
        return None;
    }
    let e = at + 5;
    if !is_same(&src[at..e], b"BORDO") {
        return None;
    }
    let b = src[e];
    if b == 13 {
        if src[e + 1] == 10 {
            return Some(7);
        }
        return None;
    }
    if is_exact(mode) {
        return None;
    }
    if b == 10 {
        return Some(6);
    }
    None
}

// A keyword's record.
pub(crate) fn key_at(src: &[u8], at: usize, mode: Mode) -> Option<Said>
    ensures { IfSome result (λ r. KeySays mode src.now at r.width r.token) }
{
    if let Some(width) = border_key(src, at, mode) {
        return Some(Said { token: 2, width });
    }
    if at > src.len() {
        return None;
    }
    let bs = &src[at..];
    let Ok(line) = line_at(bs, mode, true) else {
        return None;
    };
    let Ok(token) = lex(&bs[..line.len], mode, Want::Key) else {
        return None;
    };
    Some(Said {
        token,
        width: line.width,
    })
}

// Bytes, and no blank at an end of them.
fn is_trim(c: &[u8]) -> bool
    ensures { result ≡ true → IsTrim c.now }
{
    let n = c.len();
    if n == 0 {
        return false;
    }
    if c[0] == 32 {
        return false;
    }
    c[n - 1] != 32
}

// Letters with no blank at an end.
pub(crate) fn word_at(src: &[u8], at: usize, mode: Mode) -> Option<Said>
    ensures { IfSome result (λ r. WordSays mode src.now at r.width r.token) }
{
    if at > src.len() {
        return None;
    }
    let bs = &src[at..];
    let Ok(line) = line_at(bs, mode, false) else {
        return None;
    };
    if !is_trim(&bs[..line.len]) {
        return None;
    }
    Some(Said {
        token: line.len,
        width: line.width,
    })
}

// An integer's record in any form.
fn slow_integer(src: &[u8], at: usize, mode: Mode) -> Option<Said>
    ensures { IfSome result (λ r. IntegerAt mode src.now at r.width r.token) }
{
    if at > src.len() {
        return None;
    }
    let Size { n, width } = size_of(&src[at..], mode);
    if width == 0 {
        return None;
    }
    Some(Said { token: n, width })
}

// An integer's record.
pub(crate) fn integer_said(src: &[u8], at: usize, mode: Mode) -> Option<Said>
    ensures { IfSome result (λ r. IntegerAt mode src.now at r.width r.token) }
{
    let q = integer_at(src, at, mode);
    if q.width > 0 {
        return Some(Said {
            token: q.value,
            width: q.width,
        });
    }
    if is_exact(mode) {
        return slow_integer(src, at, mode);
    }
    let p = loose_integer(src, at, mode);
    if p.width > 0 {
        return Some(Said {
            token: p.value,
            width: p.width,
        });
    }
    slow_integer(src, at, mode)
}

// Letters and an integer.
fn lead_at(src: &[u8], at: usize, mode: Mode) -> Option<TwoSaid>
    ensures { IfSome result (λ r. LeadAt mode src.now at r.first r.second r.next) }
{
    let a = word_at(src, at, mode)?;
    let mid = at + a.width;
    let b = integer_said(src, mid, mode)?;
    Some(TwoSaid {
        first: a.token,
        second: b.token,
        next: mid + b.width,
    })
}

// Two integers.
fn counts_at(src: &[u8], at: usize, mode: Mode) -> Option<TwoSaid>
    ensures { IfSome result (λ r. CountsAt mode src.now at r.first r.second r.next) }
{
    let a = integer_said(src, at, mode)?;
    let mid = at + a.width;
    let b = integer_said(src, mid, mode)?;
    Some(TwoSaid {
        first: a.token,
        second: b.token,
        next: mid + b.width,
    })
}

// The mode takes the code of a kind.
fn is_taken(mode: Mode, kind: usize, code: usize) -> bool
    ensures { result ≡ true → CodeGoes mode kind code }
{
    matches!(field_step(mode, kind, CODE_PLACE, 0, code), Ok(Some(_)))
}

// Counts that a row of a kind may have.
fn is_countable(kind: usize, islands: usize, vertices: usize) -> bool
    ensures { result ≡ true → Countable kind islands vertices }
{
    if kind != 1 {
        return vertices >= 2;
    }
    if vertices < 4 {
        return false;
    }
    (vertices - 4) / 4 >= islands
}

// The bytes of each record, where `n` reals stand in their usual form. In a file that exact mode has judged they are trusted.
fn reals_width(src: &[u8], at: usize, mode: Mode, n: usize, judged: bool) -> Option<usize>
    requires { judged ≡ true → is_exact mode ≡ true → Usual mode src.now at 14 n }
    ensures { IfSome result (λ w. Usual mode src.now at w n) }
{
    if judged {
        return trusted_width(src, at, mode, n);
    }
    judged_width(src, at, mode, n)
}

// The angle of a row.
fn angle_at(src: &[u8], at: usize, mode: Mode, judged: bool) -> Option<Said>
    requires { judged ≡ true → is_exact mode ≡ true → Usual mode src.now at 14 1 }
    ensures { IfSome result (λ r. RealAt mode src.now at r.width r.token) }
{
    if judged {
        if is_exact(mode) {
            return Some(Said {
                token: usual_value(src, at),
                width: 14,
            });
        }
    }
    let q = real_at(src, at, mode);
    if q.width == 0 {
        return None;
    }
    Some(Said {
        token: q.value,
        width: q.width,
    })
}

// Two reals of one width, whose numbers are read where the file is judged.
fn usual_point(src: &[u8], at: usize, width: usize, judged: bool) -> First
    requires { at + 2 * width < 18446744073709551616 }
    ensures { PointIn src.now at width judged result }
{
    let next = at + 2 * width;
    if judged {
        return First {
            x: usual_value(src, at),
            y: usual_value(src, at + width),
            next,
        };
    }
    First { x: 0, y: 0, next }
}

// A point of a row. Its numbers are wanted, and read, where the file is judged.
fn point_at(src: &[u8], at: usize, mode: Mode, judged: bool) -> Option<First>
    requires at_in_bounds { (at ≤ length src.now) × (length src.now ≤ file_most) }
    requires usual { judged ≡ true → is_exact mode ≡ true → Usual mode src.now at 14 2 }
    ensures { IfSome result (λ r. PointAt mode src.now at judged r.x r.y r.next) }
{
    if let Some(width) = reals_width(src, at, mode, 2, judged) {
        return Some(usual_point(src, at, width, judged));
    }
    first_at(src, at, mode)
}

// Two points.
fn points_at(src: &[u8], at: usize, mode: Mode, judged: bool) -> Option<TwoPoints>
    requires at_in_bounds { (at ≤ length src.now) × (length src.now ≤ file_most) }
    requires usual { judged ≡ true → is_exact mode ≡ true → Usual mode src.now at 14 4 }
    ensures { IfSome result (λ r. PointsAt mode src.now at judged r) }
{
    if let Some(width) = reals_width(src, at, mode, 4, judged) {
        let p = usual_point(src, at, width, judged);
        let q = usual_point(src, p.next, width, judged);
        return Some(TwoPoints {
            x: p.x,
            y: p.y,
            x2: q.x,
            y2: q.y,
            next: q.next,
        });
    }
    let p = first_at(src, at, mode)?;
    let q = first_at(src, p.next, mode)?;
    Some(TwoPoints {
        x: p.x,
        y: p.y,
        x2: q.x,
        y2: q.y,
        next: q.next,
    })
}

// BORDO.
fn border_at(src: &[u8], at: usize, mode: Mode, key: Said, judged: bool) -> Option<RowHead>
    requires key_says { KeySays mode src.now at key.width key.token × (key.token / 2 ≡ 1) }
    requires vouched { Vouched mode src.now at judged × (length src.now ≤ file_most) }
    ensures { IfSome result (λ h. HeadRead mode src.now at judged h) }
{
    let word = at + key.width;
    let lead = lead_at(src, word, mode)?;
    let a = angle_at(src, lead.next, mode, judged)?;
    let p = points_at(src, lead.next + a.width, mode, judged)?;
    let counts = counts_at(src, p.next, mode)?;
    if !is_countable(1, counts.first, counts.second) {
        return None;
    }
    Some(RowHead {
        token: key.token,
        letters: lead.first,
        word,
        number: lead.second,
        angle: a.token,
        x: p.x,
        y: p.y,
        x2: p.x2,
        y2: p.y2,
        islands: counts.first,
        vertices: counts.second,
        records: 10,
        next: counts.next,
    })
}

// TESTO.
fn note_at(src: &[u8], at: usize, mode: Mode, key: Said, judged: bool) -> Option<RowHead>
    requires key_says { KeySays mode src.now at key.width key.token × (key.token / 2 ≡ 2) }
    requires vouched { Vouched mode src.now at judged × (length src.now ≤ file_most) }
    ensures { IfSome result (λ h. HeadRead mode src.now at judged h) }
{
    let word = at + key.width;
    let lead = lead_at(src, word, mode)?;
    let a = angle_at(src, lead.next, mode, judged)?;
    let p = point_at(src, lead.next + a.width, mode, judged)?;
    Some(RowHead {
        token: key.token,
        letters: lead.first,
        word,
        number: lead.second,
        angle: a.token,
        x: p.x,
        y: p.y,
        x2: 0,
        y2: 0,
        islands: 0,
        vertices: 0,
        records: 6,
        next: p.next,
    })
}

// SIMBOLO.
fn sign_at(src: &[u8], at: usize, mode: Mode, key: Said, judged: bool) -> Option<RowHead>
    requires key_says { KeySays mode src.now at key.width key.token × (key.token / 2 ≡ 3) }
    requires vouched { Vouched mode src.now at judged × (length src.now ≤ file_most) }
    ensures { IfSome result (λ h. HeadRead mode src.now at judged h) }
{
    let code = at + key.width;
    let n = integer_said(src, code, mode)?;
    if !is_taken(mode, 3, n.token) {
        return None;
    }
    let angle = code + n.width;
    let a = angle_at(src, angle, mode, judged)?;
    let p = point_at(src, angle + a.width, mode, judged)?;
    Some(RowHead {
        token: key.token,
        letters: 0,
        word: 0,
        number: n.token,
        angle: a.token,
        x: p.x,
        y: p.y,
        x2: 0,
        y2: 0,
        islands: 0,
        vertices: 0,
        records: 5,
        next: p.next,
    })
}

// FIDUCIALE.
fn mark_at(src: &[u8], at: usize, mode: Mode, key: Said, judged: bool) -> Option<RowHead>
    requires key_says { KeySays mode src.now at key.width key.token × (key.token / 2 ≡ 4) }
    requires vouched { Vouched mode src.now at judged × (length src.now ≤ file_most) }
    ensures { IfSome result (λ h. HeadRead mode src.now at judged h) }
{
    let word = at + key.width;
    let lead = lead_at(src, word, mode)?;
    if !is_taken(mode, 4, lead.second) {
        return None;
    }
    let p = points_at(src, lead.next, mode, judged)?;
    Some(RowHead {
        token: key.token,
        letters: lead.first,
        word,
        number: lead.second,
        angle: 0,
        x: p.x,
        y: p.y,
        x2: p.x2,
        y2: p.y2,
        islands: 0,
        vertices: 0,
        records: 7,
        next: p.next,
    })
}

// LINEA.
fn path_at(src: &[u8], at: usize, mode: Mode, key: Said) -> Option<RowHead>
    requires { KeySays mode src.now at key.width key.token × (key.token / 2 ≡ 5) }
    ensures { IfSome result (λ h. HeadAt mode src.now at h) }
{
    let code = at + key.width;
    let counts = counts_at(src, code, mode)?;
    if !is_taken(mode, 5, counts.first) {
        return None;
    }
    if !is_countable(5, 0, counts.second) {
        return None;
    }
    Some(RowHead {
        token: key.token,
        letters: 0,
        word: 0,
        number: counts.first,
        angle: 0,
        x: 0,
        y: 0,
        x2: 0,
        y2: 0,
        islands: 0,
        vertices: counts.second,
        records: 3,
        next: counts.next,
    })
}

// A row's head at a place, where the usual records are read.
pub(crate) fn head_at(src: &[u8], at: usize, mode: Mode, judged: bool) -> Option<RowHead>
    requires { Vouched mode src.now at judged × (length src.now ≤ file_most) }
    ensures { IfSome result (λ h. HeadRead mode src.now at judged h) }
{
    let key = key_at(src, at, mode)?;
    match key.token / 2 {
        1 => border_at(src, at, mode, key, judged),
        2 => note_at(src, at, mode, key, judged),
        3 => sign_at(src, at, mode, key, judged),
        4 => mark_at(src, at, mode, key, judged),
        5 => path_at(src, at, mode, key),
        _ => None,
    }
}

// The numbers of a BORDO, in the row that begins at b.
fn border_into(rows: &mut [i64], b: usize, h: RowHead)
    requires { (b + row_width ≤ length rows.old) × HeadFew h }
    ensures { rows.new ≡ border_cells h b rows.old }
{
    put_number(rows, b + 9, h.letters);
    put_number(rows, b + 3, h.number);
    put_real(rows, b + 4, h.angle);
    put_real(rows, b + 5, h.x);
    put_real(rows, b + 6, h.y);
    put_real(rows, b + 7, h.x2);
    put_real(rows, b + 8, h.y2);
    put_number(rows, b + 10, h.islands);
    put_number(rows, b + 11, h.vertices);
}

// Of a TESTO.
fn note_into(rows: &mut [i64], b: usize, h: RowHead)
    requires { (b + row_width ≤ length rows.old) × HeadFew h }
    ensures { rows.new ≡ note_cells h b rows.old }
{
    put_number(rows, b + 9, h.letters);
    put_number(rows, b + 3, h.number);
    put_real(rows, b + 4, h.angle);
    put_real(rows, b + 5, h.x);
    put_real(rows, b + 6, h.y);
}

// Of a SIMBOLO.
fn sign_into(rows: &mut [i64], b: usize, h: RowHead)
    requires { (b + row_width ≤ length rows.old) × HeadFew h }
    ensures { rows.new ≡ sign_cells h b rows.old }
{
    put_number(rows, b + 2, h.number);
    put_real(rows, b + 4, h.angle);
    put_real(rows, b + 5, h.x);
    put_real(rows, b + 6, h.y);
}

// Of a FIDUCIALE.
fn mark_into(rows: &mut [i64], b: usize, h: RowHead)
    requires { (b + row_width ≤ length rows.old) × HeadFew h }
    ensures { rows.new ≡ mark_cells h b rows.old }
{
    put_number(rows, b + 9, h.letters);
    put_number(rows, b + 2, h.number);
    put_real(rows, b + 5, h.x);
    put_real(rows, b + 6, h.y);
    put_real(rows, b + 7, h.x2);
    put_real(rows, b + 8, h.y2);
}

// Of a LINEA.
fn path_into(rows: &mut [i64], b: usize, h: RowHead)
    requires { (b + row_width ≤ length rows.old) × HeadFew h }
    ensures { rows.new ≡ path_cells h b rows.old }
{
    put_number(rows, b + 2, h.number);
    put_number(rows, b + 11, h.vertices);
}

// The numbers of a head, in the row that begins at b.
fn numbers_into(rows: &mut [i64], b: usize, h: RowHead)
    requires { (b + row_width ≤ length rows.old) × HeadFew h }
    ensures { rows.new ≡ rows_head h b rows.old }
{
    match h.token / 2 {
        1 => border_into(rows, b, h),
        2 => note_into(rows, b, h),
        3 => sign_into(rows, b, h),
        4 => mark_into(rows, b, h),
        _ => path_into(rows, b, h),
    }
}

// A table of `len` numbers holds a row behind `count` rows, and one of `room` letters `n` letters behind `from`.
pub(crate) fn holds_head(len: usize, count: usize, room: usize, from: usize, n: usize) -> bool
    ensures { result ≡ true → (row_width * count + row_width ≤ len) × (from + n ≤ room) }
{
    len / ROW_WIDTH > count && room >= from && room - from >= n
}

// A row's head and its letters are stored, where the tables hold `a` already.
pub(crate) fn head_into(src: &[u8], h: RowHead, a: Needs, rows: &mut [i64], letters: &mut [u8])
    requires head_few { HeadFew h × Counted a × (h.word + h.letters ≤ length src.now) × (length src.now ≤ file_most) }
    requires row_width_in_bounds { (row_width * a.rows + row_width ≤ length rows.old) × (a.letters + h.letters ≤ length letters.old) }
    ensures rows_after { rows.new ≡ rows_head h (row_width * a.rows) (pasted rows.old (row_width * a.rows) (new_row h.token (starts_behind a))) }
    ensures letters_after { letters.new ≡ pasted letters.old a.letters (take h.letters (drop h.word src.now)) }
{
    let base = ROW_WIDTH * a.rows;
    put_row(rows, base, h.token, a);
    numbers_into(rows, base, h);
    put_letters(letters, a.letters, &src[h.word..h.word + h.letters]);
}
