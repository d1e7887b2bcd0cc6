// Runs the examples that document 01 wants run: the specification's own (000, 1.1.3 to 1.1.12), read in the former mode as they are printed, its
// blanks and notes kept, and written padded, in the exact layout; that text, read in exact mode and written again, gives the same
// bytes; then the tile example. Its file `stdin` has the printed form, its file `stdout` the padded one.
// Where 000 prints a part of a section alone, `stdin` has records of our own: before the vertices of 1.1.6 the first eight of its BORDO (the
// keyword to the inner point), behind 1.1.7 its 820 vertices (753 on a circle round the inner point, 67 on a smaller one), and the EOF. The two notes
// of 1.1.6 stand behind ten blanks as those of 1.1.7 do, where our text of 000 has a tab; the tab behind its vertices is left out.
#![tactic(auto)]

ghost use Rattle.std.specs.Prelude.{◌≤◌, length};

use made::{Lent, Sheet};
use reader::{Reading, read_as};
use record::Mode;
use std::io;
use std::io::{Print, Read};
use tile::tile_point;
use writer::write;

// How much of standard input is looked at.
const INPUT_ROOM: u64 = 65536;

// How many bytes of `out` hold the sheet's text; 0 where it is refused.
fn store(sheet: &Sheet<'_>, out: &mut [u8]) -> usize
    ensures { result ≤ length out.new }
{
    match write(sheet, out) {
        Ok(n) => n.min(out.len()),
        Err(_) => 0,
    }
}

// Reads a text in a mode and writes its sheet, padded.
fn pad(mode: Mode, src: &[u8], out: &mut [u8]) -> usize
    ensures { result ≤ length out.new }
{
    let mut rows = [0i64; 240];
    let mut letters = [0u8; 256];
    let mut islands = [0u16; 16];
    let mut points = [0i64; 2048];
    let answer = read_as(
        mode,
        src,
        &mut rows,
        &mut letters,
        &mut islands,
        &mut points,
    );
    match answer {
        Ok(Reading { header, needs }) => {
            let lent = Lent {
                rows: &rows,
                letters: &letters,
                islands: &islands,
                points: &points,
            };
            let sheet = Sheet {
                header,
                count: needs.rows,
                lent,
            };
            store(&sheet, out)
        }
        Err(_) => 0,
    }
}

fn print_sheet(rt: &HostRuntime, src: &[u8], text: &mut [u8], again: &mut [u8]) -> io::Result<()> {
    let n = pad(Mode::Former, src, text);
    rt.write_all(&text[..n])?;
    let m = pad(Mode::Exact, &text[..n], again);
    if &text[..n] == &again[..m] {
        rt.write_all(b"read again in exact mode, written again: the same bytes\n")?;
    }
    Ok(())
}

fn print_tile(rt: &HostRuntime) -> io::Result<()> {
    match tile_point(0, 512, 1000, 0) {
        Some(o) => {
            if o.east == 3.90625 {
                if o.south == 2.0 {
                    rt.write_all(b"3.90625 2.0\n")?;
                }
            }
        }
        None => {}
    }
    Ok(())
}

fn main(rt: HostRuntime) -> io::Result<()> {
    let mut src = Vec::new(rt.alloc());
    rt.stdin().take(INPUT_ROOM).read_to_end(&mut src)?;
    let mut text = [0u8; 32768];
    let mut again = [0u8; 32768];
    print_sheet(&rt, &src, &mut text, &mut again)?;
    print_tile(&rt)
}
