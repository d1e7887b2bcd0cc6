// Runs the listing on several inputs, which stand in its file `stdin` with a byte 0 between them: sheets with every class of border
// and islands, eleven letters in each kind of sheet, a refusal of each sort that loose mode and a tally have, exactly 8,192 bytes and
// one more.
#![tactic(auto)]

use listing::{TEXT_MOST, list_text};
use std::io;
use std::io::{Print, Read};

// How much of standard input is looked at.
const INPUT_ROOM: u64 = 65536;

fn print_listing(rt: &HostRuntime, src: &[u8]) -> io::Result<()> {
    let mut text = [0u8; TEXT_MOST];
    match list_text(src, &mut text) {
        Ok(size) => rt.write_all(&text[..size]),
        // The array holds any listing.
        Err(_) => Ok(()),
    }
}

// A byte 0 at the end ends the last input; where there is nothing there is no input.
fn print_listings(rt: &HostRuntime, src: &[u8]) -> io::Result<()> {
    let inputs = match src {
        [] => return Ok(()),
        [front @ .., 0] => front,
        _ => src,
    };
    for input in inputs.split(|&b| b == 0) {
        print_listing(rt, input)?;
    }
    Ok(())
}

fn main(rt: HostRuntime) -> io::Result<()> {
    let mut src = Vec::new(rt.alloc());
    rt.stdin().take(INPUT_ROOM).read_to_end(&mut src)?;
    print_listings(&rt, &src)
}
