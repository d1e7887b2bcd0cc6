// A tally that is handed in, and tallies laid out (document 01, "Areas").
ghost use Rattle.std.specs.Prelude.{◌≡◌};
ghost use Rattle.told.specs.Tallies.{tally_in, tally_laid, tally_told, take_told};

use tally::{Taken, Tally, Untallied, empty, refused_of};

#[repr(C)]
#[derive(Clone, Copy)]
pub struct CxfTally {
    pub number: usize,
    pub row: usize,
    pub figures: [i64; 24],
}

const FIGURES: usize = 24;

// The tally that is handed in. Of another length than 24 it is no tally: each figure is negative, which is refused 18.
#[tactic(auto, unfolding(crate::specs::Tallies::tally_in))]
pub fn tally_in(s: &[i64]) -> Tally
    ensures { result ≡ tally_in s.now }
{
    Tally {
        figures: s.try_into().unwrap_or([-1; 24]),
    }
}

fn laid(t: Tally, outcome: Result<(), Untallied>) -> CxfTally
    ensures { result ≡ tally_laid t outcome }
{
    let f = refused_of(outcome);
    // A proof of a literal takes an array by a variable alone.
    let figures = t.figures;
    CxfTally {
        number: f.number,
        row: f.row,
        figures,
    }
}

pub fn tally_told(taken: Taken) -> CxfTally
    ensures { result ≡ tally_told taken }
{
    laid(taken.tally, taken.outcome)
}

// The answer to a tally of so many figures.
pub fn take_told(count: usize, taken: Taken) -> CxfTally
    ensures { result ≡ take_told count taken }
{
    if count != FIGURES {
        return laid(empty(), taken.outcome);
    }
    tally_told(taken)
}
