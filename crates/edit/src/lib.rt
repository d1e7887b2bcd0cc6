// Altering a sheet (document 02, T-08): a row is taken out, or the whole sheet is moved, in the tables that are lent.
// All is proved, and no public function has a `requires`. Everything is judged before anything is stored: a refusal alters nothing.
// The tables come one by one: they are lent to be altered, and `made::Lent` holds tables that are not.
#![tactic(auto)]

pub mod moving;
pub mod removing;

ghost use Rattle.std.specs.Prelude.{◌≡◌};
ghost use Rattle.edit.specs.declared.Unedited.TheVariants.{Refused};
ghost use Rattle.edit.specs.Answers.{unfound_as};

use made::Flaw;
use row::Unfound;

// Why a sheet is not altered: no such row (19); a move too far, or a coordinate off the real range (24); or what is wrong with the sheet (6, 15).
#[derive(Clone, Copy, Debug, PartialEq, Eq)]
pub enum Unedited {
    Missing,
    MovedOff,
    Refused(Flaw),
}

impl From<Flaw> for Unedited {
    ghost from_gives = { λ f r. r ≡ Refused f };

    fn from(flaw: Flaw) -> Unedited {
        Unedited::Refused(flaw)
    }
}

impl From<Unfound> for Unedited {
    ghost from_gives = { λ e r. r ≡ unfound_as e };

    fn from(unfound: Unfound) -> Unedited {
        match unfound {
            Unfound::Missing => Unedited::Missing,
            Unfound::Refused(flaw) => Unedited::Refused(flaw),
        }
    }
}
