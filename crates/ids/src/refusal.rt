// Why a routine refuses: the rows of document 01's table of refusals, with 02's, by name. Each has its number in the documents.
ghost use Rattle.std.specs.Prelude.{◌≡◌};
ghost use Rattle.ids.specs.Refusal.{refusal_number};

use std::error::Error;
use std::fmt;

#[derive(Clone, Copy, Debug, PartialEq, Eq)]
pub enum Refusal {
    TooMany,
    Unit,
    ShortArea,
    Float,
    File,
    FileTooLarge,
    Edition,
}

impl From<Refusal> for u32 {
    ghost from_gives = { λ refusal n. n ≡ refusal_number refusal };

    fn from(refusal: Refusal) -> u32 {
        match refusal {
            Refusal::TooMany => 1,
            Refusal::Unit => 2,
            Refusal::ShortArea => 3,
            Refusal::Float => 4,
            Refusal::File => 5,
            Refusal::FileTooLarge => 6,
            Refusal::Edition => 7,
        }
    }
}

impl fmt::Display for Refusal {
    fn fmt<W: fmt::Write>(&self, f: &mut fmt::Formatter<W>) -> fmt::Result {
        f.write_str(match self {
            Refusal::TooMany => "more than 98304 floats or ids",
            Refusal::Unit => "the unit is not between 2^-20 and 16",
            Refusal::ShortArea => "a lent area is too short",
            Refusal::Float => "a float is not finite or above 2^33",
            Refusal::File => "the bytes are no such file",
            Refusal::FileTooLarge => "the file has more than can be read",
            Refusal::Edition => "no such edition of the slope rule",
        })
    }
}

impl Error for Refusal {}
