// Why the calls refuse: what they answer is a `Result` with this error. No call stands here.
#![tactic(auto)]

ghost use Rattle.std.specs.Prelude.{◌≡◌, ◌++◌, Some, codes, decimal};
ghost use Rattle.calls.specs.Answers.{refusal_number};

use std::fmt;

// Why a call is refused, with the table's number, which is its order. 8 and 12 are never given (document 02, wish 3).
#[derive(Clone, Copy, Debug, PartialEq, Eq)]
pub enum Refusal {
    TermsTooLong = 1,
    BrokenGrammar = 2,
    FieldOutOfRange = 3,
    CitationTooHigh = 4,
    NothingShared = 5,
    UsedTooLong = 6,
    BrokenRecord = 7,
    KeyRepeats = 9,
    PageTooShort = 10,
    NotOneRecord = 11,
    KeyPresent = 13,
    NoRoom = 14,
    NoSchema = 15,
    NoSubject = 16,
}

// The table's number for a refusal.
impl From<Refusal> for u8 {
    ghost from_gives = { λ refusal number. number ≡ refusal_number refusal };

    fn from(refusal: Refusal) -> u8 {
        refusal as u8
    }
}

impl fmt::Display for Refusal {
    ghost output = { λ refusal. Some (codes "refused " ++ decimal (refusal_number refusal)) };

    fn fmt<W: fmt::Write>(&self, f: &mut fmt::Formatter<W>) -> fmt::Result {
        write!(f, "refused {}", u8::from(*self))
    }
}
