// The types that the engine's code and its definitions share; those of answers are in `calls`. No call stands here.
#![tactic(auto)]

ghost use Rattle.std.specs.Prelude.{◌≡◌, Some, ok_or};
ghost use Rattle.meaning.specs.Time.{later_of, earlier_of};
ghost use Rattle.meaning.specs.Stages.{stage_of, stage_number};
ghost use Rattle.meaning.specs.NormTypes.{NormTypes};
ghost use Rattle.meaning.specs.Meaning.{and_of, or_of, except_of};
ghost use Rattle.meaning.specs.Rows.{entry};
ghost use Rattle.meaning.specs.Text.{stage_name, row_text};

use std::fmt;

// A minute at which something happens, or none, which is later than any.
#[derive(Clone, Copy, Debug, PartialEq, Eq, PartialOrd, Ord)]
pub enum Time {
    At(u32),
    Never,
}

#[tactic(auto, unfolding(crate::specs::Time::later_of, crate::specs::Time::earlier_of))]
impl Time {
    // When both have happened.
    pub fn later_of(self, other: Time) -> Time
        ensures { result ≡ later_of self other }
    {
        match (self, other) {
            (Time::At(a), Time::At(b)) => Time::At(a.max(b)),
            _ => Time::Never,
        }
    }

    // When one of the two has happened.
    pub fn earlier_of(self, other: Time) -> Time
        ensures { result ≡ earlier_of self other }
    {
        match (self, other) {
            (Time::At(a), Time::At(b)) => Time::At(a.min(b)),
            (Time::Never, time) | (time, Time::Never) => time,
        }
    }
}

// The stages of an agreement.
#[derive(Clone, Copy, Debug, PartialEq, Eq)]
pub enum Stage {
    Created,
    Detached,
    Expired,
    Discharged,
    Violated,
}

impl Stage {
    pub const CREATED: u8 = 1;

    pub const DETACHED: u8 = 2;

    pub const EXPIRED: u8 = 3;

    pub const DISCHARGED: u8 = 4;

    pub const VIOLATED: u8 = 5;

    // The stages in the order of their numbers.
    pub const ALL: [Stage; 5] = [
        Stage::Created,
        Stage::Detached,
        Stage::Expired,
        Stage::Discharged,
        Stage::Violated,
    ];
}

// A form byte that names no stage.
#[derive(Clone, Copy, Debug, PartialEq, Eq)]
pub struct NotAStage(pub u8);

// The stage that a form byte names.
impl TryFrom<u8> for Stage {
    type Error = NotAStage;

    ghost try_from_gives = { λ form answer. answer ≡ ok_or (stage_of form) (record { 0 = form }) };

    fn try_from(form: u8) -> Result<Stage, NotAStage> {
        match form {
            Stage::CREATED => Ok(Stage::Created),
            Stage::DETACHED => Ok(Stage::Detached),
            Stage::EXPIRED => Ok(Stage::Expired),
            Stage::DISCHARGED => Ok(Stage::Discharged),
            Stage::VIOLATED => Ok(Stage::Violated),
            _ => Err(NotAStage(form)),
        }
    }
}

// The number that stands for a stage in a form byte and in a row.
impl From<Stage> for u8 {
    ghost from_gives = { λ stage number. number ≡ stage_number stage };

    fn from(stage: Stage) -> u8 {
        match stage {
            Stage::Created => Stage::CREATED,
            Stage::Detached => Stage::DETACHED,
            Stage::Expired => Stage::EXPIRED,
            Stage::Discharged => Stage::DISCHARGED,
            Stage::Violated => Stage::VIOLATED,
        }
    }
}

// The types of norm.
#[derive(Clone, Copy, Debug, PartialEq, Eq)]
pub enum NormType {
    Commitment,
    Authorization,
    Prohibition,
    Power,
}

// What a leaf or a bound refers to: records of a kind, or a stage of the schema with that number.
#[derive(Clone, Copy, Debug, PartialEq, Eq)]
pub enum Event {
    Kind(u8),
    StageOf(Stage, u8),
}

// An end of a window: an offset, an event plus or minus an offset, or no end.
#[derive(Clone, Copy, Debug, PartialEq, Eq)]
pub enum Bound {
    Plain(u32),
    Plus(Event, u32),
    Minus(Event, u32),
    Open,
}

// An event that is to happen from the lower bound up to the upper one.
#[derive(Clone, Copy, Debug, PartialEq, Eq)]
pub struct Leaf {
    pub event: Event,
    pub lower: Bound,
    pub upper: Bound,
}

// More than so many records of a kind, from the lower bound up to the upper one.
#[derive(Clone, Copy, Debug, PartialEq, Eq)]
pub struct CountLeaf {
    pub kind: u8,
    pub threshold: u32,
    pub lower: Bound,
    pub upper: Bound,
}

// A leaf of an expression: an event that happens in a window, or records that are counted in one.
#[derive(Clone, Copy, Debug, PartialEq, Eq)]
pub enum Atom {
    Happens(Leaf),
    Counts(CountLeaf),
}

// A bound's value: a minute, past the last one too, or no end, which is later than any.
#[derive(Clone, Copy, Debug, PartialEq, Eq, PartialOrd, Ord)]
pub enum Edge {
    Minute(u64),
    Endless,
}

// When an expression occurs, and when it fails.
#[derive(Clone, Copy, Debug, PartialEq, Eq)]
pub struct Times {
    pub occurs: Time,
    pub fails: Time,
}

#[tactic(auto, unfolding(crate::specs::Meaning::and_of, crate::specs::Meaning::or_of, crate::specs::Meaning::except_of))]
impl Times {
    // Both are needed, one failure is enough.
    pub fn and(self, other: Times) -> Times
        ensures { result ≡ and_of self other }
    {
        Times {
            occurs: self.occurs.later_of(other.occurs),
            fails: self.fails.earlier_of(other.fails),
        }
    }

    // One is enough, both have to fail.
    pub fn or(self, other: Times) -> Times
        ensures { result ≡ or_of self other }
    {
        Times {
            occurs: self.occurs.earlier_of(other.occurs),
            fails: self.fails.later_of(other.fails),
        }
    }

    // The first has to occur and the other to fail; the first's failure or the other's occurrence ends it.
    pub fn except(self, other: Times) -> Times
        ensures { result ≡ except_of self other }
    {
        Times {
            occurs: self.occurs.later_of(other.fails),
            fails: self.fails.earlier_of(other.occurs),
        }
    }
}

// A row of a report: a stage of a schema's agreement, its subject's key, the parties, and since which minute.
#[derive(Clone, Copy, Debug, PartialEq, Eq)]
pub struct Row {
    pub stage: Stage,
    pub schema: u8,
    pub key: u32,
    pub privileged: u32,
    pub liable: u32,
    pub time: u32,
}

// The five entries of a standing. Never stands for not yet.
#[derive(Clone, Copy, Debug, PartialEq, Eq)]
pub struct Entries {
    pub created: Time,
    pub detached: Time,
    pub expired: Time,
    pub discharged: Time,
    pub violated: Time,
}

impl Entries {
    // The entry of a stage.
    pub fn of(self, stage: Stage) -> Time
        ensures { result ≡ entry stage self }
    {
        match stage {
            Stage::Created => self.created,
            Stage::Detached => self.detached,
            Stage::Expired => self.expired,
            Stage::Discharged => self.discharged,
            Stage::Violated => self.violated,
        }
    }
}

impl fmt::Display for Stage {
    ghost output = { λ stage. Some (stage_name stage) };

    fn fmt<W: fmt::Write>(&self, f: &mut fmt::Formatter<W>) -> fmt::Result {
        f.write_str(match self {
            Stage::Created => "created",
            Stage::Detached => "detached",
            Stage::Expired => "expired",
            Stage::Discharged => "discharged",
            Stage::Violated => "violated",
        })
    }
}

impl fmt::Display for Row {
    ghost output = { λ row. Some (row_text row) };

    fn fmt<W: fmt::Write>(&self, f: &mut fmt::Formatter<W>) -> fmt::Result {
        let Row {
            stage,
            schema,
            key,
            privileged,
            liable,
            time,
        } = self;
        write!(f, "{stage} {schema} {key} {privileged} {liable} {time}")
    }
}

// A byte that names no type of norm.
#[derive(Clone, Copy, Debug, PartialEq, Eq)]
pub struct NotANormType(pub u8);

// The type of norm that a byte names.
impl TryFrom<u8> for NormType {
    type Error = NotANormType;

    ghost try_from_gives = { NormTypes };

    fn try_from(byte: u8) -> Result<NormType, NotANormType> {
        match byte {
            1 => Ok(NormType::Commitment),
            2 => Ok(NormType::Authorization),
            3 => Ok(NormType::Prohibition),
            4 => Ok(NormType::Power),
            _ => Err(NotANormType(byte)),
        }
    }
}
