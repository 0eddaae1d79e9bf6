// Times alone: the edges of a window, and a stage's time from the times of its clauses.
#![tactic(auto)]

ghost use Rattle.std.specs.Prelude.{◌≡◌, ◌+◌, ◌-◌};
ghost use Rattle.meaning.specs.Time.{later_of, before};
ghost use Rattle.meaning.specs.Meaning.{from_edge, before_edge, reached, stage_from};
ghost use Rattle.times.specs.NeededTimes.{detach_needs, consequent_needs, consequent_needs_all};

use meaning::{Edge, NormType, Stage, Time, Times};

// The last minute that a time can have.
pub const LAST_MINUTE: u64 = 4294967294;

// Which of a clause's two times a stage needs.
#[derive(Clone, Copy, Debug, PartialEq, Eq)]
pub enum Needed {
    Neither,
    Occurrence,
    Failure,
    Both,
}

// A time where it is before a moment, else none.
#[tactic(auto, unfolding(meaning::specs::Time::before))]
pub fn before(moment: u32, time: Time) -> Time
    ensures { result ≡ before moment time }
{
    match time {
        Time::At(minute) if minute < moment => time,
        _ => Time::Never,
    }
}

// An edge after a minute, by an offset.
pub fn plus(minute: u32, offset: u32) -> Edge
    ensures { result ≡ Edge.Minute (minute + offset) }
{
    Edge::Minute(u64::from(minute) + u64::from(offset))
}

// An edge before a minute, by an offset; below zero counts as zero.
pub fn minus(minute: u32, offset: u32) -> Edge
    ensures { result ≡ Edge.Minute (minute - offset) }
{
    Edge::Minute(u64::from(minute.saturating_sub(offset)))
}

// The time of an upper edge: none if it is open or past the last minute.
#[tactic(auto, unfolding(meaning::specs::Meaning::reached, meaning::specs::Time::cut, meaning::specs::Time::last_minute))]
pub fn reached(upper: Edge) -> Time
    ensures { result ≡ reached upper }
{
    match upper {
        Edge::Minute(edge) if edge <= LAST_MINUTE => Time::At(edge as u32),
        _ => Time::Never,
    }
}

// A window of time: its lower edge is inside, its upper one is not.
#[derive(Clone, Copy, Debug, PartialEq, Eq)]
pub struct Window {
    pub lower: Edge,
    pub upper: Edge,
}

impl Window {
    // A time where it is in the window, else none.
    #[tactic(auto, unfolding(meaning::specs::Meaning::from_edge, meaning::specs::Meaning::before_edge, meaning::specs::Time::from, meaning::specs::Time::before))]
    pub fn within(self, time: Time) -> Time
        ensures { result ≡ from_edge self.lower (before_edge self.upper time) }
    {
        let Time::At(minute) = time else {
            return Time::Never;
        };
        let edge = Edge::Minute(u64::from(minute));
        if self.lower <= edge && edge < self.upper {
            time
        } else {
            Time::Never
        }
    }
}

// The times of a schema's three clauses, for one subject.
#[derive(Clone, Copy, Debug, PartialEq, Eq)]
pub struct ClauseTimes {
    pub create: Times,
    pub detach: Times,
    pub consequent: Times,
}

impl ClauseTimes {
    // What brings a stage about, by the norm type.
    #[tactic(auto, unfolding(meaning::specs::Meaning::stage_from))]
    fn brought_about(self, stage: Stage, norm: NormType) -> Time
        ensures { result ≡ stage_from stage norm self.create self.detach self.consequent }
    {
        let ClauseTimes {
            create,
            detach,
            consequent,
        } = self;
        let detached = create.and(detach);
        match (stage, norm) {
            (Stage::Created, _) => create.occurs,
            (Stage::Detached, _) => detached.occurs,
            (Stage::Expired, _) => create.except(detach).occurs,
            (Stage::Discharged, NormType::Commitment) => create
                .and(consequent)
                .or(detach.and(consequent))
                .occurs,
            (Stage::Discharged, NormType::Authorization | NormType::Power) => detached
                .and(consequent)
                .occurs,
            (Stage::Discharged, NormType::Prohibition) => detached.except(consequent).occurs,
            (Stage::Violated, NormType::Commitment) => detached.except(consequent).occurs,
            (Stage::Violated, NormType::Authorization | NormType::Power) => Time::Never,
            (Stage::Violated, NormType::Prohibition) => detached.and(consequent).occurs,
        }
    }

    // A stage's time: not before its subject's stamp.
    pub fn stage_from(self, stage: Stage, norm: NormType, stamp: u32) -> Time
        ensures { result ≡ later_of (Time.At stamp) (stage_from stage norm self.create self.detach self.consequent) }
    {
        Time::At(stamp).later_of(self.brought_about(stage, norm))
    }
}

// What a stage needs of its detach clause.
pub fn detach_needs(stage: Stage) -> Needed
    ensures { result ≡ detach_needs stage }
{
    match stage {
        Stage::Created => Needed::Neither,
        Stage::Expired => Needed::Failure,
        Stage::Detached | Stage::Discharged | Stage::Violated => Needed::Occurrence,
    }
}

// What a stage needs of its consequent clause.
pub fn consequent_needs(stage: Stage, norm: NormType) -> Needed
    ensures { result ≡ consequent_needs stage norm }
{
    match (stage, norm) {
        (Stage::Created | Stage::Detached | Stage::Expired, _) => Needed::Neither,
        (Stage::Discharged, NormType::Prohibition) => Needed::Failure,
        (Stage::Discharged, _) => Needed::Occurrence,
        (Stage::Violated, NormType::Commitment) => Needed::Failure,
        (Stage::Violated, NormType::Prohibition) => Needed::Occurrence,
        (Stage::Violated, NormType::Authorization | NormType::Power) => Needed::Neither,
    }
}

// What the stages of a norm type need of the consequent clause, all five together.
pub fn consequent_needs_all(norm: NormType) -> Needed
    ensures { result ≡ consequent_needs_all norm }
{
    match norm {
        NormType::Commitment | NormType::Prohibition => Needed::Both,
        NormType::Authorization | NormType::Power => Needed::Occurrence,
    }
}
