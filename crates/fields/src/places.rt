// Where things stand in terms, and what stands there of a schema's head.
ghost use Rattle.std.specs.Prelude.{◌≡◌, ◌+◌, ◌-◌, ◌*◌, ◌<◌, ◌≤◌, length, get_or};
ghost use Rattle.meaning.specs.Terms.{schema_at, kind_of};
ghost use Rattle.format.specs.Grammar.{file_of};
ghost use Rattle.format.specs.Fields.{terms_of};
ghost use Rattle.grammar.specs.Places.{Placed};
ghost use Rattle.grammar.specs.Props.{Placed_prop};

use crate::{Kinds, norm_type_of};
use grammar::{Outline, RANKS};
use meaning::{Event, NormType};

// How many kinds and schemas terms declare, and where the clause of each rank starts.
#[derive(Clone, Copy)]
pub struct Places<'a> {
    pub terms: &'a [u8],
    pub kinds: usize,
    pub schemas: usize,
    pub starts: &'a [usize; RANKS],
    pub ghost placed: { Placed terms.now kinds schemas starts.now } by { Placed_prop terms.now kinds schemas starts.now },
}

impl<'a> Places<'a> {
    // The places that an outline tells.
    pub fn of(outline: &'a Outline<'a>) -> Places<'a>
        ensures { (result.terms.now ≡ outline.now.terms.now) × (result.starts.now ≡ outline.now.layout.starts) × (result.schemas ≡ outline.now.layout.schemas) × (result.kinds ≡ outline.now.layout.kinds) }
    {
        let layout = &outline.layout;
        Places {
            terms: outline.terms,
            kinds: layout.kinds,
            schemas: layout.schemas,
            starts: &layout.starts,
        }
    }

    // The kinds.
    pub fn kinds(self) -> Kinds<'a>
        ensures { (result.terms.now ≡ self.entry.terms.now) × (result.count ≡ self.entry.kinds) }
    {
        Kinds {
            terms: self.terms,
            count: self.kinds,
        }
    }

    // Where the clause of a rank starts.
    pub fn start(self, rank: usize) -> usize
        requires { rank < 48 }
        ensures { result ≡ get_or self.entry.starts.now rank 0 }
    {
        self.starts[rank]
    }

    // Where the body of a schema's item 02 starts: its four bytes stand right before the create clause.
    pub fn head_at(self, schema: usize) -> usize
        requires { schema < length (file_of self.terms.now).schemas }
        ensures { (result ≡ get_or self.entry.starts.now (3 * schema) 0 - 4) × (result + 4 ≤ length self.entry.terms.now) }
    {
        self.start(3 * schema) - 4
    }

    // The norm type of a schema.
    pub fn norm_type(self, schema: usize) -> NormType
        requires { schema < length (file_of self.terms.now).schemas }
        ensures { result ≡ (schema_at (terms_of self.entry.terms.now) schema).type }
    {
        norm_type_of(self.terms[self.head_at(schema)])
    }

    // The subject kind of a schema; past the last schema it is 0.
    pub fn subject_of(self, schema: usize) -> u8
        ensures { result ≡ (schema_at (terms_of self.entry.terms.now) schema).subject }
    {
        if self.schemas <= schema {
            return 0;
        }
        self.terms[self.head_at(schema) + 1]
    }

    // The kind of the records by which an event happens.
    #[tactic(auto, unfolding(meaning::specs::Terms::kind_of))]
    pub fn kind_of(self, event: Event) -> u8
        ensures { result ≡ kind_of (terms_of self.entry.terms.now) event }
    {
        match event {
            Event::Kind(k) => k,
            Event::StageOf(_, schema) => self.subject_of(usize::from(schema)),
        }
    }
}
