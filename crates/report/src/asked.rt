// What is asked for.
ghost use Rattle.std.specs.Prelude.{◌≡◌, ◌<◌, length};
ghost use Rattle.format.specs.Grammar.{file_of};

use accepted::{Accepted, Subject};

// A subject, under a schema, at a moment.
#[derive(Clone, Copy)]
pub(crate) struct Asked<'a> {
    pub(crate) subject: Subject<'a>,
    pub(crate) schema: usize,
    pub(crate) moment: u32,
    ghost declared: { schema < length (file_of subject.call.now.terms.now).schemas },
}

impl<'a> Asked<'a> {
    ghost use Rattle.format.specs.Fields.{terms_of};
    ghost use Rattle.records.specs.Holds.{Stands};

    // The record at a place as the subject.
    pub(crate) fn of(call: &'a Accepted<'a>, at: usize, schema: usize, moment: u32) -> Asked<'a>
        requires stands { Stands (terms_of call.now.terms.now) call.now.bytes.now at }
        requires declared { schema < length (file_of call.now.terms.now).schemas }
        ensures { (result.subject.call.now ≡ call.now) × (result.subject.at ≡ at) × (result.schema ≡ schema) × (result.moment ≡ moment) }
    {
        Asked {
            subject: Subject { call, at },
            schema,
            moment,
        }
    }
}
