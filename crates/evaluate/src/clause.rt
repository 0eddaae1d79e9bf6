// The clause for which something is asked: a subject, and one of three for each schema.
ghost use Rattle.std.specs.Prelude.{◌*◌, ◌<◌, length};
ghost use Rattle.format.specs.Grammar.{file_of};

use accepted::Subject;

// A clause, by its rank, and the subject for which it is asked.
#[derive(Clone, Copy)]
pub struct Clause<'a> {
    pub subject: Subject<'a>,
    pub rank: usize,
    ghost ranked: { rank < 3 * length (file_of subject.call.now.terms.now).schemas },
}

// The three clauses of a schema, for a subject.
#[derive(Clone, Copy)]
pub struct Clauses<'a> {
    pub create: Clause<'a>,
    pub detach: Clause<'a>,
    pub consequent: Clause<'a>,
}

impl<'a> Clauses<'a> {
    ghost use Rattle.evaluate.specs.Asked.{ClausesOf};

    // Those of a schema by its number: they follow one another in rank.
    #[tactic(auto, using(fields::proofs::Schemas::schemas_few))]
    pub fn of(subject: &Subject<'a>, schema: usize) -> Clauses<'a>
        requires { schema < length (file_of subject.now.call.now.terms.now).schemas }
        ensures { ClausesOf subject.now schema result }
    {
        let first = 3 * schema;
        Clauses {
            create: Clause {
                subject: *subject,
                rank: first,
            },
            detach: Clause {
                subject: *subject,
                rank: first + 1,
            },
            consequent: Clause {
                subject: *subject,
                rank: first + 2,
            },
        }
    }
}
