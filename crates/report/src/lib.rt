// Calls 4 and 5: a report on a lent page, and the standing of one agreement.
#![tactic(auto)]

mod asked;
mod rows;

ghost use Rattle.std.specs.Prelude.{◌≡◌, ◌<◌, length};
ghost use Rattle.meaning.specs.Rows.{is_sought};
ghost use Rattle.format.specs.Grammar.{file_of};
ghost use Rattle.format.specs.Records.{value_width};
ghost use Rattle.calls.specs.Answers.{counted_answer, standing_answer};
ghost use Rattle.calls.specs.Calls.{outcome, report, standing};
ghost use Rattle.report.specs.Shown.{FoundAt};
ghost use Rattle.report.specs.Wanted.{terms_asked, record_asked};

use accepted::Accepted;
use asked::Asked;
use calls::Refusal;
use event_log::check_log_under;
use grammar::Outline;
use index::Chains;
use meaning::Entries;
use records::Records;
use rows::{entries_of, is_subject, too_short, write_rows};

// How many bytes a row has.
pub const ROW_LENGTH: usize = 18;

// Call 4: the report at a moment. The checks, then whether the page holds all rows, and only then the rows.
pub fn report(
    terms: &[u8],
    log: &[u8],
    used: usize,
    moment: u32,
    page: &mut [u8],
) -> Result<usize, Refusal>
    ensures { outcome (counted_answer result) page.new ≡ report value_width terms.now log.now used moment page.old }
{
    let outline = Outline::of(terms);
    let mut chains = Chains::empty();
    let call = check_log_under(&outline, log, used, &mut chains)?;
    if too_short(&call, moment, page) {
        return Err(Refusal::PageTooShort);
    }
    Ok(write_rows(&call, moment, page))
}

// Whether a record is the subject that a standing asks for; the kind is compared first.
#[tactic(auto, unfolding(meaning::specs::Rows::is_sought, evaluate::specs::Seen::record_in))]
fn is_sought(asked: &Asked<'_>, key: u32) -> bool
    ensures { result ≡ is_sought (terms_asked asked.now) asked.now.schema key asked.now.moment (record_asked asked.now) }
{
    let record = asked.subject.record();
    is_subject(asked) && record.key() == key && record.stamp() < asked.moment
}

// The place of the subject of a schema with a key, stamped before the moment.
fn find_subject<'a>(call: &'a Accepted<'a>, schema: usize, key: u32, moment: u32) -> Option<usize>
    requires { schema < length (file_of call.now.terms.now).schemas }
    ensures { FoundAt call.now.terms.now call.now.bytes.now schema key moment result }
{
    Records::new(&call.log()).find(|at| is_sought(&Asked::of(call, *at, schema, moment), key))
}

// Call 5: the standing of the agreement of a schema with a key at a moment.
pub fn standing(
    terms: &[u8],
    log: &[u8],
    used: usize,
    schema: usize,
    key: u32,
    moment: u32,
) -> Result<Entries, Refusal>
    ensures { standing_answer result ≡ standing value_width terms.now log.now used schema key moment }
{
    let outline = Outline::of(terms);
    let mut chains = Chains::empty();
    let call = check_log_under(&outline, log, used, &mut chains)?;
    if outline.layout.schemas <= schema {
        return Err(Refusal::NoSchema);
    }
    let Some(at) = find_subject(&call, schema, key, moment) else {
        return Err(Refusal::NoSubject);
    };
    Ok(entries_of(&Asked::of(&call, at, schema, moment)))
}
