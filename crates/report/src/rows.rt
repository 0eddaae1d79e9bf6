// The entries and the rows of subjects, schema by schema: counted, then written on a page.
ghost use Rattle.std.specs.Prelude.{◌≡◌, ℕ, ◌+◌, ◌*◌, ◌<◌, ◌≤◌, true, ltb, length};
ghost use Rattle.meaning.specs.declared.Row.{Row};
ghost use Rattle.meaning.specs.declared.Stage.{Stage};
ghost use Rattle.meaning.specs.Rows.{row_of, row_at, is_subject};
ghost use Rattle.format.specs.Bytes.{bytes_of, written};
ghost use Rattle.format.specs.Grammar.{file_of};
ghost use Rattle.format.specs.Records.{value_width, row_length, row_bytes};
ghost use Rattle.index.specs.Chains.{index_limit};
ghost use Rattle.report.specs.Shown.{row_by, rows_from, schemas_from, most_rows, with_rows};
ghost use Rattle.report.specs.Wanted.{terms_asked, record_asked, entries_asked, rows_asked};

use crate::ROW_LENGTH;
use crate::asked::Asked;
use accepted::Accepted;
use evaluate::{Clauses, clause_times};
use index::all_of;
use meaning::{Entries, Row, Stage, Time};
use records::{Records, value_of};
use table::VALUE_WIDTH;
use times::{ClauseTimes, Needed, before, consequent_needs_all};

// What all rows of a subject under a schema have in common.
#[derive(Clone, Copy, Debug, PartialEq, Eq)]
struct Agreement {
    schema: u8,
    key: u32,
    privileged: u32,
    liable: u32,
}

// Whether the record is a subject of the schema: of its subject kind.
#[tactic(auto, unfolding(meaning::specs::Rows::is_subject), using(crate::proofs::RowSteps::kind_is))]
pub(crate) fn is_subject(asked: &Asked<'_>) -> bool
    ensures { result ≡ is_subject (terms_asked asked.now) asked.now.schema (record_asked asked.now) }
{
    asked.subject.record().kind() == asked.subject.call.places().subject_of(asked.schema)
}

// The five entries of a subject. Each clause is worked out once for all five.
pub(crate) fn entries_of(asked: &Asked<'_>) -> Entries
    ensures { result ≡ entries_asked asked.now }
{
    let subject = &asked.subject;
    let norm = subject.call.places().norm_type(asked.schema);
    let clauses = Clauses::of(subject, asked.schema);
    let times = ClauseTimes {
        create: clause_times(&clauses.create, Needed::Occurrence),
        detach: clause_times(&clauses.detach, Needed::Both),
        consequent: clause_times(&clauses.consequent, consequent_needs_all(norm)),
    };
    let stamp = subject.record().stamp();
    let entry = |stage: Stage| before(asked.moment, times.stage_from(stage, norm, stamp));
    Entries {
        created: entry(Stage::Created),
        detached: entry(Stage::Detached),
        expired: entry(Stage::Expired),
        discharged: entry(Stage::Discharged),
        violated: entry(Stage::Violated),
    }
}

// How many rows an entry has.
#[tactic(auto, unfolding(meaning::specs::Rows::row_at))]
fn row_count(entry: Time) -> usize
    ensures { ((f : ℕ → Row) → result ≡ length (row_at f entry)) × (result ≤ 1) }
{
    match entry {
        Time::At(_) => 1,
        Time::Never => 0,
    }
}

// How many rows what is asked for has.
fn count_record(asked: &Asked<'_>) -> usize
    ensures { (result ≡ length (rows_asked asked.now)) × (result ≤ 5) }
{
    if !is_subject(asked) {
        return 0;
    }
    let entries = entries_of(asked);
    Stage::ALL
        .iter()
        .map(|stage| row_count(entries.of(*stage)))
        .sum()
}

// How many rows a schema has.
fn count_schema<'a>(call: &'a Accepted<'a>, schema: usize, moment: u32) -> usize
    requires { schema < length (file_of call.now.terms.now).schemas }
    ensures { (result ≡ length (rows_from call.now.terms.now call.now.bytes.now schema moment 0)) × (result ≤ 5 * index_limit) }
{
    Records::new(&call.log())
        .map(|at| count_record(&Asked::of(call, at, schema, moment)))
        .sum()
}

// How many rows a report has.
fn count_rows<'a>(call: &'a Accepted<'a>, moment: u32) -> usize
    ensures { result ≡ length (schemas_from call.now.terms.now call.now.bytes.now moment 0) }
{
    (0..call.layout.schemas)
        .map(|schema| count_schema(call, schema, moment))
        .sum()
}

// An upper bound on the rows of a schema: five for each record of its subject kind.
#[tactic(auto, unfolding(crate::specs::Shown::most_rows))]
fn schema_rows_at_most(call: &Accepted<'_>, schema: usize) -> usize
    ensures { (result ≡ most_rows call.now.terms.now call.now.bytes.now schema) × (result ≤ 5 * index_limit) }
{
    let subjects = all_of(call.places().subject_of(schema));
    5 * call.index().count_with(subjects)
}

// An upper bound on the rows of a report.
fn rows_at_most(call: &Accepted<'_>) -> usize
    ensures { (m : ℕ) → length (schemas_from call.now.terms.now call.now.bytes.now m 0) ≤ result }
{
    (0..call.layout.schemas)
        .map(|schema| schema_rows_at_most(call, schema))
        .sum()
}

// Whether a page is too short for the rows of a report. They are counted only where the upper bound does not fit.
#[tactic(auto, unfolding(format::specs::Records::row_length))]
pub(crate) fn too_short<'a>(call: &'a Accepted<'a>, moment: u32, page: &[u8]) -> bool
    ensures { result ≡ ltb (length page.now) (row_length value_width * length (schemas_from call.now.terms.now call.now.bytes.now moment 0)) }
{
    let room = page.len() / ROW_LENGTH;
    if rows_at_most(call) <= room {
        return false;
    }
    room < count_rows(call, moment)
}

// Whose rows they are: the schema, the key and the parties of the subject.
fn agreement_of(asked: &Asked<'_>) -> Agreement
    requires { is_subject (terms_asked asked.now) asked.now.schema (record_asked asked.now) ≡ true }
    ensures { (s : Stage) (t : ℕ) → row_by result s t ≡ row_of (terms_asked asked.now) asked.now.schema (record_asked asked.now) s t }
{
    let call = asked.subject.call;
    let record = asked.subject.record();
    let carrier = record.masked();
    let head = call.places().head_at(asked.schema);
    Agreement {
        schema: asked.schema as u8,
        key: record.key(),
        privileged: value_of(call.bytes, carrier, call.terms[head + 2]),
        liable: value_of(call.bytes, carrier, call.terms[head + 3]),
    }
}

// Puts a number on the page in four bytes, the low one first.
fn put_u32(page: &mut [u8], at: usize, n: u32)
    requires { at + 4 ≤ length page.old }
    ensures { page.new ≡ written page.old at (bytes_of 4 n) }
{
    page[at..at + 4].copy_from_slice(&n.to_le_bytes());
}

// Puts a row on the page.
#[tactic(auto, unfolding(format::specs::Records::row_length), using(crate::proofs::Pages::row_laws))]
fn put_row(page: &mut [u8], at: usize, row: Row)
    requires { at + row_length value_width ≤ length page.old }
    ensures { page.new ≡ written page.old at (row_bytes value_width row) }
{
    page[at] = u8::from(row.stage);
    page[at + 1] = row.schema;
    put_u32(page, at + 2, row.key);
    put_u32(page, at + 2 + VALUE_WIDTH, row.privileged);
    put_u32(page, at + 2 + 2 * VALUE_WIDTH, row.liable);
    put_u32(page, at + 2 + 3 * VALUE_WIDTH, row.time);
}

// Writes the row of an entry, if it has one. The place after it.
#[tactic(auto, unfolding(format::specs::Records::row_length, crate::specs::Shown::row_by), using(crate::proofs::Pages::no_rows, crate::proofs::Pages::row_in, crate::proofs::Pages::row_out))]
fn write_entry(page: &mut [u8], to: usize, agreement: Agreement, stage: Stage, entry: Time) -> usize
    requires { to + row_length value_width * length (row_at (row_by agreement stage) entry) ≤ length page.old }
    ensures { (result ≡ to + row_length value_width * length (row_at (row_by agreement stage) entry)) × (page.new ≡ with_rows page.old to (row_at (row_by agreement stage) entry)) }
{
    let Time::At(time) = entry else {
        return to;
    };
    let row = Row {
        stage,
        schema: agreement.schema,
        key: agreement.key,
        privileged: agreement.privileged,
        liable: agreement.liable,
        time,
    };
    put_row(page, to, row);
    to + ROW_LENGTH
}

// Writes the rows of what is asked for. The place after them.
fn write_record(asked: &Asked<'_>, page: &mut [u8], from: usize) -> usize
    requires { from + row_length value_width * length (rows_asked asked.now) ≤ length page.old }
    ensures { (result ≡ from + row_length value_width * length (rows_asked asked.now)) × (page.new ≡ with_rows page.old from (rows_asked asked.now)) }
{
    if !is_subject(asked) {
        return from;
    }
    let entries = entries_of(asked);
    let whose = agreement_of(asked);
    let mut to = from;
    for stage in &Stage::ALL {
        to = write_entry(page, to, whose, *stage, entries.of(*stage));
    }
    to
}

// Writes the rows of a schema. The place after them.
fn write_schema<'a>(
    call: &'a Accepted<'a>,
    schema: usize,
    moment: u32,
    page: &mut [u8],
    from: usize,
) -> usize
    requires schema_in_bounds { schema < length (file_of call.now.terms.now).schemas }
    requires rows_fit { from + row_length value_width * length (rows_from call.now.terms.now call.now.bytes.now schema moment 0) ≤ length page.old }
    ensures { (result ≡ from + row_length value_width * length (rows_from call.now.terms.now call.now.bytes.now schema moment 0)) × (page.new ≡ with_rows page.old from (rows_from call.now.terms.now call.now.bytes.now schema moment 0)) }
{
    let mut to = from;
    for at in Records::new(&call.log()) {
        to = write_record(&Asked::of(call, at, schema, moment), page, to);
    }
    to
}

// Writes all rows, from the page's first byte. How many there are.
pub(crate) fn write_rows<'a>(call: &'a Accepted<'a>, moment: u32, page: &mut [u8]) -> usize
    requires { row_length value_width * length (schemas_from call.now.terms.now call.now.bytes.now moment 0) ≤ length page.old }
    ensures { (result ≡ length (schemas_from call.now.terms.now call.now.bytes.now moment 0)) × (page.new ≡ with_rows page.old 0 (schemas_from call.now.terms.now call.now.bytes.now moment 0)) }
{
    let mut to: usize = 0;
    for schema in 0..call.layout.schemas {
        to = write_schema(call, schema, moment, page, to);
    }
    to / ROW_LENGTH
}
