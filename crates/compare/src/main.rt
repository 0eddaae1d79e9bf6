// Runs the five calls on generated cases and compares what they answer and leave in memory with what a second implementation did.
//
// tests/make-cases writes the cases and that implementation's answers: how many cases there are, then each case, a head and its bytes. The
// head has twenty numbers. All numbers have four bytes.
//   0 to 4   how many bytes there are of terms, of log buffer, used ones of it, of the event, of the page
//   5 to 7   moment, schema number, key
//   8 to 19  answers: call 1; call 2; call 3 and its length; call 4 and its count; call 5 and its five entries
// The bytes are terms, log buffer, event; then the buffer as call 3 left it, and the page as call 4 did.
#![tactic(auto)]

mod answer;
mod case;

ghost use Rattle.std.specs.Prelude.{◌≡◌, ◌↔◌, ◌*◌, ◌≤◌, IfOk, IsTrue};

use answer::Answer;
use append::append;
use case::{Case, PAGE_ROOM, Room, read_case};
use console::{Failure, at_end, end, read_number};
use event_log::check_log;
use meaning::{Entries, Time};
use report::{report, standing};
use std::io::Read;
use terms::check_terms;

// What stands in each byte of a page before call 4.
const UNWRITTEN: u8 = 165;

// What stands for the entries of a standing that is refused.
const NO_ENTRIES: Entries = Entries {
    created: Time::Never,
    detached: Time::Never,
    expired: Time::Never,
    discharged: Time::Never,
    violated: Time::Never,
};

// How many calls a case compares.
const CALLS: u64 = 5;

// Prints that an answer differs, where it does. How many that are. A line that cannot be written is let go, and counts.
fn tell(rt: &impl Print, case: u32, call: u32, same: bool) -> u64
    ensures { result ≤ 1 }
{
    if same {
        return 0;
    }
    let _ = println!(rt; "case {case}: call {call} differs");
    1
}

// Whether each byte that a call left is what the second implementation left there.
fn same_bytes(left: &[u8], after: &[u8]) -> bool
    ensures { IsTrue result ↔ left.now ≡ after.now }
{
    left == after
}

// Compares calls 1 and 2. How many answers differ.
fn compare_checks(rt: &impl Print, number: u32, case: &Case<'_>) -> u64
    ensures { result ≤ 2 }
{
    let terms = Answer::of(check_terms(case.terms), ());
    let log = Answer::of(check_log(case.terms, case.log, case.used), ());
    let first = tell(rt, number, 1, terms == case.answers.check_terms);
    first + tell(rt, number, 2, log == case.answers.check_log)
}

// Compares calls 4 and 5, and each byte of the page. How many answers differ.
fn compare_reports(rt: &impl Print, number: u32, case: &Case<'_>) -> u64
    ensures { result ≤ 2 }
{
    let Case {
        terms,
        log,
        used,
        moment,
        ..
    } = case;
    let mut page = [UNWRITTEN; PAGE_ROOM];
    let page = &mut page[..case.page_after.len()];
    let rows = Answer::of(report(terms, log, *used, *moment, page), 0);
    let stands = standing(terms, log, *used, case.schema, case.key, *moment);
    let entries = Answer::of(stands, NO_ENTRIES);
    let same = same_bytes(page, case.page_after) && rows == case.answers.report;
    let fourth = tell(rt, number, 4, same);
    fourth + tell(rt, number, 5, entries == case.answers.standing)
}

// Compares call 3, and each byte of the log buffer, in which it writes. How many answers differ.
fn compare_append(rt: &impl Print, number: u32, case: &mut Case<'_>) -> u64
    ensures { result ≤ 1 }
{
    let Case {
        terms,
        used,
        event,
        answers,
        log_after,
        ..
    } = *case;
    let length = Answer::of(append(terms, case.log, used, event), 0);
    let same = same_bytes(case.log, log_after) && length == answers.append;
    tell(rt, number, 3, same)
}

// Compares the calls of a case. How many answers differ.
fn compare(rt: &impl Print, number: u32, case: &mut Case<'_>) -> u64
    ensures { result ≤ 5 }
{
    let checks = compare_checks(rt, number, case);
    let reports = compare_reports(rt, number, case);
    checks + reports + compare_append(rt, number, case)
}

// Compares the cases of the input, which has to have no more bytes. How many cases there are, and how many answers differ.
fn compare_all<R: Read>(rt: &impl Print, input: &mut R) -> Result<(u32, u64), Failure>
    ensures { IfOk result (λ compared. compared.1 ≤ 5 * compared.0) }
{
    let mut room = Room::new();
    let cases = read_number(input)?;
    let mut different = 0;
    for number in 0..cases {
        let mut case = read_case(&mut room, input)?;
        different += compare(rt, number, &mut case);
    }
    if !at_end(input) {
        return Err(Failure::BadInput);
    }
    Ok((cases, different))
}

// Compares the cases of standard input and prints how many answers were compared and how many differ.
fn run(rt: &(impl Print + Input)) -> Result<(), Failure> {
    let (cases, different) = compare_all(rt, &mut rt.reader())?;
    let answers = u64::from(cases) * CALLS;
    let _ = println!(rt; "{cases} cases, {answers} answers compared, {different} different");
    Ok(())
}

// Output that cannot be written has no sign of its own.
fn main(rt: HostRuntime) {
    let _ = end(&rt, run(&rt), "bad cases");
}
