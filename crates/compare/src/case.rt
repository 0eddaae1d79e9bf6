// A generated case: what the calls are lent, and what the second implementation answered and left in memory.
ghost use Rattle.std.specs.Prelude.{◌≡◌, ◌≤◌, IfOk, length};
ghost use Rattle.std.specs.Io.KnownBytes.{Consumes};
ghost use Rattle.compare.specs.declared.case.TheConstants.{PAGE_ROOM};

use crate::answer::Answer;
use console::{Failure, read_bytes, read_number};
use meaning::{Entries, Time};
use std::io::Read;

// What stands for an entry that is not yet.
const NOT_YET: u32 = 4294967295;

// How many bytes there is room for, of terms, log buffer, event and page, as tests/make-cases keeps to it.
const TERMS_ROOM: usize = 16400;

const LOG_ROOM: usize = 32800;

const EVENT_ROOM: usize = 100;

pub(crate) const PAGE_ROOM: usize = 2000;

// How many bytes a head has: twenty numbers.
const HEAD_LENGTH: usize = 80;

// Room for the bytes of a case, used again for the next.
#[derive(Drop)]
pub(crate) struct Room {
    terms: [u8; TERMS_ROOM],
    log: [u8; LOG_ROOM],
    event: [u8; EVENT_ROOM],
    log_after: [u8; LOG_ROOM],
    page_after: [u8; PAGE_ROOM],
}

impl Room {
    pub(crate) fn new() -> Room {
        Room {
            terms: [0; TERMS_ROOM],
            log: [0; LOG_ROOM],
            event: [0; EVENT_ROOM],
            log_after: [0; LOG_ROOM],
            page_after: [0; PAGE_ROOM],
        }
    }
}

// The second implementation's answers.
#[derive(Clone, Copy)]
pub(crate) struct Answers {
    pub check_terms: Answer<()>,
    pub check_log: Answer<()>,
    pub append: Answer<usize>,
    pub report: Answer<usize>,
    pub standing: Answer<Entries>,
}

// A case; the log buffer and the page as the calls are to leave them come last.
#[derive(Drop)]
pub(crate) struct Case<'a> {
    pub terms: &'a [u8],
    pub log: &'a mut [u8],
    pub used: usize,
    pub event: &'a [u8],
    pub moment: u32,
    pub schema: usize,
    pub key: u32,
    pub answers: Answers,
    pub log_after: &'a [u8],
    pub page_after: &'a [u8],
    ghost page_fits: { length page_after.now ≤ PAGE_ROOM },
}

// The next number, as a count.
fn read_count<R: Read>(input: &mut R) -> Result<usize, Failure> {
    Ok(read_number(input)? as usize)
}

// How many bytes there are: the next number, but no more than there is room for.
fn read_length<R: Read>(input: &mut R, room: usize) -> Result<usize, Failure>
    ensures { IfOk result (λ length. length ≤ room) }
{
    Ok(read_count(input)?.min(room))
}

// The answer of a check.
fn read_check<R: Read>(input: &mut R) -> Result<Answer<()>, Failure> {
    Ok(Answer {
        refusal: read_number(input)?,
        value: (),
    })
}

// An answer with a count.
fn read_counted<R: Read>(input: &mut R) -> Result<Answer<usize>, Failure> {
    Ok(Answer {
        refusal: read_number(input)?,
        value: read_count(input)?,
    })
}

// An entry of a standing.
fn read_entry<R: Read>(input: &mut R) -> Result<Time, Failure> {
    match read_number(input)? {
        NOT_YET => Ok(Time::Never),
        minute => Ok(Time::At(minute)),
    }
}

// The answer of a standing.
fn read_standing<R: Read>(input: &mut R) -> Result<Answer<Entries>, Failure> {
    Ok(Answer {
        refusal: read_number(input)?,
        value: Entries {
            created: read_entry(input)?,
            detached: read_entry(input)?,
            expired: read_entry(input)?,
            discharged: read_entry(input)?,
            violated: read_entry(input)?,
        },
    })
}

// The answers, in the order of the calls.
fn read_answers<R: Read>(input: &mut R) -> Result<Answers, Failure> {
    Ok(Answers {
        check_terms: read_check(input)?,
        check_log: read_check(input)?,
        append: read_counted(input)?,
        report: read_counted(input)?,
        standing: read_standing(input)?,
    })
}

// Fills the front of a buffer with the next bytes of the input, and hands it back.
fn read_part<'a, R: Read>(
    input: &mut R,
    buffer: &'a mut [u8],
    size: usize,
) -> Result<&'a mut [u8], Failure>
    requires { size ≤ length buffer.old }
    ensures { IfOk result (λ part. (length part.now ≡ size) × Consumes (R.remaining input.old) (R.remaining input.new) part.now) }
{
    let part = &mut buffer[..size];
    read_bytes(input, part)?;
    Ok(part)
}

// The next case: its head, read at once, then the bytes.
pub(crate) fn read_case<'a, R: Read>(
    room: &'a mut Room,
    input: &mut R,
) -> Result<Case<'a>, Failure> {
    let Room {
        terms,
        log,
        event,
        log_after,
        page_after,
    } = room;
    let mut head = [0; HEAD_LENGTH];
    read_bytes(input, &mut head)?;
    let mut numbers = &head[..];
    let of_terms = read_length(&mut numbers, TERMS_ROOM)?;
    let of_log = read_length(&mut numbers, LOG_ROOM)?;
    let used = read_count(&mut numbers)?;
    let of_event = read_length(&mut numbers, EVENT_ROOM)?;
    let of_page = read_length(&mut numbers, PAGE_ROOM)?;
    let moment = read_number(&mut numbers)?;
    let schema = read_count(&mut numbers)?;
    let key = read_number(&mut numbers)?;
    let answers = read_answers(&mut numbers)?;
    Ok(Case {
        terms: read_part(input, terms, of_terms)?,
        log: read_part(input, log, of_log)?,
        used,
        event: read_part(input, event, of_event)?,
        moment,
        schema,
        key,
        answers,
        log_after: read_part(input, log_after, of_log)?,
        page_after: read_part(input, page_after, of_page)?,
    })
}
