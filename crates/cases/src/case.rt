// A case as the text writes it.
ghost use Rattle.std.specs.Prelude.{◌<◌, ◌≤◌, IfOk, IfSome, OnOk};
ghost use Rattle.cases.specs.Left.{left};
ghost use Rattle.cases.specs.Lends.{Lends};

use crate::room::Room;
use crate::state::{PAGE_ROOM, State};
use crate::token::{number_of, put_token, starts_token};
use crate::words::Words;
use console::Failure;

// The largest number of eight bytes that a case may write.
const LARGEST: usize = 18446744073709551609;

// The call that is asked for; after a report, the moment from which on its rows are struck. The event of an append is in the state.
#[derive(Drop)]
pub(crate) enum Call {
    CheckTerms,
    CheckLog,
    Append,
    Report {
        moment: u32,
        page: usize,
        strike: Option<u32>,
    },
    Standing {
        schema: usize,
        key: u32,
        moment: u32,
    },
}

// What a case says, beside what goes into the state: its bytes and its used length.
#[derive(Drop)]
pub(crate) struct Case<'a> {
    pub name: &'a [u8],
    pub call: Call,
}

// The next word, a number up to a limit.
fn read_number(words: &mut Words<'_>, limit: usize) -> Result<usize, Failure>
    ensures falls { left words.new ≤ left words.old }
    ensures limited { IfOk result (λ number. number ≤ limit) }
{
    words
        .next()
        .and_then(number_of)
        .filter(|number| *number <= limit)
        .ok_or(Failure::BadInput)
}

// The next word, a number of four bytes.
fn read_u32(words: &mut Words<'_>) -> Result<u32, Failure>
    ensures { left words.new ≤ left words.old }
{
    let number = words.next().and_then(number_of).ok_or(Failure::BadInput)?;
    u32::try_from(number).or(Err(Failure::BadInput))
}

// Puts the bytes of the tokens that come next into a room, in place of those that it has.
fn read_bytes<const SIZE: usize>(
    words: &mut Words<'_>,
    room: &mut Room<SIZE>,
) -> Result<(), Failure>
    ensures falls { left words.new ≤ left words.old }
    ensures fits { room.new.filled ≤ SIZE }
{
    room.filled = 0;
    while let Some(word) = words.next_if(starts_token) {
        put_token(word, room)?;
    }
    Ok(())
}

// Puts the bytes after a keyword into a room, if it comes next. Whether it does.
fn read_section<const SIZE: usize>(
    words: &mut Words<'_>,
    keyword: &[u8],
    room: &mut Room<SIZE>,
) -> Result<bool, Failure>
    ensures falls { left words.new ≤ left words.old }
    ensures fits { room.new.filled ≤ SIZE }
{
    if !words.take(keyword) {
        return Ok(false);
    }
    read_bytes(words, room)?;
    Ok(true)
}

// The log buffer goes into the state: the one that is held, else the bytes that are given, or none, all of them used. Whether it is said.
fn read_log(words: &mut Words<'_>, state: &mut State) -> Result<bool, Failure>
    ensures { left words.new ≤ left words.old }
{
    if words.take(b"held") {
        return Ok(true);
    }
    state.log.filled = 0;
    let is_given = read_section(words, b"log", &mut state.log)?;
    state.used = state.log.filled;
    Ok(is_given)
}

// The used length, if it is given.
fn read_used(words: &mut Words<'_>) -> Result<Option<usize>, Failure>
    ensures { left words.new ≤ left words.old }
{
    if !words.take(b"used") {
        return Ok(None);
    }
    Ok(Some(read_number(words, LARGEST)?))
}

// After `report`: what is asked for.
fn read_report(words: &mut Words<'_>) -> Result<Call, Failure>
    ensures falls { left words.new ≤ left words.old }
    ensures lends { IfOk result (λ call. Lends call) }
{
    let moment = read_u32(words)?;
    let page = read_number(words, PAGE_ROOM)?;
    let strike = if words.take(b"strike") {
        Some(read_u32(words)?)
    } else {
        None
    };
    Ok(Call::Report {
        moment,
        page,
        strike,
    })
}

// After `standing`: what is asked for.
fn read_standing(words: &mut Words<'_>) -> Result<Call, Failure>
    ensures falls { left words.new ≤ left words.old }
    ensures lends { IfOk result (λ call. Lends call) }
{
    Ok(Call::Standing {
        schema: read_number(words, LARGEST)?,
        key: read_u32(words)?,
        moment: read_u32(words)?,
    })
}

// The check that is asked for where no other call is: call 2 or call 1.
fn check_of(of_log: bool) -> Call
    ensures { Lends result }
{
    if of_log {
        Call::CheckLog
    } else {
        Call::CheckTerms
    }
}

// The call that is asked for, if one is. The event of an append goes into the state.
fn read_call(words: &mut Words<'_>, state: &mut State) -> Result<Option<Call>, Failure>
    ensures falls { left words.new ≤ left words.old }
    ensures lends { IfOk result (λ asked. IfSome asked (λ call. Lends call)) }
{
    if read_section(words, b"append", &mut state.event)? {
        return Ok(Some(Call::Append));
    }
    if words.take(b"report") {
        return Ok(Some(read_report(words)?));
    }
    if words.take(b"standing") {
        return Ok(Some(read_standing(words)?));
    }
    Ok(None)
}

// The next case. Its bytes and its used length go into the state; if it gives no terms, those of the case before stay.
// Without a word for a call it asks for call 2 if log, held or used stands there, else for call 1.
pub(crate) fn read_case<'a>(words: &mut Words<'a>, state: &mut State) -> Result<Case<'a>, Failure>
    ensures falls { OnOk result (left words.new < left words.old) }
    ensures lends { IfOk result (λ case. Lends case.call) }
{
    if !words.take(b"case") {
        return Err(Failure::BadInput);
    }
    let name = words.next().ok_or(Failure::BadInput)?;
    read_section(words, b"terms", &mut state.terms)?;
    let of_log = read_log(words, state)?;
    let used = read_used(words)?;
    state.used = used.unwrap_or(state.used);
    let check = check_of(of_log || used.is_some());
    let call = read_call(words, state)?.unwrap_or(check);
    if !words.is_at(b"case") {
        return Err(Failure::BadInput);
    }
    Ok(Case { name, call })
}
