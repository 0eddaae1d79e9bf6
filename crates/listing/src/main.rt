// Lists a report. Standard input is three numbers of four bytes (how long the terms are, how long the log is, the moment), then both.
#![tactic(auto)]

ghost use Rattle.std.specs.Prelude.{◌≤◌, IfOk};

use console::{Failure, at_end, end, read_bytes, read_number, say_rows};
use event_log::LOG_LIMIT;
use report::report;
use std::io;
use std::io::Read;
use terms::TERMS_LIMIT;

// How many bytes the page has.
const PAGE_LENGTH: usize = 65520;

// What the input asks for: the report on terms and a log at a moment.
#[derive(Clone, Copy)]
struct Request<'a> {
    terms: &'a [u8],
    log: &'a [u8],
    moment: u32,
}

// A length that the input announces; it is bad past a limit.
fn read_length<R: Read>(input: &mut R, limit: usize) -> Result<usize, Failure>
    ensures { IfOk result (λ length. length ≤ limit) }
{
    let length = read_number(input)? as usize;
    if limit < length {
        return Err(Failure::BadInput);
    }
    Ok(length)
}

// Reads the whole input, the terms and the log into room for the longest ones.
fn read_request<'a, R: Read>(
    input: &mut R,
    terms: &'a mut [u8; TERMS_LIMIT],
    log: &'a mut [u8; LOG_LIMIT],
) -> Result<Request<'a>, Failure> {
    let of_terms = read_length(input, TERMS_LIMIT)?;
    let of_log = read_length(input, LOG_LIMIT)?;
    let moment = read_number(input)?;
    let terms = &mut terms[..of_terms];
    let log = &mut log[..of_log];
    read_bytes(input, terms)?;
    read_bytes(input, log)?;
    if !at_end(input) {
        return Err(Failure::BadInput);
    }
    Ok(Request { terms, log, moment })
}

// Prints the rows of the report, or its refusal.
fn list(rt: &impl Print, request: Request<'_>) -> io::Result<()> {
    let Request { terms, log, moment } = request;
    let mut page = [0; PAGE_LENGTH];
    match report(terms, log, log.len(), moment, &mut page) {
        Err(refusal) => println!(rt; "{refusal}"),
        Ok(count) => {
            say_rows(rt, "", &page, count);
            Ok(())
        }
    }
}

// Reads the input and lists its report. All memory is here and in `list`, so that none can be wanting.
fn run(rt: &(impl Print + Input)) -> Result<(), Failure> {
    let mut terms = [0; TERMS_LIMIT];
    let mut log = [0; LOG_LIMIT];
    let request = read_request(&mut rt.reader(), &mut terms, &mut log)?;
    list(rt, request)?;
    Ok(())
}

// Output that cannot be written has no sign of its own.
fn main(rt: HostRuntime) {
    let _ = end(&rt, run(&rt), "bad input");
}
