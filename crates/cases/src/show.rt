// Prints what the calls answer. What cannot be written is let go: the program ends the same way, and so no answer here depends on it.
ghost use Rattle.std.specs.Prelude.{◌<◌, IfSome};
ghost use Rattle.std.specs.Io.{StartsWith};

use calls::Refusal;
use console::{say_rows, split_row};
use meaning::{Entries, Row, Time};
use report::ROW_LENGTH;
use std::ops::Range;

// What stands in each byte of a page that no call has written.
pub(crate) const UNWRITTEN: u8 = 255;

// Prints the name of a case.
pub(crate) fn show_name(rt: &impl Print, name: &[u8]) {
    let _ = rt.write_all(name);
}

// Prints the answer of call 1 or 2.
pub(crate) fn show_checked(rt: &impl Print, checked: Result<(), Refusal>) {
    let _ = match checked {
        Ok(()) => println!(rt; ": accepted"),
        Err(refusal) => println!(rt; ": {refusal}"),
    };
}

// Says so if a byte of a page, or of its rest, has been written.
fn show_page(rt: &impl Print, page: &[u8]) {
    if page.iter().any(|byte| *byte != UNWRITTEN) {
        let _ = println!(rt; "  page changed");
    }
}

// Prints the answer of call 4, the rows that are on the page, and whether anything else on it has been written. The bytes of those rows.
pub(crate) fn show_reported<'a>(
    rt: &impl Print,
    reported: Result<usize, Refusal>,
    page: &'a [u8],
) -> &'a [u8]
    ensures { StartsWith page.now result.now }
{
    match reported {
        Ok(count) => {
            let _ = println!(rt; ": {count} rows");
            let rest = say_rows(rt, "  ", page, count);
            show_page(rt, rest);
            &page[..page.len() - rest.len()]
        }
        Err(refusal) => {
            let _ = println!(rt; ": {refusal}");
            show_page(rt, page);
            &[]
        }
    }
}

// The row that bytes stand for, if it is timed before a moment.
fn row_before(bytes: &[u8], moment: u32) -> Option<Row>
    ensures { IfSome result (λ row. row.time < moment) }
{
    split_row(bytes)
        .map(|(row, _)| row)
        .filter(|row| row.time < moment)
}

// Prints the rows that are left of a report where those timed at a moment or later are struck.
pub(crate) fn show_struck(rt: &impl Print, since: u32, rows: &[u8]) {
    let left = rows
        .chunks(ROW_LENGTH)
        .filter(|bytes| row_before(bytes, since).is_some())
        .count();
    let _ = println!(rt; "  struck from {since} on: {left} rows");
    for bytes in rows.chunks(ROW_LENGTH) {
        if let Some(row) = row_before(bytes, since) {
            let _ = println!(rt; "  {row}");
        }
    }
}

// Prints the bytes that are put into a log buffer, in hexadecimal.
fn show_put(rt: &impl Print, bytes: &[u8]) {
    let _ = print!(rt; "  put ");
    for byte in bytes {
        let _ = print!(rt; "{byte:02x}");
    }
    let _ = println!(rt);
}

// Says so if a byte of the log buffer has changed, other than those in a range.
fn show_log(rt: &impl Print, before: &[u8], log: &[u8], put: Range<usize>) {
    let mut bytes = before.iter().zip(log).enumerate();
    if bytes.any(|(at, (old, new))| old != new && !put.contains(&at)) {
        let _ = println!(rt; "  log changed");
    }
}

// Prints the answer of call 3, the bytes that are put after the used ones, and whether any other byte of the buffer has changed. The used
// length that goes on.
pub(crate) fn show_appended(
    rt: &impl Print,
    appended: Result<usize, Refusal>,
    used: usize,
    before: &[u8],
    log: &[u8],
) -> usize {
    match appended {
        Ok(length) => {
            let _ = println!(rt; ": length {length}");
            show_put(rt, log.get(used..length).unwrap_or(&[]));
            show_log(rt, before, log, used..length);
            length
        }
        Err(refusal) => {
            let _ = println!(rt; ": {refusal}");
            show_log(rt, before, log, 0..0);
            used
        }
    }
}

// Prints an entry of a standing.
fn show_entry(rt: &impl Print, entry: Time) {
    let _ = match entry {
        Time::At(minute) => print!(rt; " {minute}"),
        Time::Never => print!(rt; " not-yet"),
    };
}

// Prints the five entries of a standing.
fn show_entries(rt: &impl Print, entries: Entries) {
    let _ = print!(rt; ":");
    let Entries {
        created,
        detached,
        expired,
        discharged,
        violated,
    } = entries;
    for entry in [created, detached, expired, discharged, violated] {
        show_entry(rt, entry);
    }
    let _ = println!(rt);
}

// Prints the answer of call 5.
pub(crate) fn show_standing(rt: &impl Print, stands: Result<Entries, Refusal>) {
    match stands {
        Ok(entries) => show_entries(rt, entries),
        Err(refusal) => {
            let _ = println!(rt; ": {refusal}");
        }
    }
}
