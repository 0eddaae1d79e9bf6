// Calls 1 to 4 for the library service, which is written in C: each answers one 64-bit number.
#![tactic(auto)]

ghost use Rattle.std.specs.Prelude.{◌≡◌};
ghost use Rattle.format.specs.Records.{value_width};
ghost use Rattle.calls.specs.Answers.{packed};
ghost use Rattle.calls.specs.Calls.{check_terms, check_log, append, report, served};

use packing::{pack_checked, pack_counted};

// Call 1: check terms.
pub fn agreements_check_terms(terms: &[u8]) -> u64
    ensures { result ≡ packed (check_terms terms.now) }
{
    pack_checked(terms::check_terms(terms))
}

// Call 2: check a log under terms.
pub fn agreements_check_log(terms: &[u8], log: &[u8], used: usize) -> u64
    ensures { result ≡ packed (check_log value_width terms.now log.now used) }
{
    pack_checked(event_log::check_log(terms, log, used))
}

// Call 3: append an event to a log.
#[tactic(auto, unfolding(calls::specs::Calls::served))]
pub fn agreements_append(terms: &[u8], log: &mut [u8], used: usize, event: &[u8]) -> u64
    ensures { (result, log.new) ≡ served (append value_width terms.now log.old used event.now) }
{
    pack_counted(append::append(terms, log, used, event))
}

// Call 4: report at a moment.
#[tactic(auto, unfolding(calls::specs::Calls::served))]
pub fn agreements_report(terms: &[u8], log: &[u8], used: usize, moment: u32, page: &mut [u8]) -> u64
    ensures { (result, page.new) ≡ served (report value_width terms.now log.now used moment page.old) }
{
    pack_counted(report::report(terms, log, used, moment, page))
}
