// Calls 1 to 4 as the library service, written in C, links them. Each calls the function of its name in `service`.
#![tactic(auto)]

ghost use Rattle.std.specs.Prelude.{◌≡◌};
ghost use Rattle.format.specs.Records.{value_width};
ghost use Rattle.calls.specs.Answers.{packed};
ghost use Rattle.calls.specs.Calls.{check_terms, check_log, append, report, served};

// Call 1: check terms.
#[unsafe(no_mangle)]
pub extern "C" fn agreements_check_terms(terms: &[u8]) -> u64
    ensures { result ≡ packed (check_terms terms.now) }
{
    service::agreements_check_terms(terms)
}

// Call 2: check a log under terms.
#[unsafe(no_mangle)]
pub extern "C" fn agreements_check_log(terms: &[u8], log: &[u8], used: usize) -> u64
    ensures { result ≡ packed (check_log value_width terms.now log.now used) }
{
    service::agreements_check_log(terms, log, used)
}

// Call 3: append an event to a log.
#[unsafe(no_mangle)]
pub extern "C" fn agreements_append(terms: &[u8], log: &mut [u8], used: usize, event: &[u8]) -> u64
    ensures { (result, log.new) ≡ served (append value_width terms.now log.old used event.now) }
{
    service::agreements_append(terms, log, used, event)
}

// Call 4: report at a moment.
#[unsafe(no_mangle)]
pub extern "C" fn agreements_report(
    terms: &[u8],
    log: &[u8],
    used: usize,
    moment: u32,
    page: &mut [u8],
) -> u64
    ensures { (result, page.new) ≡ served (report value_width terms.now log.now used moment page.old) }
{
    service::agreements_report(terms, log, used, moment, page)
}
