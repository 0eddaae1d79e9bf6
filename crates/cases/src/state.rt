// Runs the calls that the cases ask for.
ghost use Rattle.std.specs.Prelude.{◌≤◌};
ghost use Rattle.cases.specs.Lends.{Lends};

use crate::case::{Call, Case};
use crate::room::Room;
use crate::show::{
    UNWRITTEN, show_appended, show_checked, show_name, show_reported, show_standing, show_struck,
};
use append::append;
use event_log::check_log;
use report::{report, standing};
use terms::check_terms;

// How many bytes there is room for: of the terms, of the log buffer, of the event, and of the page.
const TERMS_ROOM: usize = 20000;

const LOG_ROOM: usize = 40000;

const EVENT_ROOM: usize = 256;

pub(crate) const PAGE_ROOM: usize = 65520;

// What a case leaves to the next one: the terms, the log buffer, and how many bytes of it are used; and room for the event of an append.
#[derive(Drop)]
pub(crate) struct State {
    pub terms: Room<TERMS_ROOM>,
    pub log: Room<LOG_ROOM>,
    pub used: usize,
    pub event: Room<EVENT_ROOM>,
}

impl State {
    // What the first case finds.
    pub(crate) fn new() -> State {
        State {
            terms: Room::empty(),
            log: Room::empty(),
            used: 0,
            event: Room::empty(),
        }
    }

    // Runs a case that has been read into the state, and prints its name and the answer.
    pub(crate) fn run(&mut self, rt: &impl Print, case: Case<'_>)
        requires { Lends case.call }
    {
        show_name(rt, case.name);
        match case.call {
            Call::CheckTerms => show_checked(rt, check_terms(self.terms.bytes())),
            Call::CheckLog => {
                let checked = check_log(self.terms.bytes(), self.log.bytes(), self.used);
                show_checked(rt, checked);
            }
            Call::Append => self.append(rt),
            Call::Report {
                moment,
                page,
                strike,
            } => self.report(rt, moment, page, strike),
            Call::Standing {
                schema,
                key,
                moment,
            } => self.standing(rt, schema, key, moment),
        }
    }

    // Asks for call 3 and prints the answer and what became of the buffer. An accepted one's length is the used one from there on.
    fn append(&mut self, rt: &impl Print) {
        let before = self.log.space;
        let appended = append(
            self.terms.bytes(),
            self.log.bytes_mut(),
            self.used,
            self.event.bytes(),
        );
        self.used = show_appended(rt, appended, self.used, &before, self.log.bytes());
    }

    // Asks for call 4 on a page that nobody has written and prints the answer; then, if rows are to be struck, those that are left.
    fn report(&self, rt: &impl Print, moment: u32, size: usize, strike: Option<u32>)
        requires { size ≤ PAGE_ROOM }
    {
        let mut room = [UNWRITTEN; PAGE_ROOM];
        let page = &mut room[..size];
        let reported = report(
            self.terms.bytes(),
            self.log.bytes(),
            self.used,
            moment,
            page,
        );
        let rows = show_reported(rt, reported, page);
        if let Some(since) = strike {
            show_struck(rt, since, rows);
        }
    }

    // Asks for call 5 and prints the answer.
    fn standing(&self, rt: &impl Print, schema: usize, key: u32, moment: u32) {
        let stands = standing(
            self.terms.bytes(),
            self.log.bytes(),
            self.used,
            schema,
            key,
            moment,
        );
        show_standing(rt, stands);
    }
}
