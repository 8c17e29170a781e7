// What is printed, and what is counted.
use crate::STDOUT_FILENO;

// How many cases were begun, and what came of them; how often the entry was called; `more` until the input ends or breaks off.
#[derive(Clone, Copy)]
pub(crate) struct Tally {
    pub cases: u64,
    pub wrong: u64,
    pub accepted: u64,
    pub threes: u64,
    pub fours: u64,
    pub lowered: u64,
    pub refused: u64,
    pub calls: u64,
    pub drawn: u64,
    pub joined: u64,
    pub unjoined: u64,
    pub more: bool,
}

pub(crate) fn say(text: &[u8]) {
    io::write_all(STDOUT_FILENO, text);
}

pub(crate) fn say_number(n: u64) {
    io::print_decimal(STDOUT_FILENO, n);
}

fn one_more(n: u64) -> u64 {
    n.wrapping_add(1)
}

impl Tally {
    pub(crate) fn none() -> Tally {
        Tally {
            cases: 0,
            wrong: 0,
            accepted: 0,
            threes: 0,
            fours: 0,
            lowered: 0,
            refused: 0,
            calls: 0,
            drawn: 0,
            joined: 0,
            unjoined: 0,
            more: true,
        }
    }

    pub(crate) fn begun(mut self) -> Tally {
        self.cases = one_more(self.cases);
        self
    }

    pub(crate) fn ended(mut self) -> Tally {
        self.more = false;
        self
    }

    // Counts a disagreement and begins its line.
    pub(crate) fn failed(mut self) -> Tally {
        self.wrong = one_more(self.wrong);
        say(b"case ");
        say_number(self.cases);
        self
    }

    // The input makes no case from here on.
    pub(crate) fn broken(self, why: &[u8]) -> Tally {
        let t = self.failed();
        say(why);
        t.ended()
    }

    // An answer of the reader.
    pub(crate) fn read(mut self, answer: u8) -> Tally {
        match answer {
            0 => self.accepted = one_more(self.accepted),
            3 => self.threes = one_more(self.threes),
            4 => self.fours = one_more(self.fours),
            _ => {}
        }
        self
    }

    // An expected answer of the entry.
    pub(crate) fn answered(mut self, answer: u8) -> Tally {
        if answer == 0 {
            self.lowered = one_more(self.lowered);
        } else {
            self.refused = one_more(self.refused);
        }
        self
    }

    pub(crate) fn called(mut self) -> Tally {
        self.calls = one_more(self.calls);
        self
    }

    pub(crate) fn drew(mut self) -> Tally {
        self.drawn = one_more(self.drawn);
        self
    }

    // An expected answer of joining.
    pub(crate) fn joins(mut self, answer: u8) -> Tally {
        if answer == 0 {
            self.joined = one_more(self.joined);
        } else {
            self.unjoined = one_more(self.unjoined);
        }
        self
    }

    pub(crate) fn report(self) {
        say(b"reading: accepted ");
        say_number(self.accepted);
        say(b", refused 3: ");
        say_number(self.threes);
        say(b", refused 4: ");
        say_number(self.fours);
        say(b"\nlowering: lowered ");
        say_number(self.lowered);
        say(b", refused ");
        say_number(self.refused);
        say(b", calls ");
        say_number(self.calls);
        say(b"\ndrawing: drawn ");
        say_number(self.drawn);
        say(b"\njoining: joined ");
        say_number(self.joined);
        say(b", refused ");
        say_number(self.unjoined);
        say(b"\n");
        say_number(self.cases);
        say(b" cases, ");
        say_number(self.wrong);
        say(b" wrong\n");
    }
}
