// What an accepted call says. A refusal has kind 0 and its number. `compared_calls` has the same without what a slot is, of
// which it knows nothing: a library for both would need contracts and laws of its own, to serve two comparisons.
use answers::Reply;
use jobs::{JobRefusal, State};

#[derive(Clone, Copy)]
pub enum Said {
    Done,
    Number(u64),
    Truth(bool),
    Slot(State),
}

impl From<Reply> for Said {
    fn from(reply: Reply) -> Said {
        match reply {
            Reply::At(start) => Said::from(start),
            Reply::Done => Said::Done,
        }
    }
}

impl From<u64> for Said {
    fn from(n: u64) -> Said {
        Said::Number(n)
    }
}

impl From<usize> for Said {
    fn from(n: usize) -> Said {
        Said::Number(n as u64)
    }
}

impl From<bool> for Said {
    fn from(yes: bool) -> Said {
        Said::Truth(yes)
    }
}

impl From<State> for Said {
    fn from(state: State) -> Said {
        Said::Slot(state)
    }
}

// An answer's kind and number.
pub(crate) fn kind_and_number(said: Result<Said, JobRefusal>) -> (u64, u64) {
    match said {
        Err(why) => (0, u64::from(why.number())),
        Ok(Said::Done) => (1, 0),
        Ok(Said::Number(n)) => (2, n),
        Ok(Said::Truth(false)) => (3, 0),
        Ok(Said::Truth(true)) => (4, 0),
        Ok(Said::Slot(State::Free)) => (5, 0),
        Ok(Said::Slot(State::Running)) => (5, 1),
        Ok(Said::Slot(State::Reaped)) => (5, 2),
    }
}
