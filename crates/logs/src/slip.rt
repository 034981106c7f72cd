// Slips of looks.
ghost use Rattle.std.specs.Prelude.{◌≡◌, ◌≤◌, is_ok, if◌then◌else◌};
ghost use Rattle.logs.specs.Calls.{answering, answered, losing, ended};
ghost use Rattle.logs.specs.Logs.{state_of, Leaves, answered_of, handed_back};

use crate::log::Log;
use crate::refusal::Refusal;
use reasoner::reasoner::Reasoner;

// A look that is owed: its action and its moment. A slip must be answered or lost: its drop asks for a moment past the last at which
// a log looks, so nobody can let go a slip that a look handed out. A call spends it first and hands its two numbers on: a slip that is
// lent to the log would have to be spent after each outcome.
pub struct Slip {
    action: u8,
    moment: u8,
}

impl Drop for Slip {
    fn drop(self)
        requires { 32 ≤ self.moment }
    {
        let Slip {
            action: _,
            moment: _,
        } = self;
    }
}

impl Slip {
    pub(crate) fn new(action: u8, moment: u8) -> Self
        ensures action { result.action ≡ action }
        ensures moment { result.moment ≡ moment }
    {
        Slip { action, moment }
    }

    // The sensed fluent was seen true, or seen false, at the slip's moment. A refused answer hands the slip back.
    pub fn answer<R: Reasoner>(self, log: &mut Log<R>, seen: bool) -> Result<(), NotAnswered>
        ensures answered { answered_of result ≡ handed_back self.action self.moment (answering (R.Reasoner.mind log.old.reasoner) (state_of log.old) self.action self.moment seen) }
        ensures left { Leaves (if is_ok result then answered (state_of log.old) self.action self.moment seen else state_of log.old) log.old log.new }
    {
        let Slip { action, moment } = self;
        log.answer(action, moment, seen)
            .map_err(|refusal| NotAnswered {
                refusal,
                slip: Slip { action, moment },
            })
    }

    // Nothing was seen. The slip is ended in every case.
    pub fn lost<R: Reasoner>(self, log: &mut Log<R>) -> Result<(), Refusal>
        ensures answered { result ≡ losing (state_of log.old) self.action self.moment }
        ensures left { Leaves (if is_ok result then ended (state_of log.old) self.moment else state_of log.old) log.old log.new }
    {
        let Self { action, moment } = self;
        log.end(action, moment)
    }
}

// An answer that was not taken: why, and the slip handed back.
pub struct NotAnswered {
    pub refusal: Refusal,
    pub slip: Slip,
}
