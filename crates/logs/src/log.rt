// A log of orders, looks and told facts.
ghost use Rattle.std.specs.Prelude.{◌≡◌, ◌<◌, true, length, is_ok, IfOk, if◌then◌else◌, Ok, Err, OnOk, nat_lt};
ghost use Rattle.literals.specs.Recorded.{recorded};
ghost use Rattle.domain.specs.Accessors.{sensed_of};
ghost use Rattle.domain.specs.Domains.{sheet};
ghost use Rattle.logs.specs.Calls.{if_taken, history, senses, lacking, if_none_lacks, admitted, latest, ordering, ordered, looking, looked, telling, told_more, reporting, sensed_literal, answering, answered, losing, ended, opening, within, comparing};
ghost use Rattle.logs.specs.Runs.{Decided, Compared, HistoryTrue, NeverFull};
ghost use Rattle.logs.specs.Logs.{state_of, Leaves, shown_by, slip_of, handed, opened_of, begun};
ghost use Rattle.literals.specs.Tables.{is_full};
ghost use Rattle.logs.specs.declared.refusal.Refusal.TheVariants.{Full};

use crate::refusal::Refusal;
use crate::slip::Slip;
use crate::state::State;
use domain::record::Domain;
use literals::set::{Literal, lowest, without};
use literals::table::Table;
use reasoner::reasoner::Reasoner;

// What was ordered, looked at and told of a domain, and the reasoner that works out what is known. It has no `Model`: one that forgets
// fields may not be `Copy`, and a log is.
#[derive(Clone, Copy)]
pub struct Log<R> {
    reasoner: R,
    domain: Domain,
    state: State,
}

// A log that was not opened: why, and the reasoner handed back. Not one type with a refused answer: a slip is no `Copy`.
#[derive(Clone, Copy)]
pub struct NotOpened<R> {
    pub refusal: Refusal,
    pub reasoner: R,
}

impl<R: Reasoner> Log<R> {
    // A new log of a domain.
    pub fn open(domain: &Domain, reasoner: R) -> Result<Self, NotOpened<R>>
        ensures { opened_of result ≡ begun (sheet domain.now) reasoner (opening (R.Reasoner.mind reasoner) (sheet domain.now)) }
    {
        let log = Log {
            reasoner,
            domain: *domain,
            state: State::new(),
        };
        match log.first() {
            Ok(()) => Ok(log),
            Err(refusal) => {
                let Log {
                    reasoner,
                    domain: _,
                    state: _,
                } = log;
                Err(NotOpened { refusal, reasoner })
            }
        }
    }

    // Ends the log.
    pub fn into_reasoner(self) -> R
        ensures { result ≡ self.reasoner }
    {
        let Log {
            reasoner,
            domain: _,
            state: _,
        } = self;
        reasoner
    }

    // Whether the table is not full yet.
    fn first(&self) -> Result<(), Refusal>
        ensures { result ≡ if_taken (R.Reasoner.mind self.now.reasoner) (state_of self.now) (if is_full (state_of self.now).sheet.fluents 0 (history (R.Reasoner.mind self.now.reasoner) (state_of self.now)) then Err Full else Ok tt) }
    {
        let table = self.history()?;
        if table.is_full(self.domain.fluents(), 0) {
            return Err(Refusal::Full);
        }
        Ok(())
    }

    // One order of a working action more.
    pub fn order(&mut self, action: u8) -> Result<(), Refusal>
        ensures answered { result ≡ ordering (R.Reasoner.mind self.old.reasoner) (state_of self.old) action }
        ensures left { Leaves (if is_ok result then ordered (state_of self.old) action else state_of self.old) self.old self.new }
    {
        self.admit(action, !is_sensing(&self.domain, action))?;
        self.state.enter(action);
        Ok(())
    }

    // One look by a sensing action more; the look is owed until its slip is answered or lost.
    pub fn look(&mut self, action: u8) -> Result<Slip, Refusal>
        ensures answered { slip_of result ≡ handed action (latest (state_of self.old)) (looking (R.Reasoner.mind self.old.reasoner) (state_of self.old) action) }
        ensures early { IfOk result (λ slip. slip.moment < 32) }
        ensures left { Leaves (if is_ok result then looked (state_of self.old) action else state_of self.old) self.old self.new }
    {
        self.admit(action, is_sensing(&self.domain, action))?;
        let moment = self.state.look(action);
        Ok(Slip::new(action, moment))
    }

    // Any literal told at any moment up to now.
    pub fn report(&mut self, literal: Literal, moment: u8) -> Result<(), Refusal>
        ensures answered { result ≡ reporting (R.Reasoner.mind self.old.reasoner) (state_of self.old) literal moment }
        ensures left { Leaves (if is_ok result then told_more (state_of self.old) literal moment else state_of self.old) self.old self.new }
    {
        if literal / 2 >= self.domain.fluents() {
            return Err(Refusal::Unknown { number: literal });
        }
        if usize::from(moment) > self.state.orders.len() {
            return Err(Refusal::Unknown { number: moment });
        }
        self.tell(literal, moment)
    }

    // What the owed look of an action at a moment saw.
    pub(crate) fn answer(&mut self, action: u8, moment: u8, seen: bool) -> Result<(), Refusal>
        ensures answered { result ≡ answering (R.Reasoner.mind self.old.reasoner) (state_of self.old) action moment seen }
        ensures left { Leaves (if is_ok result then answered (state_of self.old) action moment seen else state_of self.old) self.old self.new }
    {
        if !self.state.owes(action, moment) {
            return Err(Refusal::NotOwed);
        }
        let Some(literal) = sensed_literal(&self.domain, action, seen) else {
            return Err(Refusal::NotOwed);
        };
        self.tell(literal, moment)?;
        self.state.owed.put(usize::from(moment), false);
        Ok(())
    }

    // The look of an action at a moment is over, with nothing told.
    pub(crate) fn end(&mut self, action: u8, moment: u8) -> Result<(), Refusal>
        ensures answered { result ≡ losing (state_of self.old) action moment }
        ensures left { Leaves (if is_ok result then ended (state_of self.old) moment else state_of self.old) self.old self.new }
    {
        if !self.state.owes(action, moment) {
            return Err(Refusal::NotOwed);
        }
        self.state.owed.put(usize::from(moment), false);
        Ok(())
    }

    // Fills the table with the log's history.
    pub fn show(&self, table: &mut Table) -> Result<(), Refusal>
        ensures value { result ≡ if_taken (R.Reasoner.mind self.now.reasoner) (state_of self.now) (Ok tt) }
        ensures table { table.new.sets ≡ (if is_ok result then history (R.Reasoner.mind self.now.reasoner) (state_of self.now) else table.old.sets) }
        ensures sound { OnOk result (HistoryTrue (R.Reasoner.mind self.now.reasoner) (state_of self.now)) }
        ensures kept { NeverFull (R.Reasoner.mind self.now.reasoner) (state_of self.now) }
    {
        self.fill(table)
    }

    // The same, with its proof by hand, so that a wrong line of `show` is refused at that line.
    fn fill(&self, table: &mut Table) -> Result<(), Refusal>
        ensures value { result ≡ if_taken (R.Reasoner.mind self.now.reasoner) (state_of self.now) (Ok tt) }
        ensures table { table.new.sets ≡ (if is_ok result then history (R.Reasoner.mind self.now.reasoner) (state_of self.now) else table.old.sets) }
        ensures sound { OnOk result (HistoryTrue (R.Reasoner.mind self.now.reasoner) (state_of self.now)) }
        ensures kept { NeverFull (R.Reasoner.mind self.now.reasoner) (state_of self.now) }
    {
        *table = self.history()?;
        Ok(())
    }

    // One fact more, where it does not make the table full.
    pub(crate) fn tell(&mut self, literal: Literal, moment: u8) -> Result<(), Refusal>
        ensures answered { result ≡ telling (R.Reasoner.mind self.old.reasoner) (state_of self.old) literal moment }
        ensures left { Leaves (if is_ok result then told_more (state_of self.old) literal moment else state_of self.old) self.old self.new }
    {
        let mut told = self.state.told;
        told.tell(usize::from(moment), literal);
        let mut table = Table::empty();
        self.reasoner
            .ask(&self.domain, &self.state.orders, &told, &mut table)?;
        if table.is_full(self.domain.fluents(), self.state.orders.len()) {
            return Err(Refusal::Contradicts { literal, moment });
        }
        self.state.told = told;
        Ok(())
    }

    // Whether an action is accepted now.
    fn admit(&self, action: u8, right_kind: bool) -> Result<(), Refusal>
        ensures value { result ≡ admitted (R.Reasoner.mind self.now.reasoner) (state_of self.now) action right_kind }
        ensures room { OnOk result (nat_lt (length (recorded self.now.state.orders)) 32 ≡ true) }
    {
        if action >= self.domain.actions() {
            return Err(Refusal::Unknown { number: action });
        }
        if !right_kind {
            return Err(Refusal::WrongKind { action });
        }
        if self.state.orders.len() >= 32 {
            return Err(Refusal::Late);
        }
        self.needs_shown(action)
    }

    // Whether the needs of an action are shown now.
    fn needs_shown(&self, action: u8) -> Result<(), Refusal>
        ensures { result ≡ if_taken (R.Reasoner.mind self.now.reasoner) (state_of self.now) (if_none_lacks action (lacking (R.Reasoner.mind self.now.reasoner) (state_of self.now) action)) }
    {
        let table = self.history()?;
        let shown = table.at(self.state.orders.len());
        match lowest(without(self.domain.needs(action), shown)) {
            Some(literal) => Err(Refusal::NeedNotShown { action, literal }),
            None => Ok(()),
        }
    }

    // The log's history.
    fn history(&self) -> Result<Table, Refusal>
        ensures { shown_by result ≡ if_taken (R.Reasoner.mind self.now.reasoner) (state_of self.now) (Ok (history (R.Reasoner.mind self.now.reasoner) (state_of self.now))) }
    {
        let mut table = Table::empty();
        self.reasoner.ask(
            &self.domain,
            &self.state.orders,
            &self.state.told,
            &mut table,
        )?;
        Ok(table)
    }
}

// Whether each log shows every fact that the other was told.
pub fn compare<R: Reasoner, S: Reasoner>(one: &Log<R>, other: &Log<S>) -> Result<bool, Refusal>
    ensures value { result ≡ comparing (R.Reasoner.mind one.now.reasoner) (S.Reasoner.mind other.now.reasoner) (state_of one.now) (state_of other.now) }
    ensures decided { IfOk result (λ b. Decided b (R.Reasoner.mind one.now.reasoner) (S.Reasoner.mind other.now.reasoner) (state_of one.now) (state_of other.now)) }
    ensures compared { Compared (R.Reasoner.mind one.now.reasoner) (S.Reasoner.mind other.now.reasoner) (state_of one.now) (state_of other.now) }
{
    each_shows(one, other)
}

// The same, with its proof by hand, so that a wrong line of `compare` is refused at that line.
fn each_shows<R: Reasoner, S: Reasoner>(one: &Log<R>, other: &Log<S>) -> Result<bool, Refusal>
    ensures value { result ≡ comparing (R.Reasoner.mind one.now.reasoner) (S.Reasoner.mind other.now.reasoner) (state_of one.now) (state_of other.now) }
    ensures decided { IfOk result (λ b. Decided b (R.Reasoner.mind one.now.reasoner) (S.Reasoner.mind other.now.reasoner) (state_of one.now) (state_of other.now)) }
    ensures compared { Compared (R.Reasoner.mind one.now.reasoner) (S.Reasoner.mind other.now.reasoner) (state_of one.now) (state_of other.now) }
{
    both_within(one, other)
}

// Whether the told facts of each are within the history of the other.
fn both_within<R: Reasoner, S: Reasoner>(one: &Log<R>, other: &Log<S>) -> Result<bool, Refusal>
    ensures { result ≡ comparing (R.Reasoner.mind one.now.reasoner) (S.Reasoner.mind other.now.reasoner) (state_of one.now) (state_of other.now) }
{
    let first = one.history()?;
    let second = other.history()?;
    Ok(is_within(&one.state.told, &second) & is_within(&other.state.told, &first))
}

// Whether each fact of a table is in the other.
fn is_within(table: &Table, other: &Table) -> bool
    ensures { result ≡ within table.now.sets other.now.sets }
{
    table.common(other).same(table)
}

// Whether an action is a sensing one.
fn is_sensing(domain: &Domain, action: u8) -> bool
    ensures { result ≡ senses (sensed_of (sheet domain.now) action) }
{
    domain.sensed(action).is_some()
}

// The literal that says what a sensing action saw.
fn sensed_literal(domain: &Domain, action: u8, seen: bool) -> Option<Literal>
    ensures { result ≡ sensed_literal (sensed_of (sheet domain.now) action) seen }
{
    let fluent = domain.sensed(action)?;
    Some(2 * fluent + u8::from(seen))
}
