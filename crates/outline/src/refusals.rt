// Refusals as text: a number and values, then what they mean.
use bits::report::Reported;
use std::fmt;
use std::fmt::Formatter;

// A refused input, domain or plan.
#[derive(Clone, Copy)]
pub enum Refused {
    Input(bits::refusal::Refusal),
    Domain(domain::refusal::Refusal),
    Plan(plan::refusal::Refusal),
}

impl fmt::Display for Refused {
    fn fmt<W: fmt::Write>(&self, f: &mut Formatter<W>) -> fmt::Result {
        let (what, report) = match self {
            Refused::Input(refusal) => ("input", refusal.report()),
            Refused::Domain(refusal) => ("domain", refusal.report()),
            Refused::Plan(refusal) => ("plan", refusal.report()),
        };
        writeln!(f, "{what} refused {report}")?;
        match self {
            Refused::Input(_) => f.write_str(
                "The input ends before the domain does: first come two bytes with the domain's length, then the domain, then the plan.\n",
            ),
            Refused::Domain(refusal) => write!(f, "{}", Fault { refusal: *refusal }),
            Refused::Plan(refusal) => write!(f, "{}", Fault { refusal: *refusal }),
        }
    }
}

// What is wrong with bytes, a domain or a plan, and what it should have been.
#[derive(Clone, Copy)]
struct Fault<R> {
    refusal: R,
}

impl fmt::Display for Fault<bits::refusal::Refusal> {
    fn fmt<W: fmt::Write>(&self, f: &mut Formatter<W>) -> fmt::Result {
        match self.refusal {
            bits::refusal::Refusal::Ended { place } => writeln!(
                f,
                "The bytes end inside a field, at bit {place}."
            ),
            bits::refusal::Refusal::Trailing { place } => writeln!(
                f,
                "Bit {place} should not be there: only zero bits may follow the last field, to the end of its byte."
            ),
        }
    }
}

impl fmt::Display for Fault<domain::refusal::Refusal> {
    fn fmt<W: fmt::Write>(&self, f: &mut Formatter<W>) -> fmt::Result {
        match self.refusal {
            domain::refusal::Refusal::Unread(refusal) => write!(f, "{}", Fault { refusal }),
            domain::refusal::Refusal::Edition { place } => writeln!(
                f,
                "The edition at bit {place} is not 1."
            ),
            domain::refusal::Refusal::Count { place } => writeln!(
                f,
                "The count at bit {place} is outside its range."
            ),
            domain::refusal::Refusal::UnknownFluent { place } => writeln!(
                f,
                "The fluent at bit {place} is not one of the domain's."
            ),
            domain::refusal::Refusal::NotRising { place } => writeln!(
                f,
                "The literal at bit {place} does not rise above the one before it."
            ),
            domain::refusal::Refusal::NotExclusive { action, place } => writeln!(
                f,
                "The effect of action {action} at bit {place} and an earlier one have opposite literals, and both may fire."
            ),
        }
    }
}

impl fmt::Display for Fault<plan::refusal::Refusal> {
    fn fmt<W: fmt::Write>(&self, f: &mut Formatter<W>) -> fmt::Result {
        match self.refusal {
            plan::refusal::Refusal::Unread(refusal) => write!(f, "{}", Fault { refusal }),
            plan::refusal::Refusal::Edition { place } => writeln!(
                f,
                "The edition at bit {place} is not 1."
            ),
            plan::refusal::Refusal::Tag { place } => writeln!(
                f,
                "The tag at bit {place} is none of end, order and look."
            ),
            plan::refusal::Refusal::TooLarge { place } => writeln!(
                f,
                "The node at bit {place} is one too many: a way has at most 32 orders and looks, and a plan at most 255 nodes."
            ),
        }
    }
}
