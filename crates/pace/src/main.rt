// Asks a reasoner the same question many times, to measure it: 32 orders, and every fluent told false at the end.
// It is the world reasoner where that takes the domain, and otherwise the history reasoner.
// Standard input: how often, in two bytes, and a packed domain of 16 actions.
#![tactic(auto)]

ghost use Rattle.std.specs.Prelude.{◌≡◌, ◌&&◌, nat_lt, is_ok, if◌then◌else◌};
ghost use Rattle.literals.specs.Tables.{empty};
ghost use Rattle.reasoner.specs.Asking.{asked, answer_to};

use bits::reader::Reader;
use bits::width::Width;
use domain::record::Domain;
use history::history::History;
use literals::orders::Orders;
use literals::table::Table;
use reasoner::question::Question;
use reasoner::reasoner::Reasoner;
use std::io;
use std::io::Read;
use worlds::worlds::AllWorlds;

fn main(rt: HostRuntime) -> io::Result<()> {
    let mut buffer = [0u8; 4096];
    // One read, and not the loop of `account`: sharing that would take one more public function in a library.
    let count = rt.stdin().read(&mut buffer)?;
    let input = &buffer[..count];
    let Ok((times, _)) = Reader::new(input).field(Width::SIXTEEN) else {
        return println!(rt; "no count");
    };
    let Ok(domain) = Domain::read(&input[2..]) else {
        return println!(rt; "no domain");
    };
    let mut orders = Orders::none();
    for i in 0..32 {
        orders.push(i % 16);
    }
    let mut told = Table::empty();
    for fluent in 0..32 {
        told.tell(32, 2 * fluent);
    }
    let question = Question {
        domain: &domain,
        orders: &orders,
        told: &told,
    };
    let history = History {};
    let worlds = AllWorlds {};
    let (largest, table) = if domain.fluents() > worlds.largest() {
        let table = shown(&history, times, &question);
        (history.largest(), table)
    } else {
        let table = shown(&worlds, times, &question);
        (worlds.largest(), table)
    };
    let first = table.at(0);
    println!(rt;
        "a reasoner for up to {largest} fluents, asked {times} times; known at first: {first:x}"
    )
}

// What a reasoner shows that is asked so many times; where it is not asked, or refuses the domain, nothing.
fn shown<R: Reasoner>(reasoner: &R, times: u16, question: &Question) -> Table
    ensures { result.sets ≡ (if nat_lt 0 times && is_ok (answer_to (R.mind reasoner.now) (asked question.now)) then (R.mind reasoner.now).meaning (asked question.now) else empty) }
{
    let mut table = Table::empty();
    for _ in 0..times {
        let _ = reasoner.ask(question.domain, question.orders, question.told, &mut table);
    }
    table
}
