// Logs through their calls.
#[cfg(test)]
mod tests {
    use bits::report::Reported;
    use domain::record::Domain;
    use history::history::History;
    use literals::set::{LiteralSet, with};
    use literals::table::Table;
    use logs::log::{Log, compare};
    use logs::refusal::Refusal;
    use logs::slip::{NotAnswered, Slip};
    use reasoner::reasoner::Reasoner;
    use std::process::Abort;
    use std::test::Fail;
    use supposing::supposing::Supposing;
    use worlds::worlds::AllWorlds;

    // Fluent 0 is "in basin", false at first, 1 is "gate open"; action 0 goes in if the gate is open, action 1 senses fluent 0.
    const WORKED: [u8; 10] = [0x10, 0x88, 0x20, 0x00, 0x04, 0x86, 0x0c, 0x00, 0x02, 0x08];

    // The number of a refusal.
    fn number(answer: Result<(), Refusal>) -> Option<u8> {
        answer.err().map(|refusal| refusal.report().number)
    }

    fn opened<R: Reasoner + Copy>(reasoner: R) -> Result<Log<R>, Fail> {
        let Ok(domain) = Domain::read(&WORKED) else {
            return Err(Fail::new("no domain"));
        };
        Log::open(&domain, reasoner).map_err(|_| Fail::new("not opened"))
    }

    // A slip answered, and lost where its answer is refused; the refusal's number.
    fn answered<R: Reasoner>(slip: Slip, log: &mut Log<R>, seen: bool) -> Option<u8> {
        match slip.answer(log, seen) {
            Ok(()) => None,
            Err(NotAnswered { refusal, slip }) => {
                let _ = slip.lost(log);
                Some(refusal.report().number)
            }
        }
    }

    // A look that is answered at once.
    fn looked<R: Reasoner>(log: &mut Log<R>, action: u8, seen: bool) -> Option<u8> {
        match log.look(action) {
            Ok(slip) => answered(slip, log, seen),
            Err(refusal) => Some(refusal.report().number),
        }
    }

    // Order 0, look 1, answered yes: what is known of the gate at the first moment.
    fn gate_at_first<R: Reasoner + Copy>(rt: &impl Abort, reasoner: R) -> Result<LiteralSet, Fail> {
        let mut log = opened(reasoner)?;
        assert_eq!(rt; number(log.order(0)), None);
        assert_eq!(rt; looked(&mut log, 1, true), None);
        let mut table = Table::empty();
        assert_eq!(rt; number(log.show(&mut table)), None);
        Ok(table.at(0))
    }

    #[test]
    fn a_look_tells_of_the_gate(rt: HostRuntime) -> Result<(), Fail> {
        let known = with(with(0, 0), 3);
        assert_eq!(rt; gate_at_first(&rt, History {})?, known);
        assert_eq!(rt; gate_at_first(&rt, AllWorlds {})?, known);
        let pile = Supposing {
            below: Supposing {
                below: History {},
                fluent: 1,
            },
            fluent: 0,
        };
        assert_eq!(rt; gate_at_first(&rt, pile)?, known);
        Ok(())
    }

    #[test]
    fn slips_and_other_logs(rt: HostRuntime) -> Result<(), Fail> {
        let mut log = opened(History {})?;
        assert_eq!(rt;
            looked(&mut log, 0, true),
            Some(12),
            "a look by a working action"
        );
        assert_eq!(rt; number(log.order(0)), None);
        let mut other = log;
        assert_eq!(rt; looked(&mut log, 1, false), None);
        assert_eq!(rt; number(log.report(3, 0)), Some(15), "the gate was shut");
        let answer = match log.look(1) {
            Ok(slip) => answered(slip, &mut other, true),
            Err(_) => None,
        };
        assert_eq!(rt; answer, Some(16), "another log owes no such look");
        assert_eq!(rt; looked(&mut other, 1, true), None);
        assert_eq!(rt; number(other.report(1, 1)), None, "reported again");
        Ok(())
    }

    #[test]
    fn reports_in_place_of_looks(rt: HostRuntime) -> Result<(), Fail> {
        let mut log = opened(History {})?;
        assert_eq!(rt; number(log.order(0)), None);
        assert_eq!(rt; number(log.report(1, 1)), None);
        let mut table = Table::empty();
        assert_eq!(rt; number(log.show(&mut table)), None);
        assert_eq!(rt; table.at(0), with(with(0, 0), 3), "out, and the gate open");
        assert_eq!(rt; table.at(1), with(with(0, 1), 3), "in, and the gate open");
        assert_eq!(rt; number(log.report(2, 0)), Some(15), "the gate was shut");
        let mut again = Table::empty();
        assert_eq!(rt; number(log.show(&mut again)), None);
        assert!(rt; again.same(&table), "a refused report changes nothing");
        Ok(())
    }

    #[test]
    fn refused_orders_and_reports(rt: HostRuntime) -> Result<(), Fail> {
        let mut log = opened(History {})?;
        assert_eq!(rt; number(log.order(2)), Some(11));
        assert_eq!(rt; number(log.order(1)), Some(12));
        assert_eq!(rt; number(log.report(4, 0)), Some(11));
        assert_eq!(rt; number(log.report(1, 1)), Some(11));
        for _ in 0..32 {
            assert_eq!(rt; number(log.order(0)), None);
        }
        assert_eq!(rt; number(log.order(0)), Some(13));
        Ok(())
    }

    #[test]
    fn logs_compared(rt: HostRuntime) -> Result<(), Fail> {
        let mut one = opened(History {})?;
        let mut other = opened(History {})?;
        assert_eq!(rt; number(one.order(0)), None);
        assert_eq!(rt; number(other.order(0)), None);
        assert_eq!(rt; number(one.report(1, 1)), None);
        let Ok(before) = compare(&one, &other) else {
            return Err(Fail::new("refused"));
        };
        assert!(rt; !before, "one was told more");
        assert_eq!(rt; number(other.report(3, 0)), None);
        let Ok(after) = compare(&one, &other) else {
            return Err(Fail::new("refused"));
        };
        assert!(rt; after, "arrival and gate tell the same");
        Ok(())
    }
}
