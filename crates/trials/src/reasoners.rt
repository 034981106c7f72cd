// What reasoners show.
#[cfg(test)]
mod tests {
    use bits::report::Reported;
    use cases::cases::{Case, case_of};
    use domain::record::Domain;
    use history::history::History;
    use literals::orders::Orders;
    use literals::set::{Literal, contains, opposite, with};
    use literals::table::Table;
    use reasoner::reasoner::Reasoner;
    use std::process::Abort;
    use std::test::Fail;
    use supposing::supposing::Supposing;
    use teller::teller::Teller;
    use worlds::worlds::AllWorlds;

    // Fluent 0 is "in basin", false at first, 1 is "gate open"; action 0 goes in if the gate is open, action 1 senses fluent 0.
    const WORKED: [u8; 10] = [0x10, 0x88, 0x20, 0x00, 0x04, 0x86, 0x0c, 0x00, 0x02, 0x08];

    // Of three fluents exactly one is true; fluent 0 is.
    const ONE_IS: [u8; 9] = [0x11, 0x00, 0x20, 0x89, 0x82, 0x18, 0xa0, 0x00, 0x00];

    // Of three fluents exactly one is true; fluents 0 and 1 are not.
    const TWO_ARE_NOT: [u8; 10] = [0x11, 0x00, 0x40, 0x04, 0x26, 0x08, 0x62, 0x80, 0x00, 0x00];

    // Exactly one of a and b is true, and exactly one of a and not b.
    const NO_WORLD: [u8; 9] = [0x10, 0x80, 0x04, 0x40, 0x86, 0x40, 0x84, 0x00, 0x00];

    // 32 fluents, of which the last is true at first, and an action that does nothing.
    const WIDE: [u8; 6] = [0x1f, 0x80, 0x3f, 0x80, 0x00, 0x00];

    // A fluent that an order makes false if it is true.
    const FALSE_ANYWAY: [u8; 7] = [0x10, 0x00, 0x00, 0x01, 0x20, 0x80, 0x00];

    // Four actions make fluent 3 true: if 0 is true; if 0 is not and 1 is; if neither is and 2 is; if none of them is.
    const FOUR_CASES: [u8; 20] = [
        0x11, 0x98, 0x00, 0x01, 0x20, 0x8e, 0x01, 0x40, 0x06, 0x38, 0x05, 0x80, 0x10, 0xa3, 0x80,
        0x58, 0x01, 0x08, 0x38, 0x00,
    ];

    // 10 and 11 fluents, of which the tenth is true at first.
    const TEN: [u8; 6] = [0x14, 0x80, 0x29, 0x80, 0x00, 0x00];

    const ELEVEN: [u8; 6] = [0x15, 0x00, 0x29, 0x80, 0x00, 0x00];

    // What a reasoner shows of a packed domain, the actions so far and the facts told: moments and literals.
    fn shown<R: Reasoner>(
        rt: &impl Abort,
        reasoner: &R,
        bytes: &[u8],
        actions: &[u8],
        facts: &[(usize, Literal)],
    ) -> Result<Table, Fail> {
        let Ok(domain) = Domain::read(bytes) else {
            return Err(Fail::new("no domain"));
        };
        let mut orders = Orders::none();
        for action in actions {
            assert!(rt; orders.push(*action));
        }
        let mut told = Table::empty();
        for fact in facts {
            told.tell(fact.0, fact.1);
        }
        let mut table = Table::empty();
        reasoner
            .ask(&domain, &orders, &told, &mut table)
            .map_err(|_| Fail::new("too many fluents"))?;
        Ok(table)
    }

    // Whether a fluent is known true or known false at a moment, or neither, by the literal that says it is true.
    fn mark(table: &Table, literal: Literal, moment: usize) -> Option<bool> {
        let set = table.at(moment);
        if contains(set, literal) {
            return Some(true);
        }
        if contains(set, opposite(literal)) {
            return Some(false);
        }
        None
    }

    // The marks of the first three moments.
    fn row(table: &Table, literal: Literal) -> [Option<bool>; 3] {
        [
            mark(table, literal, 0),
            mark(table, literal, 1),
            mark(table, literal, 2),
        ]
    }

    // Whether the reasoners show what a case says.
    fn runs_as_said(rt: &impl Abort, case: &Case) -> Result<(), Fail> {
        assert!(rt; case.domain.len() <= 11);
        assert!(rt; case.orders.len() <= 2);
        assert!(rt; case.told.len() <= 2);
        let table = shown(rt, &History {}, case.domain, case.orders, case.told)?;
        assert_eq!(rt; row(&table, 1), padded(case, 0));
        assert_eq!(rt; row(&table, 3), padded(case, 1));
        assert_eq!(rt; row(&table, 5), padded(case, 2));
        let table = shown(rt, &AllWorlds {}, case.domain, case.orders, case.told)?;
        assert_eq!(rt;
            table.is_full((case.rows.len() & 0xff) as u8, case.orders.len()),
            !case.agreeing
        );
        Ok(())
    }

    // The marks of a fluent; nothing is known of fluents and moments that the case does not have.
    fn padded(case: &Case, fluent: usize) -> [Option<bool>; 3] {
        let row = case.rows.get(fluent).copied().unwrap_or(&[]);
        [0, 1, 2].map(|moment: usize| row.get(moment).copied().flatten())
    }

    #[test]
    fn the_proved_cases_run_as_they_say(rt: HostRuntime) -> Result<(), Fail> {
        for number in 0..9 {
            let Some(case) = case_of(number) else {
                return Err(Fail::new("no case"));
            };
            runs_as_said(&rt, &case)?;
        }
        Ok(())
    }

    #[test]
    fn one_of_a_group(rt: HostRuntime) -> Result<(), Fail> {
        let table = shown(&rt, &History {}, &ONE_IS, &[0], &[])?;
        assert_eq!(rt; row(&table, 3), [Some(false), Some(false), None]);
        assert_eq!(rt; row(&table, 5), [Some(false), Some(false), None]);
        let table = shown(&rt, &History {}, &TWO_ARE_NOT, &[0], &[])?;
        assert_eq!(rt; row(&table, 5), [Some(true), Some(true), None]);
        let table = shown(&rt, &History {}, &NO_WORLD, &[], &[])?;
        assert_eq!(rt; table.at(0), 0, "no world, and nothing known");
        Ok(())
    }

    #[test]
    fn contradictions_give_the_full_table(rt: HostRuntime) -> Result<(), Fail> {
        let table = shown(&rt, &History {}, &WORKED, &[0], &[(1, 1), (1, 0)])?;
        assert!(rt; table.same(&Table::full(2, 1)));
        let table = shown(&rt, &History {}, &WORKED, &[0, 1], &[(1, 0), (0, 3)])?;
        assert!(rt;
            table.same(&Table::full(2, 2)),
            "the gate was open, and the boat is out"
        );
        Ok(())
    }

    #[test]
    fn what_does_not_count(rt: HostRuntime) -> Result<(), Fail> {
        let table = shown(&rt, &History {}, &WORKED, &[], &[(1, 1), (0, 7)])?;
        assert_eq!(rt; table.at(0), with(0, 0), "a fluent outside the domain");
        assert_eq!(rt; table.at(1), 0, "a later moment");
        let table = shown(&rt, &History {}, &WORKED, &[9], &[])?;
        assert_eq!(rt; table.at(1), with(0, 0), "an action outside the domain");
        Ok(())
    }

    #[test]
    fn many_fluents_and_orders(rt: HostRuntime) -> Result<(), Fail> {
        let reasoner = History {};
        assert_eq!(rt; reasoner.largest(), 32);
        let table = shown(&rt, &&reasoner, &WIDE, &[0; 32], &[(32, 0)])?;
        assert_eq!(rt; table.at(0), with(with(0, 0), 63), "the first moment");
        assert_eq!(rt; table.at(32), with(with(0, 0), 63), "the last moment");
        assert!(rt; !table.is_full(32, 32));
        Ok(())
    }

    #[test]
    fn worlds_up_to_ten_fluents(rt: HostRuntime) -> Result<(), Fail> {
        assert_eq!(rt; AllWorlds {}.largest(), 10);
        let table = shown(&rt, &AllWorlds {}, &TEN, &[0], &[])?;
        assert_eq!(rt; table.at(1), with(0, 19));
        let Ok(domain) = Domain::read(&ELEVEN) else {
            return Err(Fail::new("no domain"));
        };
        let mut table = Table::full(11, 0);
        let asked = AllWorlds {}.ask(&domain, &Orders::none(), &Table::empty(), &mut table);
        let Err(refusal) = asked else {
            return Err(Fail::new("not refused"));
        };
        assert_eq!(rt; refusal.report().number, 9);
        assert_eq!(rt; refusal.fluents, 11);
        assert!(rt; table.same(&Table::full(11, 0)), "the table stays");
        Ok(())
    }

    #[test]
    fn worlds_know_more_than_the_rules(rt: HostRuntime) -> Result<(), Fail> {
        let table = shown(&rt, &AllWorlds {}, &NO_WORLD, &[], &[])?;
        assert!(rt; table.same(&Table::full(2, 0)), "no world");
        let table = shown(&rt, &History {}, &FALSE_ANYWAY, &[0], &[])?;
        assert_eq!(rt; row(&table, 1), [None, None, None], "by the rules");
        let table = shown(&rt, &AllWorlds {}, &FALSE_ANYWAY, &[0], &[])?;
        assert_eq!(rt; row(&table, 1), [None, Some(false), None], "by the worlds");
        let table = shown(&rt, &AllWorlds {}, &WORKED, &[0, 1], &[(1, 1)])?;
        assert_eq!(rt;
            row(&table, 3),
            [Some(true), Some(true), Some(true)],
            "the gate was open"
        );
        Ok(())
    }

    #[test]
    fn supposing_a_fluent(rt: HostRuntime) -> Result<(), Fail> {
        let supposing = Supposing {
            below: History {},
            fluent: 0,
        };
        let table = shown(&rt, &supposing, &FALSE_ANYWAY, &[0], &[])?;
        assert_eq!(rt; row(&table, 1), [None, Some(false), None]);
        let outside = Supposing {
            below: History {},
            fluent: 200,
        };
        let table = shown(&rt, &outside, &FALSE_ANYWAY, &[0], &[])?;
        assert_eq!(rt;
            row(&table, 1),
            [None, None, None],
            "a fluent outside the domain"
        );
        let above_worlds = Supposing {
            below: AllWorlds {},
            fluent: 0,
        };
        assert_eq!(rt; above_worlds.largest(), 10);
        Ok(())
    }

    #[test]
    fn a_pile_of_three(rt: HostRuntime) -> Result<(), Fail> {
        let two = Supposing {
            below: Supposing {
                below: History {},
                fluent: 0,
            },
            fluent: 1,
        };
        let table = shown(&rt, &two, &FOUR_CASES, &[0, 1, 2, 3], &[])?;
        assert_eq!(rt; mark(&table, 7, 4), None, "two deep");
        let three = Supposing {
            below: two,
            fluent: 2,
        };
        let table = shown(&rt, &three, &FOUR_CASES, &[0, 1, 2, 3], &[])?;
        assert_eq!(rt; mark(&table, 7, 4), Some(true), "three deep");
        Ok(())
    }

    #[test]
    fn an_outsider_repeats_what_it_is_told(rt: HostRuntime) -> Result<(), Fail> {
        let table = shown(&rt, &Teller {}, &WORKED, &[0], &[(1, 1), (2, 1), (0, 7)])?;
        assert_eq!(rt; table.at(0), 0);
        assert_eq!(rt; table.at(1), with(0, 1));
        assert_eq!(rt; table.at(2), 0);
        Ok(())
    }
}
