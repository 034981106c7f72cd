// Packed domains read and written.
#[cfg(test)]
mod tests {
    use bits::refusal::TooShort;
    use bits::report::Reported;
    use bits::width::Width;
    use bits::writer::Writer;
    use domain::record::Domain;
    use literals::set::with;
    use std::test::Fail;

    // The worked example: fluent 0 is "in basin", 1 is "gate open"; action 0 goes in if the gate is open, action 1 senses fluent 0.
    const WORKED: [u8; 10] = [0x10, 0x88, 0x20, 0x00, 0x04, 0x86, 0x0c, 0x00, 0x02, 0x08];

    // What bytes read as: how many fluents and actions, or a refusal's number and values, 0 for one that is not there: with options the
    // expected values below would be longer and say no more.
    fn answer(bytes: &[u8]) -> Result<(u8, u8), (u8, u128, u128)> {
        match Domain::read(bytes) {
            Ok(domain) => Ok((domain.fluents(), domain.actions())),
            Err(refusal) => {
                let report = refusal.report();
                match report.values.as_slice() {
                    [first] => Err((report.number, *first, 0)),
                    [first, second] => Err((report.number, *first, *second)),
                    _ => Err((report.number, 0, 0)),
                }
            }
        }
    }

    #[test]
    fn the_worked_domain_says_what_it_should(rt: HostRuntime) -> Result<(), Fail> {
        let Ok(domain) = Domain::read(&WORKED) else {
            return Err(Fail::new("refused"));
        };
        assert_eq!(rt; domain.fluents(), 2);
        assert_eq!(rt; domain.actions(), 2);
        assert_eq!(rt; domain.initial(), with(0, 0));
        assert_eq!(rt; domain.groups().len(), 0);
        assert_eq!(rt; domain.needs(0), 0);
        assert_eq!(rt; domain.sensed(0), None);
        assert_eq!(rt; domain.sensed(1), Some(0));
        assert_eq!(rt; domain.effects(1).len(), 0);
        assert_eq!(rt; domain.strong(), 0);
        assert_eq!(rt; domain.weak(), with(0, 1));
        let effects = domain.effects(0);
        assert!(rt; effects.len() == 1);
        assert_eq!(rt; effects[0].conditions, with(0, 3));
        assert_eq!(rt; effects[0].literal, 1);
        Ok(())
    }

    #[test]
    fn the_worked_domain_damaged(rt: HostRuntime) {
        for len in 0..10 {
            assert_eq!(rt; answer(&WORKED[0..len]), Err((1, 8 * len as u128, 0)));
        }
        assert_eq!(rt;
            answer(&[0x10, 0x88, 0x20, 0x00, 0x04, 0x86, 0x0c, 0x00, 0x02, 0x09]),
            Err((7, 79, 0))
        );
        assert_eq!(rt;
            answer(&[
                0x10, 0x88, 0x20, 0x00, 0x04, 0x86, 0x0c, 0x00, 0x02, 0x08, 0x00,
            ],),
            Err((7, 80, 0))
        );
    }

    #[test]
    fn editions_and_counts(rt: HostRuntime) {
        assert_eq!(rt;
            answer(&[0x20, 0x80, 0x00, 0x00, 0x00, 0x00, 0x00]),
            Err((2, 0, 0)),
            "edition"
        );
        assert_eq!(rt;
            answer(&[0x10, 0x84, 0x20]),
            Err((3, 13, 0)),
            "initial count"
        );
        assert_eq!(rt; answer(&[0x10, 0x80, 0x12]), Err((3, 19, 0)), "group count");
        assert_eq!(rt;
            answer(&[0x10, 0x80, 0x02, 0x20]),
            Err((3, 23, 0)),
            "a group of one"
        );
        assert_eq!(rt;
            answer(&[0x10, 0x80, 0x03, 0x20]),
            Err((3, 23, 0)),
            "a group of nine"
        );
        assert_eq!(rt;
            answer(&[0x10, 0x80, 0x00, 0x90]),
            Err((3, 24, 0)),
            "needs count"
        );
        assert_eq!(rt;
            answer(&[0x10, 0x80, 0x00, 0x09]),
            Err((3, 28, 0)),
            "effect count"
        );
        assert_eq!(rt;
            answer(&[0x10, 0x80, 0x01, 0x00, 0x48]),
            Err((3, 33, 0)),
            "strong count"
        );
        assert_eq!(rt;
            answer(&[0x10, 0x80, 0x01, 0x00, 0x04, 0x80]),
            Err((3, 37, 0)),
            "weak count"
        );
    }

    #[test]
    fn unknown_fluents(rt: HostRuntime) {
        assert_eq!(rt;
            answer(&[0x10, 0x80, 0x22, 0x00]),
            Err((4, 19, 0)),
            "initial fluent"
        );
        assert_eq!(rt;
            answer(&[0x10, 0x80, 0x02, 0x40, 0x0a]),
            Err((4, 33, 0)),
            "group fluent"
        );
        assert_eq!(rt;
            answer(&[0x10, 0x80, 0x01, 0x11, 0x00]),
            Err((4, 28, 0)),
            "need"
        );
        assert_eq!(rt;
            answer(&[0x10, 0x80, 0x01, 0x01, 0x00]),
            Err((4, 28, 0)),
            "sensed fluent"
        );
        assert_eq!(rt;
            answer(&[0x10, 0x80, 0x00, 0x01, 0x3f, 0x80]),
            Err((4, 35, 0)),
            "condition"
        );
        assert_eq!(rt;
            answer(&[0x10, 0x80, 0x00, 0x01, 0x02, 0x00]),
            Err((4, 35, 0)),
            "effect literal"
        );
        assert_eq!(rt;
            answer(&[0x10, 0x80, 0x01, 0x00, 0x08, 0x80]),
            Err((4, 37, 0)),
            "strong goal"
        );
        assert_eq!(rt;
            answer(&[0x10, 0x80, 0x01, 0x00, 0x00, 0x88]),
            Err((4, 41, 0)),
            "weak goal"
        );
        assert_eq!(rt;
            answer(&[0x10, 0x80, 0x41, 0x08]),
            Err((4, 25, 0)),
            "unknown before not rising"
        );
    }

    #[test]
    fn what_does_not_rise_or_exclude(rt: HostRuntime) {
        assert_eq!(rt;
            answer(&[0x10, 0x80, 0x40, 0x02]),
            Err((5, 25, 0)),
            "a fluent twice"
        );
        assert_eq!(rt;
            answer(&[0x10, 0x80, 0x41, 0x00]),
            Err((5, 25, 0)),
            "falling fluents"
        );
        assert_eq!(rt;
            answer(&[0x10, 0x80, 0x00, 0x02, 0x00, 0x80, 0x40]),
            Err((5, 44, 0)),
            "an effect literal twice"
        );
        assert_eq!(rt;
            answer(&[0x10, 0x80, 0x00, 0x02, 0x00, 0x80, 0x00]),
            Err((5, 44, 0)),
            "falling effect literals"
        );
        assert_eq!(rt;
            answer(&[0x10, 0x80, 0x00, 0x02, 0x00, 0x00, 0x40, 0x00]),
            Err((6, 0, 41)),
            "unconditional opposites"
        );
        assert_eq!(rt;
            answer(&[0x10, 0x88, 0x01, 0x00, 0x00, 0x88, 0x40, 0x10, 0x01, 0x00]),
            Err((6, 1, 57)),
            "opposites not exclusive, second action"
        );
    }

    #[test]
    fn opposite_effects_that_exclude_each_other(rt: HostRuntime) -> Result<(), Fail> {
        assert_eq!(rt;
            answer(&[0x10, 0x80, 0x00, 0x02, 0x21, 0x00, 0x43, 0x04, 0x00]),
            Ok((2, 1))
        );
        let Ok(domain) = Domain::read(&[0x10, 0x80, 0x04, 0x40, 0x04, 0x40, 0x85, 0x00, 0x00, 0x00])
        else {
            return Err(Fail::new("refused"));
        };
        let groups = domain.groups();
        assert!(rt; groups.len() == 2);
        assert_eq!(rt; groups[0], with(with(0, 0), 2));
        assert_eq!(rt; groups[1], with(with(0, 1), 2));
        Ok(())
    }

    // A list of so many even literals, from a fluent on.
    fn row(writer: &mut Writer, width: Width, first: u16, count: u16) -> Result<(), TooShort> {
        writer.put(count, width)?;
        for i in 0..count {
            writer.put(first.wrapping_add(i).wrapping_mul(2), Width::SIX)?;
        }
        Ok(())
    }

    // An action with eight needs and eight effects of seven conditions.
    fn action(writer: &mut Writer) -> Result<(), TooShort> {
        writer.put(0, Width::ONE)?;
        row(writer, Width::FOUR, 24, 8)?;
        writer.put(8, Width::FOUR)?;
        for i in 0..8 {
            row(writer, Width::THREE, 8, 7)?;
            writer.put(2 * i, Width::SIX)?;
        }
        Ok(())
    }

    // The largest domain that the layout has room for: 1022 bytes.
    fn largest(buffer: &mut [u8]) -> Result<(), TooShort> {
        let mut writer = Writer::new(buffer);
        writer.put(1, Width::FOUR)?;
        writer.put(31, Width::FIVE)?;
        writer.put(15, Width::FOUR)?;
        row(&mut writer, Width::SIX, 0, 32)?;
        writer.put(8, Width::FOUR)?;
        for i in 0..8 {
            row(&mut writer, Width::FOUR, i, 8)?;
        }
        for _ in 0..16 {
            action(&mut writer)?;
        }
        row(&mut writer, Width::FOUR, 0, 8)?;
        row(&mut writer, Width::FOUR, 24, 8)
    }

    #[test]
    fn the_largest_domain(rt: HostRuntime) -> Result<(), Fail> {
        let mut buffer = [0; 1022];
        largest(&mut buffer)?;
        let Ok(domain) = Domain::read(&buffer) else {
            return Err(Fail::new("refused"));
        };
        assert_eq!(rt; domain.fluents(), 32);
        assert_eq!(rt; domain.actions(), 16);
        assert_eq!(rt; domain.effects(15).len(), 8);
        assert_eq!(rt; domain.groups().len(), 8);
        assert_eq!(rt; answer(&buffer[0..1021]), Err((1, 8168, 0)));
        let mut again = [0xff; 1022];
        assert_eq!(rt; domain.write(&mut again), Ok(1022));
        assert_eq!(rt; again, buffer);
        Ok(())
    }

    #[test]
    fn a_domain_is_written_or_the_buffer_left(rt: HostRuntime) -> Result<(), Fail> {
        let Ok(domain) = Domain::read(&WORKED) else {
            return Err(Fail::new("refused"));
        };
        let mut buffer = [0xaa; 11];
        assert_eq!(rt; domain.write(&mut buffer), Ok(10));
        assert_eq!(rt; &buffer[0..10], WORKED.as_slice());
        assert_eq!(rt; buffer[10], 0xaa, "the rest of the buffer");
        let mut short = [0xaa; 9];
        assert_eq!(rt; domain.write(&mut short), Err(TooShort { needed: 10 }));
        assert_eq!(rt; short, [0xaa; 9]);
        Ok(())
    }
}
