// Packed plans read and written.
ghost use Rattle.std.specs.Prelude.{◌≤◌};

#[cfg(test)]
mod tests {
    use bits::refusal::TooShort;
    use bits::report::Reported;
    use bits::width::Width;
    use bits::writer::Writer;
    use plan::record::Plan;
    use std::test::Fail;

    // The worked example: order 0, then look 1, with an end on either way.
    const WORKED: [u8; 3] = [0x14, 0x21, 0x00];

    // What bytes read as: how many nodes and ends and how long a way, or a refusal's number and its place, 0 for one that is not there: with
    // options the expected values below would be longer and say no more.
    fn answer(bytes: &[u8]) -> Result<(usize, usize, usize), (u8, u128)> {
        match Plan::read(bytes) {
            Ok(plan) => Ok((plan.nodes().len(), plan.ends(), plan.longest())),
            Err(refusal) => {
                let report = refusal.report();
                match report.values.as_slice() {
                    [place] => Err((report.number, *place)),
                    _ => Err((report.number, 0)),
                }
            }
        }
    }

    // How many bytes so many bits have, up to 200.
    fn bytes_for(bits: u128) -> usize
        ensures { result ≤ 200 }
    {
        ((bits.min(1600) + 7) / 8).min(200) as usize
    }

    // So many nodes of one tag and action 5, in the layout's own bits, so that what is read here is not what a record wrote.
    fn row(writer: &mut Writer, tag: u16, count: u8) -> Result<u128, TooShort> {
        for _ in 0..count {
            writer.put(tag, Width::TWO)?;
            writer.put(5, Width::FOUR)?;
        }
        writer.put(0, Width::TWO)
    }

    // A plan of looks, so many deep on every way.
    fn bush(writer: &mut Writer, depth: u8) -> Result<u128, TooShort> {
        if depth == 0 {
            return writer.put(0, Width::TWO);
        }
        writer.put(2, Width::TWO)?;
        writer.put(9, Width::FOUR)?;
        bush(writer, depth - 1)?;
        bush(writer, depth - 1)
    }

    // Reads a plan and writes it back.
    fn rewritten(bytes: &[u8], buffer: &mut [u8]) -> Result<usize, Fail> {
        match Plan::read(bytes) {
            Ok(plan) => Ok(plan.write(buffer)?),
            Err(_) => Err(Fail::new("refused")),
        }
    }

    #[test]
    fn the_worked_plan_and_its_damage(rt: HostRuntime) {
        assert_eq!(rt; answer(&WORKED), Ok((4, 2, 2)));
        assert_eq!(rt; answer(&[0x14, 0x21, 0x01]), Err((7, 23)));
        assert_eq!(rt; answer(&[0x14, 0x21, 0x00, 0x00]), Err((7, 24)));
        assert_eq!(rt; answer(&[]), Err((1, 0)));
        assert_eq!(rt; answer(&[0x14]), Err((1, 8)));
        assert_eq!(rt; answer(&[0x14, 0x21]), Err((1, 16)));
        assert_eq!(rt; answer(&[0x1c]), Err((3, 4)));
        assert_eq!(rt; answer(&[0x24, 0x21, 0x00]), Err((2, 0)));
    }

    #[test]
    fn thirty_two_deep_and_thirty_three(rt: HostRuntime) -> Result<(), Fail> {
        let mut buffer = [0; 200];
        let mut writer = Writer::new(&mut buffer);
        writer.put(1, Width::FOUR)?;
        let place = row(&mut writer, 1, 32)?;
        assert_eq!(rt; answer(&buffer[0..bytes_for(place)]), Ok((33, 1, 32)));
        let mut writer = Writer::new(&mut buffer);
        writer.put(1, Width::FOUR)?;
        let place = row(&mut writer, 1, 33)?;
        assert_eq!(rt;
            answer(&buffer[0..bytes_for(place)]),
            Err((8, 196)),
            "the place of the tag"
        );
        assert_eq!(rt;
            answer(&buffer[0..25]),
            Err((8, 196)),
            "its action is not read"
        );
        assert_eq!(rt;
            answer(&buffer[0..24]),
            Err((1, 192)),
            "the tag is read first"
        );
        Ok(())
    }

    #[test]
    fn most_nodes_and_one_more(rt: HostRuntime) -> Result<(), Fail> {
        let mut buffer = [0; 200];
        let mut writer = Writer::new(&mut buffer);
        writer.put(1, Width::FOUR)?;
        let place = bush(&mut writer, 7)?;
        let most = bytes_for(place);
        assert_eq!(rt; answer(&buffer[0..most]), Ok((255, 128, 7)));
        for len in 0..most {
            assert_eq!(rt; answer(&buffer[0..len]), Err((1, 8 * len as u128)));
        }
        let mut again = [0xff; 200];
        assert_eq!(rt; rewritten(&buffer[0..most], &mut again)?, most);
        assert_eq!(rt; &again[0..most], &buffer[0..most]);
        let mut writer = Writer::new(&mut buffer);
        writer.put(1, Width::FOUR)?;
        writer.put(1, Width::TWO)?;
        writer.put(0, Width::FOUR)?;
        let place = bush(&mut writer, 7)?;
        assert_eq!(rt; answer(&buffer[0..bytes_for(place)]), Err((8, 1026)));
        Ok(())
    }

    #[test]
    fn a_plan_is_written_or_the_buffer_left(rt: HostRuntime) -> Result<(), Fail> {
        let Ok(plan) = Plan::read(&WORKED) else {
            return Err(Fail::new("refused"));
        };
        let mut buffer = [0xaa; 4];
        assert_eq!(rt; plan.write(&mut buffer), Ok(3));
        assert_eq!(rt; buffer, [0x14, 0x21, 0x00, 0xaa]);
        let mut short = [0xaa; 2];
        assert_eq!(rt; plan.write(&mut short), Err(TooShort { needed: 3 }));
        assert_eq!(rt; short, [0xaa; 2]);
        Ok(())
    }
}
