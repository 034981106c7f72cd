// Fields read and written, and the end of a layout.
#[cfg(test)]
mod tests {
    use bits::reader::Reader;
    use bits::refusal::{Refusal, TooShort};
    use bits::width::Width;
    use bits::writer::Writer;

    #[test]
    fn fields_are_read_from_the_most_significant_bit(rt: HostRuntime) {
        let mut reader = Reader::new(&[0x14, 0x21]);
        assert_eq!(rt; reader.field(Width::FOUR), Ok((1, 4)));
        assert_eq!(rt; reader.field(Width::TWO), Ok((1, 6)));
        assert_eq!(rt; reader.field(Width::FOUR), Ok((0, 10)));
        assert_eq!(rt; reader.place(), 10);
    }

    #[test]
    fn a_field_that_does_not_fit_leaves_the_reader(rt: HostRuntime) {
        let mut reader = Reader::new(&[0xff]);
        assert_eq!(rt; reader.field(Width::FOUR), Ok((15, 4)));
        assert_eq!(rt; reader.field(Width::TWO), Ok((3, 6)));
        assert_eq!(rt; reader.field(Width::FOUR), Err(Refusal::Ended { place: 8 }));
        assert_eq!(rt; reader.place(), 6);
        assert_eq!(rt; reader.field(Width::TWO), Ok((3, 8)));
    }

    #[test]
    fn the_fill_is_zero_and_no_byte_follows(rt: HostRuntime) {
        let mut reader = Reader::new(&[0x10, 0x00]);
        assert_eq!(rt; reader.finish(), Err(Refusal::Trailing { place: 0 }));
        assert_eq!(rt; reader.field(Width::FOUR), Ok((1, 4)));
        assert_eq!(rt; reader.finish(), Err(Refusal::Trailing { place: 8 }));
        let mut reader = Reader::new(&[0x12]);
        assert_eq!(rt; reader.field(Width::FOUR), Ok((1, 4)));
        assert_eq!(rt; reader.finish(), Err(Refusal::Trailing { place: 6 }));
        let mut reader = Reader::new(&[0x10]);
        assert_eq!(rt; reader.field(Width::FOUR), Ok((1, 4)));
        assert_eq!(rt; reader.finish(), Ok(()));
    }

    #[test]
    fn a_field_is_written_with_zeros_after_it(rt: HostRuntime) {
        let mut buffer = [0xff, 0xff, 0xff];
        let mut writer = Writer::new(&mut buffer);
        assert_eq!(rt; writer.put(1, Width::FOUR), Ok(4));
        assert_eq!(rt; writer.put(2, Width::TWO), Ok(6));
        assert_eq!(rt; writer.put(13, Width::FOUR), Ok(10));
        assert_eq!(rt; buffer, [0x1b, 0x40, 0xff]);
    }

    #[test]
    fn a_field_past_the_buffer_is_refused(rt: HostRuntime) {
        let mut buffer = [0xab];
        let mut writer = Writer::new(&mut buffer);
        assert_eq!(rt; writer.put(10, Width::FOUR), Ok(4));
        assert_eq!(rt; writer.put(1, Width::TWO), Ok(6));
        assert_eq!(rt; writer.put(9, Width::FOUR), Err(TooShort { needed: 2 }));
        assert_eq!(rt; buffer, [0xa4]);
    }
}
