// Literals, tables and orders.
#[cfg(test)]
mod tests {
    use literals::orders::Orders;
    use literals::set::*;
    use literals::table::Table;

    #[test]
    fn opposites_say_the_contrary(rt: HostRuntime) {
        assert_eq!(rt; opposite(6), 7);
        assert_eq!(rt; opposite(63), 62);
        assert_eq!(rt; opposites(with(with(0, 0), 5)), with(with(0, 1), 4));
    }

    #[test]
    fn lowest_goes_by_number(rt: HostRuntime) {
        assert_eq!(rt; lowest(0), None);
        assert_eq!(rt; lowest(with(with(with(0, 9), 3), 2)), Some(2));
        assert_eq!(rt; lowest(with(with(0, 8), 3)), Some(3));
        assert_eq!(rt; lowest(with(0, 63)), Some(63));
        assert_eq!(rt; lowest(with(0, 64)), None);
    }

    #[test]
    fn full_tables(rt: HostRuntime) {
        let small = Table::full(3, 0);
        assert!(rt; small.is_full(3, 0));
        assert!(rt; !small.is_full(4, 0));
        assert!(rt; !small.is_full(3, 1));
        let mut large = Table::full(32, 32);
        assert!(rt; large.is_full(40, 40));
        assert_eq!(rt; large.at(32), u64::MAX);
        assert_eq!(rt; large.at(33), 0);
        large.put(32, without(all(32), with(0, 63)));
        assert!(rt; !large.is_full(32, 32));
        assert!(rt; large.is_full(32, 31));
        large.tell(32, 63);
        assert!(rt; large.same(&Table::full(32, 32)));
    }

    #[test]
    fn orders_end_at_32(rt: HostRuntime) {
        let mut orders = Orders::none();
        for action in 0..32 {
            assert!(rt; orders.push(action));
        }
        assert!(rt; !orders.push(32));
        assert_eq!(rt; orders.len(), 32);
    }
}
