//! Both stores at their limits, and played through.
#![tactic(auto)]

#[cfg(test)]
mod tests {
    use records::refusal::{Layer, Reason, Refusal};
    use std::process::Abort;
    use store::in_place::InPlace;
    use store::private::Private;
    use store::store::Store;

    fn refused(reason: Reason) -> Result<(), Refusal> {
        Err(Refusal {
            layer: Layer::Store,
            reason,
        })
    }

    // Items 0 to `count` - 1 are put by transaction t.
    fn fill<S: Store>(rt: &impl Abort, store: &mut S, t: u16, count: u16) {
        for item in 0..count {
            assert_eq!(rt; store.put(t, item, 7), Ok(()));
        }
    }

    #[test]
    fn room_in_place(rt: HostRuntime) {
        let mut values = [0; 1024];
        let mut store = InPlace::open(&mut values);
        fill(&rt, &mut store, 1, 512);
        assert_eq!(rt; store.put(1, 512, 7), refused(Reason::NoRoom));
        assert_eq!(rt; store.put(2, 513, 7), refused(Reason::NoRoom));
        assert_eq!(rt; store.put(2, 0, 7), refused(Reason::ItemTaken));
        assert_eq!(rt; store.put(1, 0, 8), Ok(()));
        assert_eq!(rt; store.held(), 512);
        assert_eq!(rt; store.look(2, 512), Ok(0));
        assert_eq!(rt; store.look(2, 0), Ok(0));
        assert_eq!(rt; store.look(1, 0), Ok(8));
    }

    #[test]
    fn room_beside(rt: HostRuntime) {
        let mut values = [0; 1024];
        let mut store = Private::open(&mut values);
        for t in 0..8 {
            fill(&rt, &mut store, t, 64);
        }
        assert_eq!(rt; store.put(8, 0, 7), refused(Reason::NoRoom));
        assert_eq!(rt; store.put(7, 0, 8), Ok(()));
        assert_eq!(rt; store.held(), 512);
        assert_eq!(rt; store.look(8, 0), Ok(0));
        assert_eq!(rt; store.look(7, 0), Ok(8));
    }

    #[test]
    fn share_beside(rt: HostRuntime) {
        let mut values = [0; 1024];
        let mut store = Private::open(&mut values);
        fill(&rt, &mut store, 1, 64);
        assert_eq!(rt; store.put(1, 64, 7), refused(Reason::NoRoom));
        assert_eq!(rt; store.put(2, 64, 7), Ok(()));
        assert_eq!(rt; store.put(1, 0, 8), Ok(()));
        assert_eq!(rt; store.held(), 65);
        assert_eq!(rt; store.look(1, 0), Ok(8));
    }

    // A store of this size, with nothing pending, refuses the item at the size and takes the one before.
    fn at_the_edge<S: Store>(rt: &impl Abort, store: &mut S, size: usize, item: u16) {
        assert_eq!(rt; store.size(), size);
        assert_eq!(rt; store.put(1, item, 7), refused(Reason::NoSuchItem));
        assert_eq!(rt; store.look(1, item).is_ok(), false);
        assert_eq!(rt; store.held(), 0);
        if item > 0 {
            assert_eq!(rt; store.put(1, item - 1, 7), Ok(()));
            assert_eq!(rt; store.look(1, item - 1), Ok(7));
        }
    }

    // A generic test cannot open a store for every lifetime of its slice, so each store has one.
    #[test]
    fn sizes_in_place(rt: HostRuntime) {
        at_the_edge(&rt, &mut InPlace::open(&mut []), 0, 0);
        at_the_edge(&rt, &mut InPlace::open(&mut [0; 1]), 1, 1);
        at_the_edge(&rt, &mut InPlace::open(&mut [0; 1024]), 1024, 1024);
        at_the_edge(&rt, &mut InPlace::open(&mut [0; 1030]), 1024, 1024);
    }

    #[test]
    fn sizes_beside(rt: HostRuntime) {
        at_the_edge(&rt, &mut Private::open(&mut []), 0, 0);
        at_the_edge(&rt, &mut Private::open(&mut [0; 1]), 1, 1);
        at_the_edge(&rt, &mut Private::open(&mut [0; 1024]), 1024, 1024);
        at_the_edge(&rt, &mut Private::open(&mut [0; 1030]), 1024, 1024);
    }

    #[test]
    fn one_item_in_place(rt: HostRuntime) {
        let mut values = [5, 6];
        let mut store = InPlace::open(&mut values);
        assert_eq!(rt; store.put(1, 0, 7), Ok(()));
        assert_eq!(rt; store.put(2, 0, 8), refused(Reason::ItemTaken));
        assert_eq!(rt; store.look(1, 0), Ok(7));
        assert_eq!(rt; store.look(2, 0), Ok(5));
        store.publish(2);
        assert_eq!(rt; store.look(2, 0), Ok(5));
        store.publish(1);
        assert_eq!(rt; store.look(2, 0), Ok(7));
        assert_eq!(rt; store.held(), 0);
        assert_eq!(rt; store.put(2, 0, 8), Ok(()));
    }

    #[test]
    fn one_item_beside(rt: HostRuntime) {
        let mut values = [5, 6];
        let mut store = Private::open(&mut values);
        assert_eq!(rt; store.put(1, 0, 1), Ok(()));
        assert_eq!(rt; store.put(2, 0, 2), Ok(()));
        assert_eq!(rt; store.look(1, 0), Ok(1));
        assert_eq!(rt; store.look(2, 0), Ok(2));
        assert_eq!(rt; store.look(3, 0), Ok(5));
        store.publish(2);
        assert_eq!(rt; store.look(3, 0), Ok(2));
        assert_eq!(rt; store.look(1, 0), Ok(1));
        store.publish(1);
        assert_eq!(rt; store.look(3, 0), Ok(1));
        assert_eq!(rt; store.held(), 0);
    }

    // Transaction 1 puts an item twice and drops it.
    fn second_put_and_drop<S: Store>(rt: &impl Abort, store: &mut S) {
        assert_eq!(rt; store.put(1, 1, 7), Ok(()));
        assert_eq!(rt; store.put(1, 1, 9), Ok(()));
        assert_eq!(rt; store.look(1, 1), Ok(9));
        assert_eq!(rt; store.held(), 1);
        store.discard(1);
        assert_eq!(rt; store.look(1, 1), Ok(6));
        assert_eq!(rt; store.held(), 0);
    }

    #[test]
    fn second_puts(rt: HostRuntime) {
        let mut values = [5, 6];
        second_put_and_drop(&rt, &mut InPlace::open(&mut values));
        second_put_and_drop(&rt, &mut Private::open(&mut values));
        assert!(rt; values[0] == 5 && values[1] == 6);
    }
}
