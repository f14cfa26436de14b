//! Texts of orders, and what is read of them.
use grid_order::{Order, OrderFault, read_order};
use std::alloc::Global;
use std::process::Abort;
use std::test::Fail;

/// Takes the turns of the order one after another, and compares them.
fn expect_turns(rt: &impl Abort, mut order: Order, turns: &[u32]) {
    for turn in turns {
        assert!(rt; order.next() == Some(*turn));
    }
    assert!(rt; order.next().is_none());
    assert!(rt; order.next().is_none());
}

/// Reads the text for so many processors, and compares what comes of it.
fn expect(
    rt: &impl Abort,
    alloc: Global,
    text: &[u8],
    count: u32,
    wanted: Result<&[u32], OrderFault>,
) {
    assert!(rt; text.len() < 100);
    match (read_order(alloc, text, count), wanted) {
        (Ok(order), Ok(turns)) => expect_turns(rt, order, turns),
        (Ok(_), Err(_)) => panic!(rt; "taken: {text:?}"),
        (Err(fault), wanted) => assert!(rt; Err(fault) == wanted.map(|_turns| ())),
    }
}

#[test]
fn reads_items(rt: HostRuntime) -> Result<(), Fail> {
    let cases: [(&[u8], u32, &[u32]); 6] = [
        (b"", 1, &[]),
        (b" \t\r\n ", 0, &[]),
        (b"0 1x3 2", 3, &[0, 1, 1, 1, 2]),
        (b"\n1\t\t2x0\r\n0x01 ", 3, &[1, 0]),
        (b"00000000000000000000000000000063x2", 64, &[63, 63]),
        (b"4294967294", 4_294_967_295, &[4_294_967_294]),
    ];
    for (text, count, turns) in cases {
        expect(&rt, rt.alloc(), text, count, Ok(turns));
    }
    Ok(())
}

#[test]
fn refuses_the_first_wrong_item(rt: HostRuntime) -> Result<(), Fail> {
    let cases: [(&[u8], u32, u32); 10] = [
        (b"0 1x3 9", 2, 6),
        (b"0", 0, 0),
        (b"1x1000001", 2, 0),
        (b"0 1x", 2, 2),
        (b"  x1", 2, 2),
        (b"1x1x1", 2, 0),
        (b"-1", 2, 0),
        (b"1,0", 2, 0),
        (b"0\n+1\nx", 2, 2),
        (b"4294967296", 4_294_967_295, 0),
    ];
    for (text, count, at) in cases {
        expect(
            &rt,
            rt.alloc(),
            text,
            count,
            Err(OrderFault::BadItem { at }),
        );
    }
    Ok(())
}

/// A thousand items of a million turns each.
#[test]
fn keeps_repeated_items_short(rt: HostRuntime) -> Result<(), Fail> {
    let mut text = Vec::new(rt.alloc());
    for _item in 0..1000 {
        text.extend_from_slice(b"9x1000000 ")?;
    }
    assert!(&rt; text.len() == 10_000);
    let mut order = read_order(rt.alloc(), text.as_slice(), 10)
        .ok()
        .ok_or("no order")?;
    for _turn in 0..3_000_001 {
        assert!(&rt; order.next() == Some(9));
    }
    Ok(())
}
