//! Spans beside lists of the items that were found by hand.
use super::{Span, SpanList, YIndex, are_spans, stab};
use plane_exact::{Count, LIMIT, NoMemory, Node, PlaceList, Pt};
use std::alloc::Global;
use std::process::Abort;
use std::test::Fail;

fn index_of(rt: &impl Abort, alloc: Global, spans: &[(i64, i64)]) -> Result<YIndex, NoMemory> {
    let mut list = SpanList::new(alloc);
    for (low, high) in spans {
        list.push(Span {
            low: *low,
            high: *high,
        })?;
    }
    assert!(rt; list.len() <= 1_048_576);
    assert!(rt; are_spans(list.as_slice()));
    YIndex::build(alloc, &list)
}

/// The items of the rows that hold the height of `n`, and how many rows were looked at.
fn found(alloc: Global, index: &YIndex, n: &Node) -> Result<(PlaceList, u64), NoMemory> {
    let mut meter = Count::new();
    let listed = stab(index, n, Ok(PlaceList::new(alloc)), add, &mut meter);
    Ok((listed?, meter.ticks()))
}

fn add(listed: Result<PlaceList, NoMemory>, item: u32) -> Result<PlaceList, NoMemory> {
    let mut list = listed?;
    list.push(item)?;
    Ok(list)
}

#[test]
fn spans_at_a_height(rt: HostRuntime) -> Result<(), Fail> {
    let index = index_of(&rt, rt.alloc(), &[(0, 4), (2, 6), (5, 5)])?;
    let (items, looks) = found(rt.alloc(), &index, &Node::at_point(Pt { x: 9, y: 5 }))?;
    assert_eq!(rt; items.as_slice(), [1, 2].as_slice());
    assert!(rt; looks <= 24);
    let (items, _) = found(rt.alloc(), &index, &Node::reduce(0, 9, 2))?;
    assert_eq!(rt; items.as_slice(), [1].as_slice());
    let (items, _) = found(rt.alloc(), &index, &Node::at_point(Pt { x: 0, y: 4 }))?;
    assert_eq!(rt; items.as_slice(), [0, 1].as_slice());
    let (items, _) = found(rt.alloc(), &index, &Node::reduce(0, -1, 3))?;
    assert_eq!(rt; items.as_slice(), [].as_slice());
    Ok(())
}

#[test]
fn spans_in_the_order_of_rows(rt: HostRuntime) -> Result<(), Fail> {
    let spans = [(1, 1), (-LIMIT, LIMIT), (1, 1), (-LIMIT, 1), (2, 2)];
    let index = index_of(&rt, rt.alloc(), &spans)?;
    let (items, _) = found(rt.alloc(), &index, &Node::at_point(Pt { x: 0, y: 1 }))?;
    assert_eq!(rt; items.as_slice(), [3, 1, 0, 2].as_slice());
    Ok(())
}

#[test]
fn no_spans(rt: HostRuntime) -> Result<(), Fail> {
    let index = index_of(&rt, rt.alloc(), &[])?;
    let (items, looks) = found(rt.alloc(), &index, &Node::at_point(Pt { x: 0, y: 0 }))?;
    assert_eq!(rt; items.as_slice(), [].as_slice());
    assert_eq!(rt; looks, 0);
    Ok(())
}

fn can_be_shared<T: Send + Sync>() -> bool {
    true
}

#[test]
fn an_index_can_be_shared_by_threads(rt: HostRuntime) {
    assert!(rt; can_be_shared::<YIndex>());
    assert!(rt; can_be_shared::<SpanList>());
}
