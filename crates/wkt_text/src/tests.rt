use crate::WktKind;
use crate::read::{Parsed, WktFault, read_next};
use crate::scale::Scale;
use crate::word::{TypeWord, type_word};
use std::test::Fail;

/// What a reading answers, in short.
#[derive(Clone, Copy, Debug, PartialEq, Eq)]
enum Answer {
    /// No geometry.
    None,
    /// A fault and its place.
    Bad(WktKind, usize),
    /// Want of memory, or a place that the text hasn't.
    NoMemory,
    /// One loose point and nothing more: its x and y, and the end.
    Point(i64, i64, usize),
    /// Another figure: how many points, lines and areas, and the end.
    Figure(usize, usize, usize, usize),
}

/// The point at the end of a line, and how many points the line has.
#[derive(Clone, Copy, Debug, PartialEq, Eq)]
struct LineEnd {
    count: usize,
    x: i64,
    y: i64,
}

fn read(rt: &HostRuntime, text: &[u8], at: usize) -> Result<Option<Parsed>, WktFault> {
    let scale = Scale::new(0).ok_or(WktFault::NoMemory)?;
    if at > text.len() {
        return Err(WktFault::NoMemory);
    }
    read_next(rt.alloc(), text, at, scale)
}

fn answer_of(parsed: &Parsed) -> Answer {
    let points = &parsed.figure.points;
    let lines = parsed.figure.lines.len();
    let areas = parsed.figure.areas.len();
    if points.len() != 1 || lines != 0 || areas != 0 {
        return Answer::Figure(points.len(), lines, areas, parsed.end);
    }
    let p = points.at(0);
    Answer::Point(p.x, p.y, parsed.end)
}

fn reading(rt: &HostRuntime, text: &[u8], at: usize) -> Answer {
    match read(rt, text, at) {
        Ok(None) => Answer::None,
        Ok(Some(parsed)) => answer_of(&parsed),
        Err(WktFault::Bad(kind, place)) => Answer::Bad(kind, place),
        Err(WktFault::NoMemory) => Answer::NoMemory,
    }
}

/// The end of the line with this number, or None where there is no such line.
fn line_end(rt: &HostRuntime, text: &str, index: usize) -> Option<LineEnd> {
    let parsed = read(rt, text.as_bytes(), 0).ok()??;
    let line = parsed.figure.lines.as_slice().get(index)?;
    let last = line.as_slice().last()?;
    Some(LineEnd {
        count: line.len(),
        x: last.x,
        y: last.y,
    })
}

/// The group of the area with this number, or None where there is no such area.
fn group_at(rt: &HostRuntime, text: &str, index: usize) -> Option<u32> {
    let parsed = read(rt, text.as_bytes(), 0).ok()??;
    let area = parsed.figure.areas.as_slice().get(index)?;
    Some(area.group)
}

/// The number of the first text, from 0 on, that isn't answered so when it is read from its start.
fn first_wrong(rt: &HostRuntime, rows: &[(&str, Answer)]) -> Option<usize> {
    for (index, (text, answer)) in rows.iter().enumerate() {
        if reading(rt, text.as_bytes(), 0) != *answer {
            return Some(index);
        }
    }
    None
}

#[test]
fn rows_of_points(rt: HostRuntime) -> Result<(), Fail> {
    let rows = [
        ("", Answer::None),
        ("POINT(1 2)", Answer::Point(1, 2, 10)),
        ("point zm (1 2 3 4)", Answer::Point(1, 2, 18)),
        ("POINTZ (1 2 3)", Answer::Point(1, 2, 14)),
        ("POINT Z (1 2)", Answer::Bad(WktKind::Ragged, 12)),
        ("POINT (1 2 3 4 5)", Answer::Bad(WktKind::Ragged, 15)),
        ("POINT Z (1 2", Answer::Bad(WktKind::Ragged, 12)),
        ("POINT ZM (1 2NaN3)", Answer::Point(1, 2, 18)),
        ("POINT (1)", Answer::Bad(WktKind::Syntax, 8)),
        ("POINT ()", Answer::Bad(WktKind::Syntax, 7)),
    ];
    assert_eq!(rt; first_wrong(&rt, &rows), None);
    Ok(())
}

#[test]
fn rows_of_lines_and_rings(rt: HostRuntime) -> Result<(), Fail> {
    let rows = [
        ("LINESTRING (1 1)", Answer::Bad(WktKind::LineShort, 15)),
        (
            "POLYGON ((0 0, 4 0, 4 4, 0 4))",
            Answer::Bad(WktKind::RingOpen, 28),
        ),
        (
            "POLYGON ((0 0, 4 0, 0 0))",
            Answer::Bad(WktKind::RingShort, 23),
        ),
        ("POLYGON ((0 0, 4 4, 4 0,", Answer::Bad(WktKind::Syntax, 24)),
        ("POLYGON (EMPTY, EMPTY)", Answer::Figure(0, 0, 0, 22)),
        ("POLYGON (EMPTY, (", Answer::Bad(WktKind::Syntax, 16)),
        (
            "MULTILINESTRING ((0 0, 1 1), EMPTY, (2 2, 3 3, 4 5))",
            Answer::Figure(0, 2, 0, 52),
        ),
        (
            "MULTILINESTRING ((0 0, 1 1), (2 2))",
            Answer::Bad(WktKind::LineShort, 33),
        ),
    ];
    assert_eq!(rt; first_wrong(&rt, &rows), None);
    Ok(())
}

#[test]
fn rows_of_numbers(rt: HostRuntime) -> Result<(), Fail> {
    let rows = [
        ("POINT (1e999 0)", Answer::Bad(WktKind::TooWide, 7)),
        ("POINT (0e999 -0.0)", Answer::Point(0, 0, 18)),
        ("POINT (1200e-2 0)", Answer::Point(12, 0, 17)),
        ("POINT (1048576.5 0)", Answer::Bad(WktKind::NotWhole, 7)),
        ("POINT (+ 0)", Answer::Bad(WktKind::Syntax, 7)),
        (
            "POINT (00000000000000000000000000000000000000000000000000000000000000000 0)",
            Answer::Bad(WktKind::LongNumber, 7),
        ),
    ];
    assert_eq!(rt; first_wrong(&rt, &rows), None);
    Ok(())
}

#[test]
fn rows_of_words_and_places(rt: HostRuntime) -> Result<(), Fail> {
    let placed = [
        ("CIRCLE (0 0)", 0, Answer::Bad(WktKind::UnknownType, 0)),
        ("POINT (1 2) x", 0, Answer::Point(1, 2, 11)),
        ("POINT (1 2) x", 11, Answer::Bad(WktKind::UnknownType, 12)),
        (
            "GEOMETRYCOLLECTION (EMPTY)",
            0,
            Answer::Bad(WktKind::UnknownType, 20),
        ),
    ];
    for (text, at, answer) in placed {
        assert_eq!(rt; reading(&rt, text.as_bytes(), at), answer, "at {text}");
    }
    assert_eq!(rt; type_word(b" linestringZM", 0), Some(TypeWord::LineString));
    Ok(())
}

#[test]
fn rows_of_collections(rt: HostRuntime) -> Result<(), Fail> {
    let mut text = Vec::new(rt.alloc());
    for _ in 0..33 {
        text.extend_from_slice(b"GEOMETRYCOLLECTION (")?;
    }
    assert_eq!(rt; reading(&rt, &text, 0), Answer::Bad(WktKind::Deep, 640));
    let mixed =
        "GEOMETRYCOLLECTION(MULTIPOINT(1 2,(3 4),EMPTY),LINESTRING(0 0,1 1),MULTIPOLYGON(((0 0,9 0,9 9,0 0),(5 1,6 1,6 2,5 1)),EMPTY))";
    assert_eq!(rt;
        reading(&rt, mixed.as_bytes(), 0),
        Answer::Figure(2, 1, 1, 125)
    );
    Ok(())
}

#[test]
fn many_positions(rt: HostRuntime) -> Result<(), Fail> {
    let mut text = Vec::new(rt.alloc());
    text.extend_from_slice(b"MULTIPOINT (")?;
    for _ in 0..65_536 {
        text.extend_from_slice(b"0 0,")?;
    }
    text.extend_from_slice(b"0 0)")?;
    assert_eq!(rt;
        reading(&rt, &text, 0),
        Answer::Figure(65_537, 0, 0, 262_160)
    );
    Ok(())
}

#[test]
fn rows_of_line_ends(rt: HostRuntime) -> Result<(), Fail> {
    let text = "MULTILINESTRING ((0 0, 1 1), EMPTY, (2 2, 3 3, 4 5))";
    let first = LineEnd {
        count: 2,
        x: 1,
        y: 1,
    };
    let second = LineEnd {
        count: 3,
        x: 4,
        y: 5,
    };
    for (index, end) in [(0, Some(first)), (1, Some(second)), (2, None)] {
        assert_eq!(rt; line_end(&rt, text, index), end, "at {index}");
    }
    Ok(())
}

#[test]
fn rows_of_groups(rt: HostRuntime) -> Result<(), Fail> {
    // Two areas of one group, a group without an area, and an area of the next group.
    let text =
        "GEOMETRYCOLLECTION(MULTIPOLYGON(((0 0,9 0,9 9,0 0)),((20 0,29 0,29 9,20 0))),MULTIPOLYGON EMPTY,POLYGON((40 0,49 0,49 9,40 0)))";
    for (index, group) in [(0, Some(0)), (1, Some(0)), (2, Some(1)), (3, None)] {
        assert_eq!(rt; group_at(&rt, text, index), group, "at {index}");
    }
    Ok(())
}
