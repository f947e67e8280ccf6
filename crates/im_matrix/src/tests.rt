// Texts of matrices and patterns, and the names against the table as users know it.

use super::*;
use std::process::Abort;
use std::test::Fail;

const INTERIORS: Cell = Cell {
    a: Loc::Interior,
    b: Loc::Interior,
};

const DIMS: [Dim; 4] = [Dim::Empty, Dim::Zero, Dim::One, Dim::Two];

const NAMES: [Name; 11] = [
    Name::Intersects,
    Name::Disjoint,
    Name::Contains,
    Name::Within,
    Name::Covers,
    Name::CoveredBy,
    Name::Touches,
    Name::Crosses,
    Name::Overlaps,
    Name::Equals,
    Name::ContainsProperly,
];

fn can_be_shared<T: Send + Sync>() -> bool {
    true
}

#[test]
fn matrices_and_patterns_can_be_shared_by_threads(rt: HostRuntime) {
    assert!(rt; can_be_shared::<Matrix>());
    assert!(rt; can_be_shared::<Pattern>());
}

#[test]
fn texts(rt: HostRuntime) -> Result<(), Fail> {
    let mut m = Matrix::start();
    assert_eq!(rt; m.text(), *b"FFFFFFFF2");
    m.raise(INTERIORS, Dim::Zero);
    m.raise(INTERIORS, Dim::Empty);
    assert_eq!(rt; m.get(INTERIORS), Dim::Zero);
    assert_eq!(rt; m.text(), *b"0FFFFFFF2");

    let own = Pattern::parse("0FFFFFFF2")?;
    assert_eq!(rt; own.text(), *b"0FFFFFFF2");
    assert!(rt; own.matches(&m));
    assert!(rt; Pattern::parse("T*F**FF**")?.matches(&m));
    assert_eq!(rt; Pattern::parse("T*F**F**"), Err(BadPattern { place: 8 }));
    assert_eq!(rt; Pattern::parse("t*F**FF**"), Err(BadPattern { place: 0 }));
    assert_eq!(rt; Pattern::parse("T*F*3FF**"), Err(BadPattern { place: 4 }));
    assert_eq!(rt; Pattern::parse("T*F**FF** "), Err(BadPattern { place: 9 }));
    Ok(())
}

// The table as it is printed, by the dimensions of A and B.
fn patterns(name: Name, a: Dim, b: Dim) -> &'static [&'static str] {
    let lines = a == Dim::One && b == Dim::One;
    match name {
        Name::Disjoint | Name::Intersects => &["FF*FF****"],
        Name::Within => &["T*F**F***"],
        Name::Contains => &["T*****FF*"],
        Name::Covers => &["T*****FF*", "*T****FF*", "***T**FF*", "****T*FF*"],
        Name::CoveredBy => &["T*F**F***", "*TF**F***", "**FT*F***", "**F*TF***"],
        Name::Touches if a == Dim::Zero && b == Dim::Zero => &[],
        Name::Touches => &["FT*******", "F**T*****", "F***T****"],
        Name::Crosses if lines => &["0********"],
        Name::Crosses if a < b => &["T*T******"],
        Name::Crosses if b < a => &["T*****T**"],
        Name::Crosses => &[],
        Name::Overlaps if lines => &["1*T***T**"],
        Name::Overlaps if a == b && a != Dim::Empty => &["T*T***T**"],
        Name::Overlaps => &[],
        Name::Equals => &["**F**FFF*"],
        Name::ContainsProperly => &["T**FF*FF*"],
    }
}

// Whether a text of a matrix fits a pattern, character by character.
fn fits(pattern: &str, text: &[u8]) -> bool {
    pattern.as_bytes().iter().zip(text).all(|(&c, &x)| match c {
        b'*' => true,
        b'T' => x != b'F',
        _ => c == x,
    })
}

// Whether a name is true of a matrix with this text, by the table.
fn by_the_table(name: Name, a: Dim, b: Dim, text: &[u8]) -> bool {
    let some = patterns(name, a, b).iter().any(|p| fits(p, text));
    if name == Name::Intersects {
        !some
    } else {
        some
    }
}

// The matrix with this dimension where the interiors meet, and in the next seven cells One by the bits.
fn matrix_of(ii: Dim, bits: u8) -> Matrix {
    let mut m = Matrix::start();
    m.raise(INTERIORS, ii);
    let mut rest = bits;
    for &c in &Cell::ALL[1..8] {
        m.raise(c, if rest % 2 == 1 { Dim::One } else { Dim::Empty });
        rest /= 2;
    }
    m
}

fn assert_names(rt: &impl Abort, a: Dim, b: Dim, m: &Matrix) {
    let text = m.text();
    for name in NAMES {
        assert_eq!(rt; named(name, a, b, m), by_the_table(name, a, b, &text));
    }
}

fn assert_names_at_each_b(rt: &impl Abort, a: Dim, m: &Matrix) {
    for b in DIMS {
        assert_names(rt, a, b, m);
    }
}

fn assert_names_at_each_pair(rt: &impl Abort, m: &Matrix) {
    for a in DIMS {
        assert_names_at_each_b(rt, a, m);
    }
}

fn assert_matrices_with(rt: &impl Abort, ii: Dim) {
    for bits in 0u8..128 {
        assert_names_at_each_pair(rt, &matrix_of(ii, bits));
    }
}

#[test]
fn names_by_the_table(rt: HostRuntime) {
    for ii in DIMS {
        assert_matrices_with(&rt, ii);
    }
}
