ghost use Rattle.std.specs.Prelude.{◌≡◌, ◌≤◌};
ghost use Rattle.wkt_text.specs.Machine.{is_done, to, outer, ended};

use crate::word::{Tag, TypeWord};

/// What a token is for: what is to be done with it, and which rule it has to keep.
#[derive(Clone, Copy, Debug, PartialEq, Eq)]
pub enum Role {
    /// A type word.
    Head,
    /// The type word of a collection that is nested too deep.
    Deep,
    /// A token with no rule of its own.
    Mark,
    /// The bracket in which the areas of one group follow.
    Group,
    /// A first ordinate.
    X,
    /// The second ordinate of a loose point.
    PointY,
    /// The second ordinate of a position on a line or a ring.
    WayY,
    /// A third or fourth ordinate that the tag demands.
    Demanded,
    /// A third or fourth ordinate where there is no tag.
    Further,
    /// The end of a line.
    EndLine,
    /// The end of a shell.
    EndShell,
    /// The end of a hole.
    EndHole,
    /// The end of a polygon that has a shell.
    EndArea,
}

/// What the next ring of a polygon is.
#[derive(Clone, Copy, Debug, PartialEq, Eq)]
pub enum Rings {
    /// The shell.
    Shell,
    /// A hole.
    Hole,
    /// After an EMPTY shell: EMPTY.
    Hollow,
}

/// Whether a part is a geometry's whole body, or an item of a MULTI type.
#[derive(Clone, Copy, Debug, PartialEq, Eq)]
pub enum Membership {
    /// The whole body.
    Alone,
    /// An item.
    Member,
}

/// What a ring is in its polygon.
#[derive(Clone, Copy, Debug, PartialEq, Eq)]
pub enum RingKind {
    /// The shell.
    Shell,
    /// A hole.
    Hole,
}

/// The innermost open bracket, but for those of collections.
#[derive(Clone, Copy, Debug, PartialEq, Eq)]
pub enum Site {
    /// None.
    Top,
    /// Of a POINT.
    Point,
    /// Of a line.
    Line(Membership),
    /// Of a MULTIPOINT.
    Points,
    /// Of one element of a MULTIPOINT.
    Element,
    /// Of a MULTILINESTRING.
    Lines,
    /// Of a polygon.
    Polygon(Membership, Rings),
    /// Of a ring.
    Ring(Membership, RingKind),
    /// Of a MULTIPOLYGON.
    Polygons,
}

/// What is expected next.
#[derive(Clone, Copy, Debug, PartialEq, Eq)]
pub enum Step {
    /// A type word.
    Start,
    /// After a type word without a tag: a tag or a body.
    Tagged(TypeWord),
    /// A body.
    Body(TypeWord),
    /// An item of the open bracket that is no position.
    Item,
    /// A first ordinate.
    First,
    /// A second ordinate.
    Second,
    /// What follows two ordinates.
    Two,
    /// What follows three ordinates of which the last isn't the last that may be.
    Three,
    /// What follows an item of the open bracket.
    After,
    /// What follows a position that is full.
    Full,
    /// Nothing: the geometry has ended.
    Done,
}

/// Where the reader is.
#[derive(Clone, Copy, Debug, PartialEq, Eq)]
pub struct Control {
    pub step: Step,
    pub site: Site,
    /// How many collections are open, with the one whose type word was the last.
    pub depth: u32,
    pub tag: Tag,
}

impl Control {
    /// Before a geometry.
    pub const START: Control = Control {
        step: Step::Start,
        site: Site::Top,
        depth: 0,
        tag: Tag::Plain,
    };

    /// Whether the geometry has ended.
    pub fn is_done(self) -> bool
        ensures done { result ≡ is_done self.step }
    {
        match self.step {
            Step::Done => true,
            _ => false,
        }
    }

    /// How many collections are open once one is closed.
    pub fn outer(self) -> u32
        ensures next { result ≡ outer self.depth }
        ensures shallow { result ≤ self.depth }
    {
        match self.depth {
            0 => 0,
            depth => depth - 1,
        }
    }

    /// The same depth and tag, at another step and bracket.
    pub fn to(self, step: Step, site: Site) -> Control
        ensures next { result ≡ to self step site }
    {
        Control { step, site, ..self }
    }

    /// After a geometry that is in so many collections.
    pub fn ended(self, depth: u32) -> Control
        ensures next { result ≡ ended self depth }
    {
        let step = if depth == 0 { Step::Done } else { Step::After };
        Control {
            step,
            site: Site::Top,
            depth,
            tag: self.tag,
        }
    }
}
