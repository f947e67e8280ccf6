ghost use Rattle.std.specs.Prelude.{◌≡◌, ◌≤◌, ◌⊎◌, IfSome};
ghost use Rattle.wkt_text.specs.Limits.{most_depth};
ghost use Rattle.wkt_text.specs.Machine.{opened, at_start, at_body, inner, after_gap, at_item, second_role, end_role, after_close};
ghost use Rattle.wkt_text.specs.Machine.{after_comma, at_after, more_role, at_more, after_two, at_tag, at_first, at_second, advance};
ghost use Rattle.wkt_text.specs.Machine.{refused_kind};

use crate::state::{Control, Membership, RingKind, Rings, Role, Site, Step};
use crate::token::Token;
use crate::word::{Tag, TypeWord};

/// How deep collections may be nested.
const DEPTH: u32 = 32;

/// The fault of a token.
#[derive(Clone, Copy, Debug, PartialEq, Eq)]
pub enum WktKind {
    /// The token isn't allowed there, or a number has another form.
    Syntax,
    /// A word stands where a type word is expected.
    UnknownType,
    /// The value isn't whole.
    NotWhole,
    /// The value is above the limit in size.
    TooWide,
    /// A number has more than 64 bytes.
    LongNumber,
    /// A position has too few or too many ordinates.
    Ragged,
    /// The first position of a ring isn't its last.
    RingOpen,
    /// A ring has fewer than four positions.
    RingShort,
    /// A line has one position.
    LineShort,
    /// Collections are nested more than 32 deep.
    Deep,
    /// A geometry has more than 1,048,576 positions.
    TooMany,
}

/// At a type word.
fn at_start(c: Control, token: Token) -> Option<(Role, Control)>
    requires shallow { c.depth ≤ most_depth }
    ensures next { result ≡ at_start c token }
    ensures shallow { IfSome result (λ r. (r.0 ≡ Role.Deep) ⊎ (r.1.depth ≤ most_depth)) }
{
    let Token::Type(kind, tag) = token else {
        return None;
    };
    let step = if tag == Tag::Plain {
        Step::Tagged(kind)
    } else {
        Step::Body(kind)
    };
    if kind != TypeWord::GeometryCollection {
        return Some((Role::Head, Control { step, tag, ..c }));
    }
    let role = if c.depth < DEPTH {
        Role::Head
    } else {
        Role::Deep
    };
    let next = Control {
        step,
        tag,
        depth: c.depth + 1,
        ..c
    };
    Some((role, next))
}

/// After the bracket that opens a body.
fn opened(c: Control, kind: TypeWord) -> (Role, Control)
    ensures next { result ≡ opened c kind }
    ensures shallow { result.1.depth ≤ c.depth }
{
    match kind {
        TypeWord::Point => (Role::Mark, c.to(Step::First, Site::Point)),
        TypeWord::LineString => (Role::Mark, c.to(Step::First, Site::Line(Membership::Alone))),
        TypeWord::Polygon => (
            Role::Group,
            c.to(Step::Item, Site::Polygon(Membership::Alone, Rings::Shell)),
        ),
        TypeWord::MultiPoint => (Role::Mark, c.to(Step::Item, Site::Points)),
        TypeWord::MultiLineString => (Role::Mark, c.to(Step::Item, Site::Lines)),
        TypeWord::MultiPolygon => (Role::Group, c.to(Step::Item, Site::Polygons)),
        TypeWord::GeometryCollection => (Role::Mark, c.to(Step::Start, Site::Top)),
    }
}

/// At a body.
fn at_body(c: Control, kind: TypeWord, token: Token) -> Option<(Role, Control)>
    ensures next { result ≡ at_body c kind token }
    ensures shallow { IfSome result (λ r. r.1.depth ≤ c.depth) }
{
    match token {
        Token::Empty if kind == TypeWord::GeometryCollection => Some((
            Role::Mark,
            c.ended(c.outer()),
        )),
        Token::Empty => Some((Role::Mark, c.ended(c.depth))),
        Token::Open => Some(opened(c, kind)),
        _ => None,
    }
}

/// The bracket of an item that is no position.
fn inner(site: Site) -> Option<(Step, Site)>
    ensures bracket { result ≡ inner site }
{
    match site {
        Site::Points => Some((Step::First, Site::Element)),
        Site::Lines => Some((Step::First, Site::Line(Membership::Member))),
        Site::Polygons => Some((Step::Item, Site::Polygon(Membership::Member, Rings::Shell))),
        Site::Polygon(many, Rings::Shell) => Some((Step::First, Site::Ring(many, RingKind::Shell))),
        Site::Polygon(many, Rings::Hole) => Some((Step::First, Site::Ring(many, RingKind::Hole))),
        _ => None,
    }
}

/// The open bracket after an EMPTY item.
fn after_gap(site: Site) -> Site
    ensures site { result ≡ after_gap site }
{
    match site {
        Site::Polygon(many, Rings::Shell) => Site::Polygon(many, Rings::Hollow),
        other => other,
    }
}

/// At an item that is no position, or at a bare position of a MULTIPOINT.
fn at_item(c: Control, token: Token) -> Option<(Role, Control)>
    ensures next { result ≡ at_item c token }
    ensures shallow { IfSome result (λ r. r.1.depth ≤ c.depth) }
{
    match token {
        Token::Empty => Some((Role::Mark, c.to(Step::After, after_gap(c.site)))),
        Token::Open => {
            let (step, site) = inner(c.site)?;
            Some((Role::Mark, c.to(step, site)))
        }
        Token::Number(_) if c.site == Site::Points => Some((Role::X, c.to(Step::Second, c.site))),
        _ => None,
    }
}

/// What the second ordinate of a position is for.
fn second_role(site: Site) -> Role
    ensures role { result ≡ second_role site }
{
    match site {
        Site::Point | Site::Points | Site::Element => Role::PointY,
        _ => Role::WayY,
    }
}

/// What the end of a bracket is for.
fn end_role(site: Site) -> Role
    ensures role { result ≡ end_role site }
{
    match site {
        Site::Line(_) => Role::EndLine,
        Site::Ring(_, RingKind::Shell) => Role::EndShell,
        Site::Ring(_, RingKind::Hole) => Role::EndHole,
        Site::Polygon(_, Rings::Hole) => Role::EndArea,
        _ => Role::Mark,
    }
}

/// After the end of the open bracket.
fn after_close(c: Control) -> Control
    ensures next { result ≡ after_close c }
    ensures shallow { result.depth ≤ c.depth }
{
    match c.site {
        Site::Top => c.ended(c.outer()),
        Site::Line(Membership::Member) => c.to(Step::After, Site::Lines),
        Site::Element => c.to(Step::After, Site::Points),
        Site::Ring(many, _) => c.to(Step::After, Site::Polygon(many, Rings::Hole)),
        Site::Polygon(Membership::Member, _) => c.to(Step::After, Site::Polygons),
        _ => c.ended(c.depth),
    }
}

/// What is expected after a comma in a bracket, where one may stand there.
fn after_comma(site: Site) -> Option<Step>
    ensures step { result ≡ after_comma site }
{
    match site {
        Site::Top => Some(Step::Start),
        Site::Line(_) | Site::Ring(_, _) => Some(Step::First),
        Site::Point | Site::Element | Site::Polygon(_, Rings::Shell) => None,
        _ => Some(Step::Item),
    }
}

/// After an item of the open bracket.
fn at_after(c: Control, token: Token) -> Option<(Role, Control)>
    ensures next { result ≡ at_after c token }
    ensures shallow { IfSome result (λ r. r.1.depth ≤ c.depth) }
{
    match token {
        Token::Comma => {
            let step = after_comma(c.site)?;
            Some((Role::Mark, c.to(step, c.site)))
        }
        Token::Close => Some((end_role(c.site), after_close(c))),
        _ => None,
    }
}

/// What a third or fourth ordinate is for.
fn more_role(tag: Tag) -> Role
    ensures role { result ≡ more_role tag }
{
    match tag {
        Tag::Plain => Role::Further,
        _ => Role::Demanded,
    }
}

/// Where a third or fourth ordinate may or must come.
fn at_more(c: Control, next: Step, token: Token) -> Option<(Role, Control)>
    ensures next { result ≡ at_more c next token }
    ensures shallow { IfSome result (λ r. r.1.depth ≤ c.depth) }
{
    match token {
        Token::Number(_) | Token::Nan => Some((more_role(c.tag), c.to(next, c.site))),
        _ if c.tag == Tag::Plain => at_after(c, token),
        _ => None,
    }
}

/// What is expected after a third ordinate.
fn after_two(tag: Tag) -> Step
    ensures step { result ≡ after_two tag }
{
    match tag {
        Tag::Z | Tag::M => Step::Full,
        _ => Step::Three,
    }
}

/// After a type word without a tag.
fn at_tag(c: Control, kind: TypeWord, token: Token) -> Option<(Role, Control)>
    ensures next { result ≡ at_tag c kind token }
    ensures shallow { IfSome result (λ r. r.1.depth ≤ c.depth) }
{
    match token {
        Token::Tag(tag) => Some((
            Role::Mark,
            Control {
                step: Step::Body(kind),
                tag,
                ..c
            },
        )),
        _ => at_body(c, kind, token),
    }
}

/// At a first ordinate.
fn at_first(c: Control, token: Token) -> Option<(Role, Control)>
    ensures next { result ≡ at_first c token }
    ensures shallow { IfSome result (λ r. r.1.depth ≤ c.depth) }
{
    match token {
        Token::Number(_) => Some((Role::X, c.to(Step::Second, c.site))),
        _ => None,
    }
}

/// At a second ordinate.
fn at_second(c: Control, token: Token) -> Option<(Role, Control)>
    ensures next { result ≡ at_second c token }
    ensures shallow { IfSome result (λ r. r.1.depth ≤ c.depth) }
{
    match token {
        Token::Number(_) => Some((second_role(c.site), c.to(Step::Two, c.site))),
        _ => None,
    }
}

/// What a token is for, and what comes after it, or None where it isn't allowed.
#[tactic(auto, unfolding(crate::specs::Machine::advance))]
pub fn advance(c: Control, token: Token) -> Option<(Role, Control)>
    requires shallow { c.depth ≤ most_depth }
    ensures next { result ≡ advance c token }
    ensures shallow { IfSome result (λ r. (r.0 ≡ Role.Deep) ⊎ (r.1.depth ≤ most_depth)) }
{
    match c.step {
        Step::Start => at_start(c, token),
        Step::Tagged(kind) => at_tag(c, kind, token),
        Step::Body(kind) => at_body(c, kind, token),
        Step::Item => at_item(c, token),
        Step::First => at_first(c, token),
        Step::Second => at_second(c, token),
        Step::Two => at_more(c, after_two(c.tag), token),
        Step::Three => at_more(c, Step::Full, token),
        Step::After | Step::Full => at_after(c, token),
        Step::Done => None,
    }
}

/// The fault of a token that isn't allowed.
#[tactic(auto, unfolding(crate::specs::Machine::refused_kind))]
pub fn refused_kind(c: Control, token: Token) -> WktKind
    ensures kind { result ≡ refused_kind c token }
{
    match (c.step, token) {
        (Step::Start, Token::Tag(_) | Token::Empty | Token::Nan | Token::Word) =>
            WktKind::UnknownType,
        (Step::Two | Step::Three, _) if c.tag != Tag::Plain => WktKind::Ragged,
        (Step::Full, Token::Number(_) | Token::Nan) => WktKind::Ragged,
        _ => WktKind::Syntax,
    }
}
