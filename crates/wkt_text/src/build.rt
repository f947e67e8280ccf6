ghost use Rattle.std.specs.Prelude.{◌≡◌, ◌<◌, ◌≤◌, IfOk, IfErr, None, length, option_map};
ghost use Rattle.plane_exact.specs.Limits.{most_positions};
ghost use Rattle.wkt_text.specs.Rules.{drop_fault, ends_meet, line_fault, ring_fault};
ghost use Rattle.wkt_text.specs.Building.{place_value, StopsAt, IsWantFor, IsCounted, act, next_group, with_group, with_area, act_x};
ghost use Rattle.wkt_text.specs.Building.{act_point, act_way, end_line, end_shell, end_hole, start_build};

use crate::control::WktKind;
use crate::number::Numeral;
use crate::read::WktFault;
use crate::state::Role;
use crate::token::Token;
use plane_exact::{MOST_POSITIONS, NoMemory, Path, Pt};
use point_set::{Area, Areas, Figure, Paths};
use std::alloc::Global;
use std::mem;

/// Why a token isn't taken: it breaks a rule, or memory is wanting.
#[derive(Clone, Copy, Debug, PartialEq, Eq)]
pub enum Stop {
    /// The token breaks a rule.
    Fault(WktKind),
    /// Memory is wanting.
    NoMemory,
}

impl From<NoMemory> for Stop {
    ghost use Rattle.wkt_text.specs.declared.build.Stop.TheVariants as stop;

    ghost from_gives = { λ _ e. e ≡ stop.NoMemory };

    fn from(_value: NoMemory) -> Self {
        Stop::NoMemory
    }
}

impl From<WktKind> for Stop {
    ghost use Rattle.wkt_text.specs.declared.build.Stop.TheVariants as stop;

    ghost from_gives = { λ k e. e ≡ stop.Fault k };

    fn from(value: WktKind) -> Self {
        Stop::Fault(value)
    }
}

impl Stop {
    ghost use Rattle.wkt_text.specs.Reading.{fault_at};

    /// The fault of a reading that stops so at the token whose first byte has this place.
    pub fn at(self, place: usize) -> WktFault
        ensures fault { result ≡ fault_at place self }
    {
        match self {
            Stop::Fault(kind) => WktFault::Bad(kind, place),
            Stop::NoMemory => WktFault::NoMemory,
        }
    }
}

/// What the tokens so far have built.
#[derive(Debug, Drop)]
pub struct Build {
    /// Points, lines and areas that are whole.
    pub figure: Figure,
    /// The positions of the line or ring that is open.
    pub way: Path,
    /// The shell of the polygon that is open.
    pub shell: Option<Path>,
    /// Its holes so far.
    pub holes: Paths,
    /// The first ordinate of a position whose second is awaited.
    pub x: Option<i64>,
    /// How many positions were begun.
    pub count: u32,
    /// The group of the areas to come.
    pub group: u32,
}

/// The value of a first or second ordinate.
fn place_value(token: Token) -> Result<i64, WktKind>
    ensures value { result ≡ place_value token }
{
    match token {
        Token::Number(Numeral::Whole(value)) => Ok(value),
        Token::Number(Numeral::Long) => Err(WktKind::LongNumber),
        Token::Number(Numeral::Fraction) => Err(WktKind::NotWhole),
        Token::Number(Numeral::Wide) => Err(WktKind::TooWide),
        _ => Err(WktKind::Syntax),
    }
}

/// Tests a third or fourth ordinate, which is dropped.
fn check_dropped(token: Token) -> Result<(), WktKind>
    ensures kept { IfOk result (λ _. drop_fault token ≡ None) }
    ensures fault { IfErr result (λ k. drop_fault token ≡ Some k) }
{
    match token {
        Token::Number(Numeral::Long) => Err(WktKind::LongNumber),
        Token::Number(Numeral::Malformed) => Err(WktKind::Syntax),
        _ => Ok(()),
    }
}

/// Whether the first position is the last.
fn ends_meet(way: &Path) -> bool
    requires some { 0 < length way.now }
    ensures closed { result ≡ ends_meet way.now }
{
    let first = way.at(0);
    let last = way.at(way.len() - 1);
    first.x == last.x && first.y == last.y
}

/// Tests a line at its end.
fn check_line(way: &Path) -> Result<(), WktKind>
    ensures kept { IfOk result (λ _. line_fault way.now ≡ None) }
    ensures fault { IfErr result (λ k. line_fault way.now ≡ Some k) }
{
    if way.len() < 2 {
        return Err(WktKind::LineShort);
    }
    Ok(())
}

/// Tests a ring at its end.
fn check_ring(way: &Path) -> Result<(), WktKind>
    ensures kept { IfOk result (λ _. ring_fault way.now ≡ None) }
    ensures fault { IfErr result (λ k. ring_fault way.now ≡ Some k) }
{
    if way.len() < 4 {
        return Err(WktKind::RingShort);
    }
    if ends_meet(way) {
        Ok(())
    } else {
        Err(WktKind::RingOpen)
    }
}

/// The number of a group that begins after these areas.
fn next_group(areas: &Areas) -> u32
    requires few { next_group areas.now ≤ most_positions }
    ensures group { result ≡ next_group areas.now }
{
    match areas.as_slice().last() {
        Some(area) => area.group + 1,
        None => 0,
    }
}

impl Build {
    /// Before any token. Takes no memory.
    pub fn new(alloc: Global) -> Build
        ensures start { result ≡ start_build }
    {
        Build {
            figure: Figure::empty(alloc),
            way: Path::new(alloc),
            shell: None,
            holes: Paths::new(alloc),
            x: None,
            count: 0,
            group: 0,
        }
    }

    /// The areas to come have a group of their own.
    fn begin_group(&mut self)
        requires few { next_group self.old.figure.areas ≤ most_positions }
        ensures done { self.new ≡ with_group self.old }
    {
        self.group = next_group(&self.figure.areas);
    }

    /// Takes a first ordinate.
    fn take_x(&mut self, token: Token) -> Result<(), WktKind>
        ensures done { IfOk result (λ _. act_x self.old token ≡ Ok self.new) }
        ensures fault { IfErr result (λ k. act_x self.old token ≡ Err k) }
    {
        if self.count as usize >= MOST_POSITIONS {
            return Err(WktKind::TooMany);
        }
        let value = place_value(token)?;
        self.x = Some(value);
        self.count += 1;
        Ok(())
    }

    /// The position that this second ordinate ends, where a first is there, which is awaited no more.
    fn end_position(&mut self, y: i64) -> Option<Pt>
        ensures ended { result ≡ option_map (λ x. record { x = x; y = y }) self.old.x }
        ensures done { self.new ≡ record self.old { x = None } }
    {
        self.x.take().map(|x| Pt { x, y })
    }

    /// Takes the second ordinate of a loose point.
    fn take_point(&mut self, token: Token) -> Result<(), Stop>
        ensures done { IfOk result (λ _. act_point self.old token ≡ Ok self.new) }
        ensures stop { IfErr result (λ e. StopsAt e (act_point self.old token)) }
    {
        if let Some(position) = self.end_position(place_value(token)?) {
            self.figure.points.push(position)?;
        }
        Ok(())
    }

    /// Takes the second ordinate of a position on a line or a ring.
    fn take_way(&mut self, token: Token) -> Result<(), Stop>
        ensures done { IfOk result (λ _. act_way self.old token ≡ Ok self.new) }
        ensures stop { IfErr result (λ e. StopsAt e (act_way self.old token)) }
    {
        if let Some(position) = self.end_position(place_value(token)?) {
            self.way.push(position)?;
        }
        Ok(())
    }

    /// Ends a line.
    fn end_line(&mut self, alloc: Global) -> Result<(), Stop>
        ensures done { IfOk result (λ _. end_line self.old ≡ Ok self.new) }
        ensures stop { IfErr result (λ e. StopsAt e (end_line self.old)) }
    {
        check_line(&self.way)?;
        let way = mem::replace(&mut self.way, Path::new(alloc));
        self.figure.lines.push(way)?;
        Ok(())
    }

    /// Ends a shell.
    fn end_shell(&mut self, alloc: Global) -> Result<(), WktKind>
        ensures done { IfOk result (λ _. end_shell self.old ≡ Ok self.new) }
        ensures fault { IfErr result (λ k. end_shell self.old ≡ Err k) }
    {
        check_ring(&self.way)?;
        let way = mem::replace(&mut self.way, Path::new(alloc));
        self.shell = Some(way);
        Ok(())
    }

    /// Ends a hole.
    fn end_hole(&mut self, alloc: Global) -> Result<(), Stop>
        ensures done { IfOk result (λ _. end_hole self.old ≡ Ok self.new) }
        ensures stop { IfErr result (λ e. StopsAt e (end_hole self.old)) }
    {
        check_ring(&self.way)?;
        let way = mem::replace(&mut self.way, Path::new(alloc));
        self.holes.push(way)?;
        Ok(())
    }

    /// Ends a polygon.
    fn end_area(&mut self, alloc: Global) -> Result<(), NoMemory>
        ensures done { IfOk result (λ _. self.new ≡ with_area self.old self.old.shell) }
    {
        if let Some(shell) = self.shell.take() {
            let holes = mem::replace(&mut self.holes, Paths::new(alloc));
            let group = self.group;
            self.figure.areas.push(Area {
                shell,
                holes,
                group,
            })?;
        }
        Ok(())
    }

    /// Takes a token that is there for this.
    ///
    /// # Errors
    /// The fault of the token, or `NoMemory`.
    #[tactic(auto, unfolding(crate::specs::Building::act))]
    pub fn act(&mut self, alloc: Global, role: Role, token: Token) -> Result<(), Stop>
        requires counted { IsCounted self.old }
        ensures done { IfOk result (λ _. act self.old role token ≡ Ok self.new) }
        ensures stop { IfErr result (λ e. StopsAt e (act self.old role token)) }
        ensures memory { IfErr result (λ e. IsWantFor e role) }
    {
        match role {
            Role::Head | Role::Mark => Ok(()),
            Role::Deep => Err(WktKind::Deep.into()),
            Role::Group => {
                self.begin_group();
                Ok(())
            }
            Role::X => Ok(self.take_x(token)?),
            Role::PointY => self.take_point(token),
            Role::WayY => self.take_way(token),
            Role::Demanded | Role::Further => Ok(check_dropped(token)?),
            Role::EndLine => self.end_line(alloc),
            Role::EndShell => Ok(self.end_shell(alloc)?),
            Role::EndHole => self.end_hole(alloc),
            Role::EndArea => Ok(self.end_area(alloc)?),
        }
    }
}
