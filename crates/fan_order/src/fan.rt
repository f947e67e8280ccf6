ghost use Rattle.std.specs.Prelude.{◌≡◌, ◌<◌, ◌≤◌, ◌+◌, ◌↔◌, length, IfOk, IsOk, IsTrue, Some, slice_get, All, Contains};
ghost use Rattle.std.specs.List.{AllPairs, AllZip, Any};
ghost use Rattle.std.specs.declared.cmp.Ordering.TheVariants.{Less};
ghost use Rattle.plane_exact.specs.Orders.{direction_of, compare_angles, IsSameDirection};
ghost use Rattle.point_set.specs.Sectors.{IsMiddle, IsInSector, sectors_of};
ghost use Rattle.point_set.specs.Validity.{IsAtPlace};
ghost use Rattle.fan_order.specs.Rays.{IsShort, IsRayOf, AreRaysOf};
ghost use Rattle.fan_order.specs.Passes.{IsRound};
ghost use Rattle.fan_order.specs.Sections.{IsLineAlong, IsSectorInside, AreHandsAlike, AreSided};
ghost use Rattle.plane_exact.specs.declared.dir.Dir.{Dir};

use crate::lowest::lowest;
use crate::middle::middle_between;
use crate::ray::Ray;
use crate::section::{Section, SectionList};
use crate::walk::Walk;
use im_matrix::Which;
use plane_exact::{Dir, NoMemory};
use smallvec::SmallVec;
use std::alloc::Global;
use std::marker::Model;

/// The sections at a node with the rays along which they lie. Up to 8 stand in place.
#[derive(Debug, Drop)]
pub struct Fan {
    rays: SmallVec<Ray, 8>,
    sections: SmallVec<Section, 8>,
    a: Walk,
    b: Walk,
}

impl Model for Fan {
    ghost use Rattle.fan_order.specs.Fans.{SeenFan, IsWalkedFan};

    ghost Value = { SeenFan };

    ghost view = { λ f. record { rays = f.rays.items; sections = f.sections.items } };

    ghost invariant = { λ f. IsWalkedFan (record { rays = f.rays.items; sections = f.sections.items }) f.a f.b };
}

impl Fan {
    /// The fan of the given sections: their distinct directions in lowest terms and in the order of their angles, and the
    /// sections themselves. At most 8 sections take no memory.
    ///
    /// # Errors
    /// `NoMemory`.
    pub fn gather(alloc: Global, sections: &SectionList) -> Result<Fan, NoMemory>
        requires short { All (λ s. IsShort s.dir) sections.now }
        ensures sections { IfOk result (λ fan. fan.sections ≡ sections.now) }
        ensures rays { IfOk result (λ fan. AreRaysOf sections.now fan.rays) }
        ensures room { length sections.now ≤ 8 → IsOk result }
    {
        let mut rays = rays_of(alloc, sections.as_slice())?;
        sort_rays(&mut rays);
        let a = Walk::round(alloc, sections.as_slice(), rays.as_slice(), Which::A)?;
        let b = Walk::round(alloc, sections.as_slice(), rays.as_slice(), Which::B)?;
        let sections = SmallVec::from_slice(alloc, sections.as_slice())?;
        Ok(Fan {
            rays,
            sections,
            a,
            b,
        })
    }

    /// How many rays there are.
    pub fn rays(&self) -> usize
        ensures length { result ≡ length self.now.rays }
        ensures rays { AreRaysOf self.now.sections self.now.rays }
    {
        self.rays.len()
    }

    /// The ray at a place, counted from 0 in the order of angles from the positive x direction.
    pub fn ray(&self, i: usize) -> Dir
        requires place { i < length self.now.rays }
        ensures ray { slice_get self.now.rays i ≡ Some result }
    {
        let ray = self.rays[i];
        ray.dir
    }

    /// All sections in the order in which they were given.
    pub fn sections(&self) -> &[Section]
        ensures sections { result.now ≡ self.now.sections }
    {
        self.sections.as_slice()
    }

    /// How many sectors there are: one after each ray, and one of all directions where there is no ray.
    pub fn sectors(&self) -> usize
        ensures sectors { result ≡ sectors_of self.now.rays }
    {
        self.rays.len().max(1)
    }

    /// The middle of the sector that lies counter-clockwise after ray `i`: a direction strictly within it.
    pub fn middle(&self, i: usize) -> Dir
        requires place { i < sectors_of self.now.rays }
        ensures middle { IsMiddle self.now.rays i (direction_of result) }
        ensures within { IsInSector self.now.rays i (direction_of result) }
    {
        let count = self.rays.len();
        if count == 0 {
            return Dir { dx: 1, dy: 0 };
        }
        let ray = self.rays[i];
        let next = self.rays[(i + 1) % count];
        middle_between(ray.dir, next.dir)
    }

    /// Whether the sector that lies counter-clockwise after ray `i` is inside an area of a figure, by the hands of its
    /// sections. Where there is no ray it isn't.
    pub fn is_inside(&self, which: Which, i: usize) -> bool
        requires place { i < sectors_of self.now.rays }
        ensures inside { AreHandsAlike which self.now.sections → AreSided which self.now.sections
            → (IsTrue result ↔ IsSectorInside which self.now.sections self.now.rays i) }
    {
        if self.rays.is_empty() {
            return false;
        }
        self.walk(which).inside[self.rays.len() + i]
    }

    /// Whether a line of a figure runs along ray `i`.
    pub fn has_line(&self, which: Which, i: usize) -> bool
        requires place { i < length self.now.rays }
        ensures line { (ray : Dir) → IsAtPlace self.now.rays i ray → (IsTrue result ↔ IsLineAlong which self.now.sections ray) }
    {
        self.walk(which).lines[i]
    }

    /// What was found of a figure.
    fn walk(&self, which: Which) -> &Walk
        ensures round { IsRound which self.now.sections self.now.rays result.now }
    {
        match which {
            Which::A => &self.a,
            Which::B => &self.b,
        }
    }
}

/// The ray of each section, in the order of the sections.
fn rays_of(alloc: Global, sections: &[Section]) -> Result<SmallVec<Ray, 8>, NoMemory>
    requires short { All (λ s. IsShort s.dir) sections.now }
    ensures rays { IfOk result (λ rays. AllZip (λ s ray. IsRayOf s.dir ray) sections.now rays.items) }
    ensures short { IfOk result (λ rays. All IsShort rays.items) }
    ensures room { length sections.now ≤ 8 → IsOk result }
{
    let mut rays = SmallVec::new(alloc);
    rays.reserve(sections.len())?;
    for section in sections {
        rays.push_reserved(Ray {
            dir: lowest(section.dir),
        });
    }
    Ok(rays)
}

/// Puts rays into the order of their angles, and keeps one of each direction.
fn sort_rays(rays: &mut SmallVec<Ray, 8>)
    ensures ascending { AllPairs (λ d e. compare_angles d e ≡ Less) rays.new.items }
    ensures only { All (Contains rays.old.items) rays.new.items }
    ensures whole { All (λ d. Any (IsSameDirection d) rays.new.items) rays.old.items }
    ensures few { length rays.new.items ≤ length rays.old.items }
{
    rays.sort_unstable();
    rays.dedup();
}
