ghost use Rattle.std.specs.Prelude.{◌≡◌, ◌*◌, ◌<◌, length, IfOk};
ghost use Rattle.point_set.specs.Shape.{IsWayInLimit};
ghost use Rattle.shared_polygon.specs.Places.{share_of, AreKinds, AreKindsByShare};

use plane_exact::{NoMemory, Node, Pt};
use point_set::{DimLoc, Rule, Target};
use relate_prep::Prepared;
use std::alloc::Global;
use std::thread::{Threads, map_indices};

/// How many points a thread answers at most.
pub(crate) const SHARE: usize = 3;

/// What a thread answers on its share.
pub(crate) type ShareKinds = Result<Vec<DimLoc>, NoMemory>;

/// Where the points lie in the prepared figure, share by share. Each share is answered in a thread of its own, where one can be made.
///
/// # Errors
/// `NoMemory`.
pub(crate) fn kinds_by_share<R: Threads + Sync>(
    rt: &R,
    alloc: Global,
    prepared: &Prepared,
    points: &[Pt],
) -> Result<Vec<ShareKinds>, NoMemory>
    requires limit { IsWayInLimit points.now }
    ensures kinds { IfOk result (λ shares. AreKindsByShare prepared.now.figure points.now shares.items) }
{
    let count = points.len().div_ceil(SHARE);
    Ok(map_indices(
        rt,
        alloc,
        count,
        &|place| { share_kinds(alloc, prepared, points, place) },
    )?)
}

/// Where the points of the share at a place lie: what one thread does, by a session of its own.
fn share_kinds(alloc: Global, prepared: &Prepared, points: &[Pt], place: usize) -> ShareKinds
    requires limit { IsWayInLimit points.now }
    requires place { place * 3 < length points.now }
    ensures kinds { IfOk result (λ kinds. AreKinds prepared.now.figure (share_of points.now place) kinds.items) }
{
    let mut session = prepared.session()?;
    let mut kinds = Vec::new(alloc);
    for p in share(points, place) {
        let kind = session.locate(&Node::at_point(*p), Rule::Mod2)?;
        if kinds.push(kind).is_err() {
            return Err(NoMemory);
        }
    }
    Ok(kinds)
}

/// The share at a place, counted from 0.
fn share(points: &[Pt], place: usize) -> &[Pt]
    requires limit { IsWayInLimit points.now }
    requires place { place * 3 < length points.now }
    ensures share { result.now ≡ share_of points.now place }
    ensures limit { IsWayInLimit result.now }
{
    let (_, rest) = points.split_at(place * SHARE);
    let (share, _) = rest.split_at(SHARE.min(rest.len()));
    share
}
