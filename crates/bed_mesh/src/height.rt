//! The height of a bed at a place.

ghost use Rattle.std.specs.Prelude.{◌≡◌, ◌+◌, ◌-◌, ◌*◌, ◌<◌, ◌≤◌, ◌^◌, pos, ◌*ℤ◌, ◌+ℤ◌, ◌-ℤ◌, unsigned_abs, length};
ghost use Rattle.bed_mesh.specs.Grids as specs;
ghost use Rattle.bed_mesh.specs.Grids.{IsValidGrid, IsValidMesh, blend, cell, corner, extent, height, offset};
ghost use Rattle.bed_mesh.specs.Corners.{AreLow};

use crate::mesh::{Grid, Mesh};
use crate::part::{part_of, weighted};

/// A place in a grid: the number of its cell, and how far it is behind the cell's first line.
#[derive(Clone, Copy)]
struct Spot {
    cell: u64,
    within: u64,
}

/// How far a place is behind the first line, brought within the grid.
fn offset(grid: &Grid, place: i64) -> u64
    requires valid { IsValidGrid grid.now }
    requires near { unsigned_abs place ≤ 2 ^ 40 }
    ensures { result ≡ offset grid.now place }
{
    let behind = place - grid.from;
    let last = grid.step * (grid.count - 1);
    if behind < 0 {
        return 0;
    }
    (behind as u64).min(last)
}

/// The cell of a place.
fn spot_of(grid: &Grid, place: i64) -> Spot
    requires valid { IsValidGrid grid.now }
    requires near { unsigned_abs place ≤ 2 ^ 40 }
    ensures cell { result.cell ≡ cell grid.now (offset grid.now place) }
    ensures within { result.within ≡ offset grid.now place - cell grid.now (offset grid.now place) * grid.now.step }
    ensures there { result.cell + 1 < grid.now.count }
    ensures inside { result.within ≤ grid.now.step }
{
    let behind = offset(grid, place);
    let cell = (behind / grid.step).min(grid.count - 2);
    Spot {
        cell,
        within: behind - cell * grid.step,
    }
}

/// The sum of two weighted heights.
fn sum(one: i128, two: i128, whole: u64) -> i128
    requires one { unsigned_abs one ≤ 10_000_000 * whole }
    requires two { unsigned_abs two ≤ 10_000_000 * whole }
    requires small { whole ≤ 2 ^ 58 }
    ensures value { result ≡ one +ℤ two }
    ensures bound { unsigned_abs result ≤ unsigned_abs one + unsigned_abs two }
{
    one + two
}

/// The area of a part of a cell, and of the whole.
fn area(length: u64, width: u64, whole_length: u64, whole_width: u64) -> u64
    requires length { length ≤ whole_length }
    requires width { width ≤ whole_width }
    requires length_small { whole_length ≤ 500_000_000 }
    requires width_small { whole_width ≤ 500_000_000 }
    ensures value { result ≡ length * width }
    ensures part { result ≤ whole_length * whole_width }
    ensures small { result ≤ 2 ^ 58 }
{
    length * width
}

/// The heights of two corners along x, each weighted with the area opposite to it, which has this width.
fn row(dx: u64, dy: u64, left: i64, right: i64, u: u64, width: u64) -> i128
    requires length { dx ≤ 500_000_000 }
    requires width { dy ≤ 500_000_000 }
    requires right { u ≤ dx }
    requires part { width ≤ dy }
    requires left_low { unsigned_abs left ≤ 5_000_000 }
    requires right_low { unsigned_abs right ≤ 5_000_000 }
    ensures value { result ≡ (left *ℤ pos ((dx - u) * width)) +ℤ (right *ℤ pos (u * width)) }
    ensures bound { unsigned_abs result ≤ 10_000_000 * (dx * dy) }
{
    let whole = area(dx, dy, dx, dy);
    sum(
        weighted(left, area(dx - u, width, dx, dy), whole),
        weighted(right, area(u, width, dx, dy), whole),
        whole,
    )
}

/// The heights of a cell's corners: at its first lines, at the second of x, at the second of y, and at both.
#[derive(Clone, Copy)]
struct Corners {
    first: i64,
    right: i64,
    above: i64,
    across: i64,
}

/// The height in a cell of these lengths, at distances from its lower corner.
fn blend(dx: u64, dy: u64, corners: &Corners, u: u64, w: u64) -> i64
    requires length { dx ≤ 500_000_000 }
    requires width { dy ≤ 500_000_000 }
    requires long { 0 < dx }
    requires wide { 0 < dy }
    requires right { u ≤ dx }
    requires above { w ≤ dy }
    requires low { AreLow corners.now }
    ensures value { result ≡ blend dx dy corners.now.first corners.now.right corners.now.above corners.now.across u w }
    ensures low { unsigned_abs result ≤ 20_000_000 }
{
    let near = row(dx, dy, corners.first, corners.right, u, dy - w);
    let far = row(dx, dy, corners.above, corners.across, u, w);
    let whole = area(dx, dy, dx, dy);
    part_of(sum(near, far, whole), whole, 20_000_000)
}

/// The measured height where two lines meet.
fn corner(mesh: &Mesh, i: u64, j: u64) -> i64
    requires valid { IsValidMesh mesh.now }
    requires i { i < mesh.now.x.count }
    requires j { j < mesh.now.y.count }
    ensures value { result ≡ corner mesh.now i j }
    ensures low { unsigned_abs result ≤ 5_000_000 }
{
    mesh.heights.as_slice()[(j * mesh.x.count + i) as usize]
}

impl Mesh {
    /// The height of the bed at a place, in nm. Beyond the grid it is that at the nearest place within.
    /// Inside a cell it is the mean of its corners, weighted with the areas opposite to them and rounded
    /// down.
    pub fn height(&self, x: i64, y: i64) -> i64
        requires valid { IsValidMesh self.now }
        requires x { unsigned_abs x ≤ 2 ^ 40 }
        requires y { unsigned_abs y ≤ 2 ^ 40 }
        ensures value { result ≡ height self.now x y }
        ensures low { unsigned_abs result ≤ 20_000_000 }
    {
        let across = spot_of(&self.x, x);
        let along = spot_of(&self.y, y);
        let corners = Corners {
            first: corner(self, across.cell, along.cell),
            right: corner(self, across.cell + 1, along.cell),
            above: corner(self, across.cell, along.cell + 1),
            across: corner(self, across.cell + 1, along.cell + 1),
        };
        blend(
            self.x.step,
            self.y.step,
            &corners,
            across.within,
            along.within,
        )
    }
}
