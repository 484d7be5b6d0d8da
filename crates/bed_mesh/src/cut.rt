//! Moves cut at the lines of a mesh.

ghost use Rattle.std.specs.Prelude.{◌≡◌, ◌+◌, ◌*◌, ◌++◌, ◌<◌, ◌≤◌, ◌^◌, ◌+ℤ◌, ◌-ℤ◌, ◌*ℤ◌, pos, All, IfOk, IfSome, Some, length, slice_index_or, unsigned_abs};
ghost use Rattle.std.specs.Int.{int_div_euclid};
ghost use Rattle.plan_types.specs.Moves.{change};
ghost use Rattle.plan_types.specs.Valid.{IsValidMove};
ghost use Rattle.bed_mesh.specs.Cuts as specs;
ghost use Rattle.bed_mesh.specs.Cuts.{IsOnTheWay, breadth, crossings, part_count, place_behind, scaled};
ghost use Rattle.bed_mesh.specs.Grids.{IsValidGrid, IsValidMesh, extent};
ghost use Rattle.bed_mesh.specs.Lines.{AreAhead, AreCuts, IsFirstNumber, cut_numbers, first_number, least, numbers, passed};

use crate::mesh::{Grid, Mesh};
use crate::part::{part_of, weighted};
use plan_types::Move;
use std::alloc::{AllocError, Global};

/// The lines of a grid that a move has still to come to: how far the next one is from the move's start, how
/// far one line is behind the other, how many there are, how far the move goes, and how many parts of the
/// move lie in a nanometre.
#[derive(Clone, Copy)]
struct Ahead {
    next: u64,
    step: u64,
    left: u64,
    span: u64,
    parts: u64,
}

/// The last line of a grid.
fn last_line(grid: &Grid) -> i64
    requires { IsValidGrid grid.now }
    ensures value { result ≡ grid.now.from +ℤ pos (extent grid.now) }
    ensures near { unsigned_abs result ≤ 2 ^ 36 }
{
    let extent = grid.step * (grid.count - 1);
    grid.from + extent as i64
}

/// How far one place is above another.
fn above(place: i64, other: i64) -> i64
    requires place { unsigned_abs place ≤ 2 ^ 60 }
    requires other { unsigned_abs other ≤ 2 ^ 60 }
    ensures value { result ≡ place -ℤ other }
    ensures near { unsigned_abs result ≤ 2 ^ 61 }
{
    place - other
}

/// How far the first line that a move up or down an axis may come to is from its start; below 0 behind it.
fn first_distance(grid: &Grid, start: i64, end: i64) -> i64
    requires valid { IsValidGrid grid.now }
    requires start { unsigned_abs start ≤ 2 ^ 60 }
    ensures value { specs.distances grid.now start end ≡ specs.rungs result grid.now.step grid.now.count }
    ensures near { unsigned_abs result ≤ 2 ^ 61 }
{
    if end < start {
        above(start, last_line(grid))
    } else {
        above(grid.from, start)
    }
}

/// The lines of a grid that are ahead of a move's start.
fn lines_ahead(grid: &Grid, start: i64, end: i64, parts: u64) -> Ahead
    requires valid { IsValidGrid grid.now }
    requires start { unsigned_abs start ≤ 2 ^ 60 }
    requires end { unsigned_abs end ≤ 2 ^ 60 }
    requires change { unsigned_abs (end -ℤ start) ≤ 1_500_000_000 }
    requires some { 0 < parts }
    requires few { parts ≤ 1_500_000_000 }
    ensures numbers { numbers result ≡ scaled parts (crossings grid.now start end) }
    ensures ahead { AreAhead result }
    ensures span { result.span ≡ unsigned_abs (end -ℤ start) }
    ensures parts { result.parts ≡ parts }
    ensures few { result.left ≤ grid.now.count }
{
    let first = first_distance(grid, start, end);
    let span = end.abs_diff(start);
    let step = grid.step;
    let size = first.unsigned_abs();
    if first > 0 {
        return Ahead {
            next: size,
            step,
            left: grid.count,
            span,
            parts,
        };
    }
    Ahead {
        next: step - size % step,
        step,
        left: grid.count.saturating_sub(size / step + 1),
        span,
        parts,
    }
}

/// The number of parts behind which a move crosses the next line, if it comes to one.
fn next_number(lines: &Ahead) -> Option<u64>
    requires { AreAhead lines.now }
    ensures first { result ≡ first_number (numbers lines.now) }
    ensures inside { IfSome result (λ n. n ≤ lines.now.span * lines.now.parts) }
{
    if lines.left > 0 && lines.next < lines.span {
        Some(lines.next * lines.parts)
    } else {
        None
    }
}

/// Goes past the next line, where a move crosses it behind so many parts.
fn pass(lines: &mut Ahead, next: Option<u64>, number: u64)
    requires ahead { AreAhead lines.old }
    requires next { next ≡ first_number (numbers lines.old) }
    ensures numbers { numbers lines.new ≡ passed number (numbers lines.old) }
    ensures ahead { AreAhead lines.new }
    ensures span { lines.new.span ≡ lines.old.span }
    ensures parts { lines.new.parts ≡ lines.old.parts }
    ensures fewer { lines.new.left ≤ lines.old.left }
    ensures one { next ≡ Some number → lines.new.left < lines.old.left }
{
    if let Some(first) = next {
        if first == number {
            lines.next += lines.step;
            lines.left -= 1;
        }
    }
}

/// The lesser of two numbers, or the one that there is.
fn least(x: Option<u64>, y: Option<u64>) -> Option<u64>
    ensures { result ≡ least x y }
{
    match (x, y) {
        (None, other) => other,
        (Some(n), None) => Some(n),
        (Some(n), Some(k)) => Some(n.min(k)),
    }
}

/// The lines of x and y that a move has still to come to, and how many parts the whole move has.
#[derive(Clone, Copy)]
struct Cuts {
    x: Ahead,
    y: Ahead,
    whole: u64,
}

/// Goes on to the next cut. Answers behind how many parts of the move it is.
fn next_cut(cuts: &mut Cuts) -> Option<u64>
    requires { AreCuts cuts.old }
    ensures first { IsFirstNumber result (cut_numbers cuts.old) (cut_numbers cuts.new) }
    ensures valid { AreCuts cuts.new }
    ensures inside { IfSome result (λ n. n ≤ cuts.old.whole) }
    ensures whole { cuts.new.whole ≡ cuts.old.whole }
    ensures fewer { IfSome result (λ n. cuts.new.x.left + cuts.new.y.left < cuts.old.x.left + cuts.old.y.left) }
{
    let x = next_number(&cuts.x);
    let y = next_number(&cuts.y);
    let number = least(x, y)?;
    pass(&mut cuts.x, x, number);
    pass(&mut cuts.y, y, number);
    Some(number)
}

/// Where a coordinate is behind so many parts of its way.
fn part_way(start: i64, end: i64, number: u64, whole: u64) -> i64
    requires start { unsigned_abs start ≤ 2 ^ 60 }
    requires end { unsigned_abs end ≤ 2 ^ 60 }
    requires change { unsigned_abs (end -ℤ start) ≤ 1_500_000_000 }
    requires part { number ≤ whole }
    requires few { whole ≤ 2 ^ 62 }
    requires some { 0 < whole }
    ensures value { result ≡ start +ℤ int_div_euclid ((end -ℤ start) *ℤ pos number) (pos whole) }
    ensures near { unsigned_abs (result -ℤ start) ≤ unsigned_abs (end -ℤ start) }
{
    let change = above(end, start);
    let part = part_of(
        weighted(change, number, whole),
        whole,
        change.unsigned_abs(),
    );
    start + part
}

/// A coordinate behind so many parts of a move.
fn coordinate_behind(m: &Move, axis: usize, number: u64, whole: u64) -> i64
    requires valid { IsValidMove m.now }
    requires axis { axis < 4 }
    requires whole { whole ≡ part_count m.now }
    requires part { number ≤ whole }
    requires few { whole ≤ 2 ^ 62 }
    requires some { 0 < whole }
    ensures value { result ≡ specs.coordinate_behind m.now number axis }
    ensures near { unsigned_abs (result -ℤ slice_index_or m.now.from axis (pos 0)) ≤ unsigned_abs (change m.now axis) }
{
    let start = m.from[axis];
    let end = m.to[axis];
    part_way(start, end, number, whole)
}

/// Where a move is behind so many of its parts.
#[tactic(auto, unfolding(crate::specs::Cuts::place_behind))]
fn place_behind(m: &Move, number: u64, whole: u64) -> [i64; 4]
    requires valid { IsValidMove m.now }
    requires whole { whole ≡ part_count m.now }
    requires part { number ≤ whole }
    requires few { whole ≤ 2 ^ 62 }
    requires some { 0 < whole }
    ensures value { result ≡ place_behind m.now number }
    ensures near { IsOnTheWay m.now result }
{
    let x = coordinate_behind(m, 0, number, whole);
    let y = coordinate_behind(m, 1, number, whole);
    let z = coordinate_behind(m, 2, number, whole);
    let e = coordinate_behind(m, 3, number, whole);
    [x, y, z, e]
}

/// How far a move goes along an axis; 1 where it goes nowhere.
#[tactic(auto, using(crate::proofs::Ways::change_near))]
fn breadth(m: &Move, axis: usize) -> u64
    requires valid { IsValidMove m.now }
    requires axis { axis < 2 }
    ensures value { result ≡ breadth m.now axis }
    ensures some { 0 < result }
    ensures small { result ≤ 1_500_000_000 }
{
    let start = m.from[axis];
    let end = m.to[axis];
    end.abs_diff(start).max(1)
}

/// The lines of a grid that are ahead of a move along an axis.
fn ahead_of(grid: &Grid, m: &Move, axis: usize, parts: u64) -> Ahead
    requires grid { IsValidGrid grid.now }
    requires valid { IsValidMove m.now }
    requires axis { axis < 2 }
    requires some { 0 < parts }
    requires few { parts ≤ 1_500_000_000 }
    ensures numbers { numbers result
        ≡ scaled parts
        (crossings grid.now (slice_index_or m.now.from axis (pos 0)) (slice_index_or m.now.to axis (pos 0))) }
    ensures ahead { AreAhead result }
    ensures span { result.span ≤ breadth m.now axis }
    ensures parts { result.parts ≡ parts }
    ensures few { result.left ≤ grid.now.count }
{
    let start = m.from[axis];
    let end = m.to[axis];
    lines_ahead(grid, start, end, parts)
}

/// The cuts of a move.
#[tactic(auto, unfolding(crate::specs::Cuts::cut_parts))]
fn cuts_of(mesh: &Mesh, m: &Move) -> Cuts
    requires mesh { IsValidMesh mesh.now }
    requires valid { IsValidMove m.now }
    ensures numbers { cut_numbers result ≡ specs.cut_parts mesh.now m.now }
    ensures valid { AreCuts result }
    ensures whole { result.whole ≡ part_count m.now }
    ensures part { result.whole ≤ 2 ^ 62 }
    ensures some { 0 < result.whole }
    ensures few { result.x.left + result.y.left ≤ 128 }
{
    let across = breadth(m, 0);
    let along = breadth(m, 1);
    Cuts {
        x: ahead_of(&mesh.x, m, 0, along),
        y: ahead_of(&mesh.y, m, 1, across),
        whole: product(across, along),
    }
}

/// The number of parts of a whole move.
fn product(across: u64, along: u64) -> u64
    requires across { across ≤ 1_500_000_000 }
    requires along { along ≤ 1_500_000_000 }
    requires some { 0 < across }
    requires more { 0 < along }
    ensures value { result ≡ across * along }
    ensures some { 0 < result }
    ensures few { result ≤ 2 ^ 62 }
{
    across * along
}

impl Mesh {
    /// The ends of a move that is cut at each line of the grids strictly between its ends: its cuts in order,
    /// each once, and then its target. At a cut each coordinate is its part of the way, rounded down; on a
    /// line it is exactly the line's.
    ///
    /// # Errors
    ///
    /// Where memory is wanted.
    #[tactic(auto, unfolding(crate::specs::Cuts::cut_ends))]
    pub fn cut(&self, alloc: Global, m: &Move) -> Result<Vec<[i64; 4]>, AllocError>
        requires mesh { IsValidMesh self.now }
        requires valid { IsValidMove m.now }
        ensures ends { IfOk result (λ ends. ends.items ≡ specs.cut_ends self.now m.now) }
        ensures near { IfOk result (λ ends. All (IsOnTheWay m.now) ends.items) }
        ensures few { IfOk result (λ ends. length ends.items ≤ 129) }
    {
        let mut ends = Vec::new(alloc);
        let mut cuts = cuts_of(self, m);
        let whole = cuts.whole;
        while let Some(number) = next_cut(&mut cuts) {
            ends.push(place_behind(m, number, whole))?;
        }
        ends.push(m.to)?;
        Ok(ends)
    }
}
