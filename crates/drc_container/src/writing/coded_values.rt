//! The values of attributes from the points of a geometry.

ghost use Rattle.std.specs.Prelude.{◌≡◌, ◌+◌, ◌++◌, ◌≤◌, ℤ, List, take, drop, length, IfOk, vec_len, vec_capacity};
ghost use Rattle.std.specs.List.{flat_map};
ghost use Rattle.attr_heads.specs.Head.{width_of};
ghost use Rattle.mesh_model.specs.Contents.{heads_in, points_in};
ghost use Rattle.drc_container.specs.choice.Predicts.{asked};
ghost use Rattle.drc_container.specs.writing.Written.{values_of};

use crate::choice::predicts::{Predict, asked};
use attr_heads::Head;
use attr_section::Values;
use drc_base::{Memory, Sequence};
use mesh_model::GeometryView;
use std::alloc::Global;

/// The coded values of each attribute, with the prediction that is asked of it: its integers, point after point.
pub fn values_of(
    alloc: Global,
    g: &GeometryView<'_>,
    predict: Predict,
) -> Result<Vec<Values>, Memory>
    ensures { IfOk result (λ v. v.items ≡ values_of g.now predict) }
{
    let mut values = Vec::new(alloc);
    let mut start: usize = 0;
    for head in g.heads() {
        let comps = head.comps as usize;
        let column = column_of(alloc, g, start, comps)?;
        values.push(values_asked(predict, head, column))?;
        start += comps;
    }
    Ok(values)
}

/// The coded values of an attribute with this head, with the prediction that is asked of it, from its integers.
pub fn values_asked(predict: Predict, head: &Head, column: Vec<i32>) -> Values
    ensures { result ≡ record { values = column.items; predict = asked predict head.now; at = 0 } }
{
    Values {
        values: Sequence::from_vec(column),
        predict: asked(predict, head),
        at: 0,
    }
}

/// The `comps` integers of each point from integer `start` on, point after point.
fn column_of(
    alloc: Global,
    g: &GeometryView<'_>,
    start: usize,
    comps: usize,
) -> Result<Vec<i32>, Memory>
    requires { start + comps ≤ width_of (heads_in g.now) }
    ensures { IfOk result (λ v. v.items ≡ flat_map (λ (row : List ℤ). take comps (drop start row)) (points_in g.now)) }
{
    let count = g.point_count();
    let mut column = Vec::with_capacity(alloc, count as usize * comps)?;
    for i in 0..count {
        let row = g.point(i);
        put_piece(&mut column, &row[start..start + comps]);
    }
    Ok(column)
}

/// Appends integers, where there is room.
#[inline(always)]
pub fn put_piece(column: &mut Vec<i32>, piece: &[i32])
    requires room { vec_len column.old + length piece.now ≤ vec_capacity column.old }
    ensures items { column.new.items ≡ column.old.items ++ piece.now }
    ensures len { vec_len column.new ≡ vec_len column.old + length piece.now }
    ensures capacity { vec_capacity column.new ≡ vec_capacity column.old }
{
    for x in piece {
        column.push_reserved(*x);
    }
}
