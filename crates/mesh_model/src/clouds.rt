//! Point clouds.

use crate::geometry_rules::{RowShape, test_cloud};
use crate::geometry_views::GeometryView;
use crate::row_rules::stored_row;
use attr_heads::{Head, copies_of};
use drc_base::{Memory, Refusal};
use std::alloc::Global;
use std::marker::Model;

/// A point cloud: heads and points, within the limits. Contracts see its points as rows, one integer
/// for each component of each head, in order.
#[derive(Debug, Drop)]
pub struct Cloud {
    heads: Vec<Head>,
    cells: Vec<i32>,
    width: u32,
    count: u32,
}

impl Model for Cloud {
    ghost use Rattle.mesh_model.specs.Parts.{CloudParts, IsCloud, rows_of};
    ghost use Rattle.mesh_model.specs.Stored.{AreStored};

    ghost Value = { CloudParts };

    ghost view = { λ c. record { heads = c.heads.items; points = rows_of c.width c.cells.items } };

    ghost invariant = { λ c.
        AreStored c.heads.items c.cells.items c.width c.count
        × IsCloud (record { heads = c.heads.items; points = rows_of c.width c.cells.items }) };
}

impl Cloud {
    ghost use Rattle.std.specs.Prelude.{◌≡◌, ◌<◌, ◌≤◌, [], IfOk, IsTrue, None, length, slice_index_or};
    ghost use Rattle.mesh_model.specs.declared.geometries.Geometry.TheVariants as geometry;
    ghost use Rattle.attr_heads.specs.FirstFault.{answer_of};
    ghost use Rattle.attr_heads.specs.Head.{width_of};
    ghost use Rattle.mesh_model.specs.Parts.{AreRows, IsCloud, cells_of, cloud_of, range_fault, rows_of};
    ghost use Rattle.mesh_model.specs.Stored.{AreStored};

    /// The cloud of these heads and points (row after row). It takes no memory. Refusals, the first
    /// that applies: NoAttribute and AttrLimit at the number of heads; AttrType, DataType (also where
    /// `dtype` is 9 without exactly one of a quantisation and a square), Components (also where a square
    /// hasn't two) and QuantBits (of a quantisation 1 to 30, of a square 2 to 30) at the number of the
    /// first head that has one; PointLimit at the number of points, ValueLimit at points times width;
    /// ValueRange at the first integer of `points` outside its data type or, of a square of `bits` bits,
    /// outside 0 to 2^bits - 2.
    pub fn new(heads: Vec<Head>, points: Vec<i32>) -> Result<Cloud, Refusal>
        requires { AreRows heads.items points.items }
        ensures { result ≡ answer_of (cloud_of heads.items points.items) }
    {
        Cloud::tested(heads, points, false)
    }

    /// The cloud that `new` gives, or its refusal, where each integer is known to be in its data type or
    /// square: none of them is looked at. It takes no memory.
    pub fn of_typed(heads: Vec<Head>, points: Vec<i32>) -> Result<Cloud, Refusal>
        requires rows { AreRows heads.items points.items }
        requires typed { range_fault heads.items points.items ≡ None }
        ensures { result ≡ answer_of (cloud_of heads.items points.items) }
    {
        Cloud::tested(heads, points, true)
    }

    /// The cloud or its first refusal; where its integers are known to be typed, they aren't tested.
    fn tested(heads: Vec<Head>, points: Vec<i32>, typed: bool) -> Result<Cloud, Refusal>
        requires rows { AreRows heads.items points.items }
        requires typed { IsTrue typed → range_fault heads.items points.items ≡ None }
        ensures { result ≡ answer_of (cloud_of heads.items points.items) }
    {
        let RowShape { width, count } = test_cloud(heads.as_slice(), points.as_slice(), typed)?;
        Ok(Cloud {
            heads,
            cells: points,
            width,
            count,
        })
    }

    /// The cloud of these heads and rows, which are known to be one.
    pub(crate) fn from_rows(heads: Vec<Head>, cells: Vec<i32>, width: u32, count: u32) -> Cloud
        requires stored { AreStored heads.items cells.items width count }
        requires sound { IsCloud (record { heads = heads.items; points = rows_of width cells.items }) }
        ensures { result ≡ record { heads = heads.items; points = rows_of width cells.items } }
    {
        Cloud {
            heads,
            cells,
            width,
            count,
        }
    }

    /// The cloud of these heads and rows, which are known to be one, and are copied.
    pub(crate) fn copied_from(
        alloc: Global,
        heads: &[Head],
        cells: &[i32],
        width: u32,
        count: u32,
    ) -> Result<Cloud, Memory>
        requires stored { AreStored heads.now cells.now width count }
        requires sound { IsCloud (record { heads = heads.now; points = rows_of width cells.now }) }
        ensures { IfOk result (λ c. c ≡ record { heads = heads.now; points = rows_of width cells.now }) }
    {
        let heads = copies_of(alloc, heads)?;
        let cells = Vec::from_slice(alloc, cells)?;
        Ok(Cloud::from_rows(heads, cells, width, count))
    }

    /// The cloud, lent. It takes no memory.
    pub fn view(&self) -> GeometryView<'_>
        ensures { result ≡ geometry.Cloud self.now }
    {
        GeometryView::from_rows(
            self.heads.as_slice(),
            self.cells.as_slice(),
            None,
            self.width,
            self.count,
        )
    }

    /// The heads of its attributes.
    pub fn heads(&self) -> &[Head]
        ensures value { result.now ≡ self.now.heads }
        ensures sound { IsCloud self.now }
    {
        self.heads.as_slice()
    }

    /// How many integers a point has: the sum of the components, 1 to 128.
    pub fn width(&self) -> u32
        ensures value { result ≡ width_of self.now.heads }
        ensures bounds { (0 < result) × (result ≤ 128) }
    {
        self.width
    }

    /// How many points there are.
    pub fn point_count(&self) -> u32
        ensures value { result ≡ length self.now.points }
        ensures sound { IsCloud self.now }
    {
        self.count
    }

    /// The integers of all points, row after row.
    #[tactic(auto, using(crate::proofs::Rows::cells_back))]
    pub fn cells(&self) -> &[i32]
        ensures value { result.now ≡ cells_of self.now.points }
        ensures sound { IsCloud self.now }
    {
        self.cells.as_slice()
    }

    /// Its heads and the integers of all points, row after row, as they are held.
    #[tactic(auto, using(crate::proofs::Rows::cells_back))]
    pub fn into_parts(self) -> (Vec<Head>, Vec<i32>)
        ensures heads { result.0.items ≡ self.heads }
        ensures cells { result.1.items ≡ cells_of self.points }
    {
        (self.heads, self.cells)
    }

    /// The integers of point `i`.
    pub fn point(&self, i: u32) -> &[i32]
        requires { i < length self.now.points }
        ensures row { result.now ≡ slice_index_or self.now.points i [] }
        ensures len { length result.now ≡ width_of self.now.heads }
    {
        stored_row(self.cells.as_slice(), self.width, self.count, i)
    }
}
