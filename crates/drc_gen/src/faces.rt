//! The faces of generated meshes: the walk goes over n * n cells, cell k is (k mod n, k div n).

ghost use Rattle.std.specs.Prelude.{◌≡◌, ◌+◌, ◌*◌, ◌^◌, ◌<◌, ◌++◌, ◌∷◌, [], IfOk, OnOk};
ghost use Rattle.drc_gen.specs.Generated.{triangles, cell_faces, is_hole, faces_but_holes, fan_face, patch_faces, generated_faces};
ghost use Rattle.drc_gen.specs.GeneratedLaws.{IsSize};
ghost use Rattle.drc_gen.specs.Lattice.{pair_number, closed_number_of, pair_at};
ghost use Rattle.drc_gen.specs.Turns.{lattice_faces};

use crate::kinds::GenKind;
use drc_base::Memory;
use std::alloc::Global;

/// Appends the two faces of a cell with these corners.
fn put_triangles(faces: &mut Vec<[u32; 3]>, a: u32, b: u32, c: u32, d: u32) -> Result<(), Memory>
    ensures { OnOk result (faces.new.items ≡ faces.old.items ++ triangles a b c d) }
{
    faces.push([a, b, d])?;
    faces.push([a, d, c])?;
    Ok(())
}

/// The number of point (i, j) where `side` points stand in a row.
fn point_number(side: u32, i: u32, j: u32) -> u32
    requires { (side < 1024) × (i < 1024) × (j < 1024) }
    ensures { result ≡ pair_number side (i, j) }
{
    j * side + i
}

/// Appends the faces of cell (i, j) of a grid of `size` cells each way.
fn put_cell(faces: &mut Vec<[u32; 3]>, size: u32, i: u32, j: u32) -> Result<(), Memory>
    requires { (size < 1000) × (i < 1000) × (j < 1000) }
    ensures { OnOk result (faces.new.items ≡ faces.old.items ++ cell_faces (pair_number (size + 1)) (i, j)) }
{
    let side = size + 1;
    put_triangles(
        faces,
        point_number(side, i, j),
        point_number(side, i + 1, j),
        point_number(side, i, j + 1),
        point_number(side, i + 1, j + 1),
    )
}

/// Appends the faces of cell (i, j) of a torus.
fn put_closed_cell(faces: &mut Vec<[u32; 3]>, size: u32, i: u32, j: u32) -> Result<(), Memory>
    requires size { (0 < size) × (size < 1000) }
    requires cell { (i < 1000) × (j < 1000) }
    ensures { OnOk result (faces.new.items ≡ faces.old.items ++ cell_faces (closed_number_of size) (i, j)) }
{
    let (left, right) = (i % size, (i + 1) % size);
    let (low, high) = (j % size, (j + 1) % size);
    put_triangles(
        faces,
        point_number(size, left, low),
        point_number(size, right, low),
        point_number(size, left, high),
        point_number(size, right, high),
    )
}

/// Whether cell (i, j) is left out.
fn is_hole(size: u32, i: u32, j: u32) -> bool
    requires { 0 < size }
    ensures { result ≡ is_hole size (i, j) }
{
    let last = size - 1;
    i % 2 == 1 && j % 2 == 1 && i < last && j < last
}

/// Appends the faces of cell (i, j) of a grid, if it is not left out.
fn put_cell_but_holes(faces: &mut Vec<[u32; 3]>, size: u32, i: u32, j: u32) -> Result<(), Memory>
    requires size { (0 < size) × (size < 1000) }
    requires cell { (i < 1000) × (j < 1000) }
    ensures { OnOk result (faces.new.items ≡ faces.old.items ++ faces_but_holes size (i, j)) }
{
    if is_hole(size, i, j) {
        return Ok(());
    }
    put_cell(faces, size, i, j)
}

/// Appends face `k` of a fan.
fn put_fan_face(faces: &mut Vec<[u32; 3]>, k: u32) -> Result<(), Memory>
    requires { k < 2 ^ 20 }
    ensures { OnOk result (faces.new.items ≡ faces.old.items ++ (fan_face k ∷ [])) }
{
    faces.push([0, 2 * k + 1, 2 * k + 2])?;
    Ok(())
}

/// Appends the faces of the patch of number `k`.
fn put_patch_faces(faces: &mut Vec<[u32; 3]>, k: u32) -> Result<(), Memory>
    requires { k < 2 ^ 20 }
    ensures { OnOk result (faces.new.items ≡ faces.old.items ++ patch_faces k) }
{
    put_triangles(faces, 4 * k, 4 * k + 1, 4 * k + 2, 4 * k + 3)
}

/// Appends the faces of the cell of number `k`.
fn put_faces(faces: &mut Vec<[u32; 3]>, kind: GenKind, size: u32, k: u32) -> Result<(), Memory>
    requires size { IsSize size }
    requires k { k < size * size }
    ensures { OnOk result (faces.new.items ≡ faces.old.items ++ lattice_faces kind size k) }
{
    let (i, j) = (k % size, k / size);
    match kind {
        GenKind::Grid => put_cell(faces, size, i, j),
        GenKind::Torus => put_closed_cell(faces, size, i, j),
        GenKind::Holes => put_cell_but_holes(faces, size, i, j),
        GenKind::Fans => put_fan_face(faces, k),
        GenKind::Seams => put_patch_faces(faces, k),
    }
}

/// How many faces a kind has.
fn count_faces(kind: GenKind, size: u32) -> u32
    requires { IsSize size }
{
    let cells = size * size;
    match kind {
        GenKind::Fans => cells,
        GenKind::Holes => {
            let holes = (size - 1) / 2;
            2 * (cells - holes * holes)
        }
        _ => 2 * cells,
    }
}

/// The faces of a kind and a size.
pub(crate) fn make_faces(alloc: Global, kind: GenKind, size: u32) -> Result<Vec<[u32; 3]>, Memory>
    requires { IsSize size }
    ensures { IfOk result (λ faces. faces.items ≡ generated_faces kind size) }
{
    let mut faces = Vec::with_capacity(alloc, count_faces(kind, size) as usize)?;
    for k in 0..size * size {
        put_faces(&mut faces, kind, size, k)?;
    }
    Ok(faces)
}
