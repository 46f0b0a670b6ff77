//! The surface that values stand on: traced, taken in the order of decoding, cut at seams, and put in an order.

pub mod attribute_surfaces;
pub mod carried_surfaces;
pub mod cut_surfaces;
pub mod made_orders;
pub mod ordered_surface;
pub mod ordering;
pub mod seam_lists;
pub mod seamed_surface;
pub mod shared_classes;
pub mod traced_surfaces;
pub mod turned_meshes;
