//! Up to eight drives of one kind.
ghost use Rattle.std.specs.Prelude.{◌≡◌, ◌≤◌, length};

/// The most axes that a segment has.
pub const MAX_AXES: usize = 8;

/// A row of 1 to 8 drives: the first `count` of them.
#[derive(Drop)]
pub struct Bank<D> {
    // Fixed memory, and no `ArrayVec`: what a new row promises, it promises of all eight drives.
    pub(crate) drives: [D; MAX_AXES],
    pub(crate) count: usize,
    ghost long: { length drives ≡ 8 },
    ghost some: { 1 ≤ count },
    ghost few: { count ≤ 8 },
}
