//! A stage, and what lies below it.
ghost use Rattle.std.specs.Prelude.{◌≡◌};

use crate::view::View;
use segment::Segment;

/// A segment in which each axis of the one below is seen through a view.
#[derive(Drop)]
pub struct Stage<V, S> {
    pub(crate) view: V,
    pub(crate) below: S,
}

impl<V: View, S: Segment> Stage<V, S> {
    /// Puts a view over a segment.
    pub fn over(below: S, view: V) -> Stage<V, S>
        ensures below { result.below ≡ below }
        ensures view { result.view ≡ view }
    {
        Stage { view, below }
    }
}

impl<V, S> Stage<V, S> {
    /// The segment below, for questions that only it can answer.
    pub fn below(&self) -> &S
        ensures { result.now ≡ self.now.below }
    {
        &self.below
    }
}
