//! The commands that wait on an axis.
ghost use Rattle.std.specs.Prelude.{◌≡◌, ℕ, ◌+◌, ◌-◌, ◌<◌, ◌≤◌, if◌then◌else◌, Some, None, nat_lt, ◌==◌, replicate, slice_index, slice_set, take, length};
ghost use Rattle.moves.specs.Axes.{shifted};

use crate::numbers::BlockNumber;
use std::marker::Model;

/// How many commands can wait on an axis.
pub const MAX_WAITING: usize = 4;

/// The blocks whose commands wait, the first to begin first.
// Fixed memory: four places and how many are taken. The kit's `ArrayVec` is no `Copy`, and an axis is copied.
#[derive(Clone, Copy)]
pub struct Queue {
    blocks: [BlockNumber; MAX_WAITING],
    waiting: u8,
}

impl Model for Queue {
    ghost use Rattle.std.specs.Prelude.{◌≤◌};
    ghost use Rattle.moves.specs.Kept.{Waiting};

    ghost Value = { Waiting };

    ghost view = { λ q. record { blocks = q.blocks; waiting = q.waiting } };

    ghost invariant = { λ q. q.waiting ≤ 4 };

    ghost inverse = { λ q. record { blocks = q.blocks; waiting = q.waiting } };
}

impl Queue {
    /// A queue in which none waits.
    pub fn new() -> Queue
        ensures blocks { result.blocks ≡ replicate 4 0 }
        ensures waiting { result.waiting ≡ 0 }
    {
        Queue {
            blocks: [BlockNumber::of(0); MAX_WAITING],
            waiting: 0,
        }
    }

    // Does nothing but say what the type keeps to, in all four places.
    pub(crate) fn sized(&self)
        ensures few { self.now.waiting ≤ 4 }
        ensures queued { (k : ℕ) → slice_index self.now.blocks k < 32 }
    {
        let _ = self.numbers();
        let _ = self.waiting();
    }

    // The numbers at the four places of the queue.
    pub(crate) fn numbers(self) -> [u8; MAX_WAITING]
        ensures numbers { result ≡ self.blocks }
        ensures below { (k : ℕ) → slice_index result k < 32 }
    {
        self.blocks.map(u8::from)
    }

    /// How many wait.
    pub fn waiting(self) -> u8
        ensures same { result ≡ self.waiting }
        ensures few { result ≤ 4 }
    {
        self.waiting
    }

    /// Whether four wait.
    pub fn is_full(self) -> bool
        ensures { result ≡ nat_lt 3 self.waiting }
    {
        usize::from(self.waiting) >= MAX_WAITING
    }

    /// The first to begin, if one waits.
    pub fn first(self) -> Option<BlockNumber>
        ensures { result ≡ (if self.waiting == 0 then None else Some (slice_index self.blocks 0)) }
    {
        if self.waiting == 0 {
            return None;
        }
        Some(self.blocks[0])
    }

    /// The block at a place of the queue, which has four.
    pub fn at(self, place: u8) -> BlockNumber
        requires { place < 4 }
        ensures block { result ≡ slice_index self.blocks place }
        ensures few { self.waiting ≤ 4 }
    {
        self.blocks[usize::from(place)]
    }

    /// The blocks whose commands wait.
    pub fn as_slice(&self) -> &[BlockNumber]
        ensures blocks { result.now ≡ take self.now.waiting self.now.blocks }
        ensures length { length result.now ≡ self.now.waiting }
    {
        &self.blocks[..usize::from(self.waiting)]
    }

    /// The queue with one more, behind the others.
    pub fn joined(mut self, block: BlockNumber) -> Queue
        requires { self.waiting < 4 }
        ensures blocks { result.blocks ≡ slice_set self.blocks self.waiting block }
        ensures waiting { result.waiting ≡ self.waiting + 1 }
    {
        self.blocks[usize::from(self.waiting)] = block;
        self.waiting += 1;
        self
    }

    /// The queue without its first, if there is one.
    pub fn shifted(self) -> Queue
        ensures blocks { result.blocks ≡ shifted self.blocks }
        ensures waiting { result.waiting ≡ self.waiting - 1 }
    {
        let [_, second, third, fourth] = self.blocks;
        Queue {
            blocks: [second, third, fourth, BlockNumber::of(0)],
            waiting: self.waiting.saturating_sub(1),
        }
    }

    /// The queue in which none waits any more.
    pub fn cleared(mut self) -> Queue
        ensures blocks { result.blocks ≡ self.blocks }
        ensures waiting { result.waiting ≡ 0 }
    {
        self.waiting = 0;
        self
    }
}
