// What a call changed: two images are compared entry by entry.
ghost use Rattle.std.specs.Prelude.{◌≡◌, true, ℕ, ◌+◌, ◌<◌, ◌≤◌, get_or};
ghost use Rattle.rules.specs.Limits.{limits};
ghost use Rattle.call_image.specs.Image.{image_length};

use crate::image::Image;
use tables::PlanarGraph;

// The counts and the stage, and the images of everything lent, before and after a call.
#[derive(Clone, Copy)]
pub struct Change<'a> {
    pub old: PlanarGraph,
    pub new: PlanarGraph,
    pub before: &'a Image,
    pub after: &'a Image,
}

impl Change<'_> {
    // Whether the images are alike from one place to another.
    pub(crate) fn same_part(self, from: usize, to: usize) -> bool
        requires { to ≤ image_length limits }
        ensures { result ≡ true → (k : ℕ) → k < to → from ≤ k → get_or self.entry.before.now k 0 ≡ get_or self.entry.after.now k 0 }
    {
        let Change { before, after, .. } = self;
        to <= from || before[from..to] == after[from..to]
    }

    // Whether the table that begins at `at` kept its entries but for those from `first` up to `last`.
    pub(crate) fn same_around(self, at: usize, size: usize, first: usize, last: usize) -> bool
        requires { at + size ≤ image_length limits }
    {
        self.same_part(at, at + first.min(size)) && self.same_part(at + last.min(size), at + size)
    }
}
