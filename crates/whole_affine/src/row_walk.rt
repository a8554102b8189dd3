// The points of a row of pixels, one after another.
ghost use Rattle.std.specs.Prelude.{◌≡◌, ℤ, ◌+◌, ◌*◌, ◌<◌, ◌≤◌, ◌^◌, List, unsigned_abs, slice_index_or, pos};
ghost use Rattle.std.specs.Iterator.{YieldsFirst, item_count};
ghost use Rattle.whole_affine.specs.Affine.{row_points};
ghost use Rattle.whole_affine.specs.Walks.{stepped, FitsWalk};

use crate::affine::Affine;

/// An iterator over the points of a row of pixels, from column 0 on, by additions.
#[derive(Drop)]
pub struct RowWalk {
    point: [i64; 3],
    step: [i64; 3],
    left: u32,
    ghost fits: { FitsWalk point step left },
}

impl RowWalk {
    ghost use Rattle.whole_affine.specs.RowWalk.{points_left};

    /// The points of row `y`, for columns 0 to `width - 1`.
    pub fn new(affine: &Affine, y: u32, width: u32) -> RowWalk
        requires y { y < 4096 }
        requires width { width ≤ 4096 }
        ensures { points_left result ≡ row_points affine.now y 0 width }
    {
        RowWalk {
            point: affine.at(0, y),
            step: affine.columns(),
            left: width,
        }
    }
}

impl Iterator for RowWalk {
    type Item = [i64; 3];

    ghost use Rattle.whole_affine.specs.RowWalk.{points_left};
    ghost use Rattle.std.specs.Iterator.{YieldsFirst, item_count};

    ghost next_gives = { YieldsFirst points_left };

    ghost remaining = { item_count points_left };

    fn next(&mut self) -> Option<[i64; 3]> {
        if self.left == 0 {
            return None;
        }
        let point = self.point;
        self.left -= 1;
        self.point = stepped(point, self.step);
        Some(point)
    }
}

/// The next point.
fn stepped(point: [i64; 3], step: [i64; 3]) -> [i64; 3]
    requires { FitsWalk point step 1 }
    ensures { result ≡ stepped point step }
{
    [point[0] + step[0], point[1] + step[1], point[2] + step[2]]
}
