// The frames of a circle, one after the other.
ghost use Rattle.std.specs.Prelude.{ℕ, ◌≤◌};

use crate::circle::Circle;
use crate::turned::Turned;
use crate::window::Window;

// The frames that begin at bit `at` or later.
#[derive(Clone, Copy)]
pub(crate) struct Frames<'a> {
    pub circle: Circle<'a>,
    pub at: usize,
    ghost placed: { at ≤ circle.bits },
}

impl<'a> Circle<'a> {
    ghost use Rattle.std.specs.Prelude.{◌≡◌, []};
    ghost use Rattle.track.specs.Circles.{frames};
    ghost use Rattle.track.specs.Shown.{circle_bits, rest, whole, passed};

    // The frames, in order.
    pub(crate) fn frames(&self) -> Frames<'a>
        ensures rest { rest result ≡ frames (circle_bits self.now) }
        ensures whole { whole result ≡ circle_bits self.now }
        ensures passed { passed result ≡ [] }
    {
        Frames {
            circle: *self,
            at: 0,
        }
    }
}

impl<'a> Iterator for Frames<'a> {
    ghost use Rattle.std.specs.Iterator.{item_count};
    ghost use Rattle.track.specs.Shown.{rest, GivesNext};

    type Item = Window<'a>;

    ghost next_gives = { GivesNext };

    ghost remaining = { item_count rest };

    fn next(&mut self) -> Option<Window<'a>> {
        let circle = self.circle;
        let first = circle.next_start(self.at)?;
        self.at = first + 1;
        let turned = Turned { circle, first };
        Some(Window {
            turned,
            count: turned.frame_bits(),
        })
    }
}
