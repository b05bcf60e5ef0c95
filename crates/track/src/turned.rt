// A circle turned to begin at one of its bits, and whether a frame begins there.
ghost use Rattle.std.specs.Prelude.{ℕ, ◌<◌};

use crate::circle::Circle;

// The bits of `circle` from bit `first` on, round its end.
#[derive(Clone, Copy)]
pub(crate) struct Turned<'a> {
    pub circle: Circle<'a>,
    pub first: usize,
    ghost placed: { first < circle.bits },
}

impl<'a> Turned<'a> {
    ghost use Rattle.std.specs.Prelude.{◌≡◌, ◌≤◌, false, length, drop, slice_index_or};
    ghost use Rattle.track.specs.Circles.{ones, before, start};
    ghost use Rattle.track.specs.Shown.{turned_bits};

    // Bit `i`. By cases: a `%` would be a division for each bit that is read.
    pub(crate) fn bit(&self, i: usize) -> bool
        requires { i < self.now.circle.bits }
        ensures { result ≡ slice_index_or (turned_bits self.now) i false }
    {
        let left = self.circle.bits - i;
        if self.first < left {
            self.circle.bit(self.first + i)
        } else {
            self.circle.bit(self.first - left)
        }
    }

    // Whether ten ones stand in a row from bit `i` on, before the circle closes.
    fn ten_ones(&self, i: usize) -> bool
        requires { i ≤ self.now.circle.bits }
        ensures { result ≡ ones 10 (drop i (turned_bits self.now)) }
    {
        i + 10 <= self.circle.bits && (i..i + 10).all(|k| self.bit(k))
    }

    // Whether a frame begins here.
    pub(crate) fn begins_frame(&self) -> bool
        ensures { result ≡ start (turned_bits self.now) }
    {
        !self.bit(0) && self.ten_ones(self.circle.bits.saturating_sub(10))
    }

    // How many bits the frame has that begins here.
    pub(crate) fn frame_bits(&self) -> usize
        ensures { result ≡ length (before (turned_bits self.now)) }
    {
        (0..self.circle.bits)
            .find(|i| self.ten_ones(*i))
            .unwrap_or(self.circle.bits)
    }
}

impl<'a> Circle<'a> {
    ghost use Rattle.std.specs.Prelude.{◌≡◌, ◌-◌, ◌≤◌, MatchOption};
    ghost use Rattle.std.specs.List.{find, range_with_len};
    ghost use Rattle.track.specs.Circles.{turned, start};
    ghost use Rattle.track.specs.Shown.{circle_bits, turned_bits};

    // The circle, turned to begin at bit `first`, where it has that bit.
    pub(crate) fn turned_at(&self, first: usize) -> Option<Turned<'a>>
        ensures { MatchOption result (self.now.bits ≤ first) (λ t. turned_bits t ≡ turned first (circle_bits self.now)) }
    {
        if first < self.bits {
            Some(Turned {
                circle: *self,
                first,
            })
        } else {
            None
        }
    }

    // The first bit at which a frame begins, from bit `from` on and short of the circle's end. The closure asks for a bit of the circle, which the range gives; `turned_at` in its place leaves `returns` open.
    pub(crate) fn next_start(&self, from: usize) -> Option<usize>
        ensures { result ≡ find (λ p. start (turned p (circle_bits self.now))) (range_with_len from (self.now.bits - from)) }
    {
        (from..self.bits).find(
            |at|
                requires { at.now < self.now.bits }
            {
                let turned = Turned {
                    circle: *self,
                    first: *at,
                };
                turned.begins_frame()
            },
        )
    }
}
