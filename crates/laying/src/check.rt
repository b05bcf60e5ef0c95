// Whether bits can be laid on a track.
ghost use Rattle.std.specs.Prelude.{◌≡◌};
ghost use Rattle.track.specs.Laying.{fits, lay_result};

use disk::cause::*;
use disk::refusal::*;

// Whether `count` bits, of `given` bytes, fit a circle of `size` bits from place `start` on.
pub(crate) fn span_fits(size: usize, start: usize, count: usize, given: usize) -> bool
    ensures { result ≡ fits size start count given }
{
    start < size && count <= size && count.div_ceil(8) <= given
}

// What laying answers on a track whose circle has `size` bits. Asked by numbers, since a strip would ask its callers for the bytes too.
pub fn lay_check(
    protected: bool,
    size: usize,
    track: u8,
    start: usize,
    count: usize,
    given: usize,
) -> Result<(), Refusal>
    ensures { result ≡ lay_result protected size track start count given }
{
    if !(1..=35).contains(&track) {
        return Err(Refusal::by_track(Cause::NoSuchBlock, track));
    }
    if protected {
        return Err(Refusal::by_track(Cause::Protected, track));
    }
    if !span_fits(size, start, count, given) {
        return Err(Refusal::by_caller(Cause::BadSpan));
    }
    Ok(())
}
