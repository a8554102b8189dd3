// The byte that shows a number.
ghost use Rattle.std.specs.Prelude.{◌≡◌, ◌<◌, ◌*◌, ◌/◌, ◌-◌, ◌^◌};
ghost use Rattle.scale_pick.specs.Shade.{shown, scale_of};

/// The byte that shows a number in a range: 0 up to `low`, 255 from `high` on, and between them in proportion, rounded down.
pub fn shown(v: u64, low: u64, high: u64) -> u8
    requires { low < high }
    ensures { result ≡ shown v low high }
{
    if v <= low {
        0
    } else if v >= high {
        255
    } else {
        part(v - low, high - low)
    }
}

/// So much of a span, in 255 parts. Only a product above 64 bits takes 128.
fn part(much: u64, span: u64) -> u8
    requires { much < span }
    ensures { result ≡ much * 255 / span }
{
    if span <= u64::MAX / 255 {
        (much * 255 / span) as u8
    } else {
        (much as u128 * 255 / span as u128) as u8
    }
}

/// A range made ready for many numbers: where it spans at most 2^24 numbers, one multiplication shows each, and no division.
#[derive(Clone, Copy, Debug)]
pub struct Shades {
    pub low: u64,
    pub high: u64,
    // 255 times 2^56 over the span, rounded up; 0 where the span is too long for it
    scale: u64,
    ghost range: { low < high },
    ghost scaled: { scale ≡ scale_of (high - low) },
}

/// The longest span that is shown by a multiplication.
const LONGEST: u64 = 16777216;

impl Shades {
    /// The range from `low` to `high`. One division.
    pub fn new(low: u64, high: u64) -> Shades
        requires { low < high }
        ensures low { result.low ≡ low }
        ensures high { result.high ≡ high }
    {
        let span = high - low;
        let scale = if span <= LONGEST {
            255 * (1u64 << 56).div_ceil(span)
        } else {
            0
        };
        Shades { low, high, scale }
    }

    /// The byte that shows a number in this range, as `shown` does.
    pub fn shown(self, v: u64) -> u8
        ensures { result ≡ shown v self.low self.high }
    {
        if self.scale == 0 {
            return shown(v, self.low, self.high);
        }
        let much = v.saturating_sub(self.low).min(self.high - self.low);
        ((much * self.scale) >> 56) as u8
    }
}
