ghost use Rattle.std.specs.Prelude.{◌≡◌, ◌<◌};
ghost use Rattle.vh_wheel.specs.Views.{bucket_from};

/// The bucket of the nodes that are free: those of the levels stand before it.
pub const FREE: u32 = 2048;

// The bucket of a time, seen from the present time.
pub fn bucket_of(now: u64, time: u64) -> u32
    ensures value { result ≡ bucket_from 7 now time }
    ensures range { result < 2048 }
{
    let mut base = now;
    let mut rest = time;
    for level in 0..7u32 {
        if base / 256 == rest / 256 {
            return 256 * level + (rest % 256) as u32;
        }
        base /= 256;
        rest /= 256;
    }
    1792 + rest as u32
}
