//! How many entities of a shard exist.
ghost use Rattle.std.specs.Prelude.{◌≡◌, ◌+◌, ◌-◌, ◌<◌, true, if◌then◌else◌};

/// An entity of the shard exists from now on, which may have existed before.
pub(crate) fn count_in(count: &mut u32, was: bool)
    requires { count.old < 4294967295 }
    ensures { count.new ≡ if was then count.old else count.old + 1 }
{
    if !was {
        *count += 1;
    }
}

/// An entity of the shard doesn't exist from now on, which may have existed before.
pub(crate) fn count_out(count: &mut u32, was: bool)
    requires { was ≡ true → 0 < count.old }
    ensures { count.new ≡ if was then count.old - 1 else count.old }
{
    if was {
        *count -= 1;
    }
}
