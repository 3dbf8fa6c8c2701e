//! The numbers from one on, all but one of them.
ghost use Rattle.std.specs.Prelude.{◌≡◌, ◌+◌, ◌<◌, ◌^◌};
ghost use Rattle.judge_pool.specs.Graphs.{other_of};

/// The i-th number from the first on that is not this one.
pub fn other_number(first: u16, this: u16, i: u16) -> u16
    requires { first + i + 1 < 2 ^ 16 }
    ensures { result ≡ other_of first this i }
{
    if first + i < this {
        first + i
    } else {
        first + i + 1
    }
}
