// Which policies the two blocks of sets belong to. They are read off the edges and not stored.
ghost use Rattle.std.specs.Prelude.{◌≡◌};
ghost use Rattle.monitor_pairs.specs.Which.{blocks_of};

// The two lowest of the pair policies, the lowest first; POLICIES where there is none.
// Kept: no Option: the lowest number of an empty set is POLICIES already, and each use tests for it.
#[derive(Clone, Copy)]
pub struct Blocks {
    pub first: u32,
    pub second: u32,
}

// Of a set of policies.
pub fn lowest_two(m: u8) -> Blocks
    ensures { result ≡ blocks_of m }
{
    let first = u8::trailing_zeros(m);
    if m == 0 {
        return Blocks {
            first,
            second: first,
        };
    }
    let second = u8::trailing_zeros(m & (m - 1));
    Blocks { first, second }
}
