// The union of many sets of states.
ghost use Rattle.std.specs.Prelude.{◌+◌, ◌≤◌, ◌≡◌, length, get_or};
ghost use Rattle.std.specs.Int.Bits.{bit_or};
ghost use Rattle.automaton.specs.Mask.{union};
ghost use Rattle.monitor_sets.specs.Code.{lanes};

// How many sets one instruction joins.
const LANES: usize = 16;

// As many sets from place k on, joined to as many others.
fn join_lanes(all: &mut [u8; LANES], sets: &[u8], k: usize)
    requires { k + lanes ≤ length sets.now }
    ensures { union lanes (λ i. get_or all.new i 0)
        ≡ bit_or (union lanes (λ i. get_or all.old i 0)) (union lanes (λ i. get_or sets.now (k + i) 0)) }
{
    for i in 0..LANES {
        all[i] |= sets[k + i];
    }
}

// The union of the sets, one after the other.
fn union_few(sets: &[u8]) -> u8
    ensures { result ≡ union (length sets.now) (λ i. get_or sets.now i 0) }
{
    let mut m: u8 = 0;
    for set in sets {
        m |= *set;
    }
    m
}

// The same, many at once. The last ones reach back over some that are joined already, which changes nothing.
// Kept: tried: as one loop over the sets the last of them are joined one by one, in up to twice the instructions. Inlined: an event calls
// it for each policy that moves nothing.
#[inline(always)]
pub fn union_all(sets: &[u8]) -> u8
    ensures { result ≡ union (length sets.now) (λ i. get_or sets.now i 0) }
{
    let n = sets.len();
    if n < LANES {
        return union_few(sets);
    }
    let mut all = [0u8; LANES];
    for i in 0..n / LANES {
        join_lanes(&mut all, sets, LANES * i);
    }
    join_lanes(&mut all, sets, n - LANES);
    union_few(&all)
}
