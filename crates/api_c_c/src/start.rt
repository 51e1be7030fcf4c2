// The functions of `api_c::start` under their C names.
ghost use Rattle.std.specs.Prelude.{◌≡◌};
ghost use Rattle.monitor_state.specs.Judge.{start_state};
ghost use Rattle.api_c.specs.Parts.{parts_of, holding};
ghost use Rattle.api_c.specs.Past.{BeginsIn};

use api_c::NUMBERS;
use monitor_sets::SETS;
use monitor_state::PAIR_SETS;
use usage::{MOST_CREATED, MOST_UNCLOSED, POLICIES};

// As `api_c::start::wiforekun_start_parts`.
#[unsafe(no_mangle)]
pub extern "C" fn wiforekun_start_parts(
    sets: &mut [u8; SETS],
    pairs: &mut [u8; PAIR_SETS],
    possible: &mut [u8; POLICIES],
    created: &mut [u32; MOST_CREATED],
    unclosed: &mut [u8; POLICIES],
    order: &mut [u8; MOST_UNCLOSED],
    numbers: &mut [u64; NUMBERS],
)
    ensures numbers_after { parts_of sets.new pairs.new possible.new created.new unclosed.new order.new
        numbers.new ≡ holding start_state }
    ensures begins_in { BeginsIn (parts_of sets.new pairs.new possible.new created.new unclosed.new order.new
        numbers.new) }
{
    api_c::start::wiforekun_start_parts(sets, pairs, possible, created, unclosed, order, numbers)
}
