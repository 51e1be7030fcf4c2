// The start, for callers in C and Rust.
ghost use Rattle.std.specs.Prelude.{◌≡◌};
ghost use Rattle.monitor_state.specs.Judge.{start_state};
ghost use Rattle.api_c.specs.Parts.{parts_of, holding};
ghost use Rattle.api_c.specs.Past.{BeginsIn};

use monitor_sets::SETS;
use monitor_state::PAIR_SETS;
use usage::{MOST_CREATED, MOST_UNCLOSED, POLICIES};

// The lent parts are made those of the start, whatever they held.
pub fn wiforekun_start_parts(
    sets: &mut [u8; SETS],
    pairs: &mut [u8; PAIR_SETS],
    possible: &mut [u8; POLICIES],
    created: &mut [u32; MOST_CREATED],
    unclosed: &mut [u8; POLICIES],
    order: &mut [u8; MOST_UNCLOSED],
    numbers: &mut [u64; crate::NUMBERS],
)
    ensures numbers_after { parts_of sets.new pairs.new possible.new created.new unclosed.new order.new
        numbers.new ≡ holding start_state }
    ensures begins_in { BeginsIn (parts_of sets.new pairs.new possible.new created.new unclosed.new order.new
        numbers.new) }
{
    let s = monitor::start();
    let first_sets = s.tracked.sets;
    let first_pairs = s.tracked.pairs;
    let first_possible = s.tracked.possible;
    let first_numbers = s.created.numbers;
    let first_counts = s.unclosed.counts;
    let first_order = s.unclosed.order;
    *sets = first_sets;
    *pairs = first_pairs;
    *possible = first_possible;
    *created = first_numbers;
    *unclosed = first_counts;
    *order = first_order;
    *numbers = [0, 0, 0, 0];
}
