// The numbers of entries: e % 6 is what the names mean of the first dynamic resource, and the group e / 6 tells of the second. An entry
// that a rule leads to lies in the same group or a lower one.
// Kept: an entry is its number and no struct, since the number is its place in the tables, and each rule makes other entries of one; so its
// bound stands in the contracts.
ghost use Rattle.std.specs.Prelude.{◌≡◌, true, ℕ, suc, ◌*◌, ◌/◌, ◌<◌, ◌≤◌};
ghost use Rattle.checker_account.specs.Single.{no_name};
ghost use Rattle.checker_account.specs.Tables.{unnamed, meanings, late_group, numbered, meaning_in, group_in, waits, is_late_lem, in_group_lem, entry_after};
ghost use Rattle.checker_account.specs.Tables.{group_forgotten_lem, forgotten_in, first_named_lem, second_named_lem, meant_at};
ghost use Rattle.checker_account.specs.Tables.{least, entries_of_lem, codes_of, first_code_lem};

use checker_account::{
    LATE, MEANINGS, NAMES, OTHERS, PAIR_CODES, PAIR_ENTRIES, Resources, UNNAMED, WAITING, WATCHED,
    WATCHED_TOO,
};

// ── One entry ──

// The entry with meaning m in group g.
fn numbered(m: usize, g: usize) -> usize
    requires m_lt_meanings { m < meanings }
    requires g_le_late_group { g ≤ late_group }
    ensures { result ≡ numbered m g }
{
    m + MEANINGS * g
}

// What the names mean of the first dynamic resource. Where the second is not watched, as mostly, the entry is that meaning: nothing is
// divided, here and below.
pub(crate) fn meaning(e: usize) -> usize
    ensures { result ≡ meaning_in e }
{
    if e < MEANINGS {
        return e;
    }
    e % MEANINGS
}

// The group, which tells of the second.
fn group(e: usize) -> usize
    ensures { result ≡ group_in e }
{
    if e < MEANINGS {
        return 0;
    }
    e / MEANINGS
}

// Can the second still be created?
pub(crate) fn waits(e: usize) -> bool
    ensures { result ≡ waits e }
{
    if e < MEANINGS {
        return false;
    }
    e / MEANINGS == WAITING
}

// Is it created by the end?
pub(crate) fn is_late(e: usize) -> bool
    ensures { result ≡ is_late_lem e }
{
    if e < MEANINGS {
        return false;
    }
    e / MEANINGS == LATE
}

// The same meaning in group g.
pub(crate) fn in_group(g: usize, e: usize) -> usize
    requires { g ≤ late_group }
    ensures { result ≡ in_group_lem g e }
{
    numbered(meaning(e), g)
}

// The entry once the first resource was created.
pub(crate) fn after(e: usize) -> usize
    requires { group_in e ≤ late_group }
    ensures value { result ≡ entry_after e true }
    ensures result_value { group_in result ≡ group_in e }
{
    let m = crate::lose(meaning(e), 0);
    numbered(m, group(e))
}

// The group once name n is given to another resource than the second.
fn group_forgotten(g: usize, n: usize) -> usize
    requires g_le_late_group { g ≤ late_group }
    requires n_lt_no_name { n < no_name }
    ensures value { result ≡ group_forgotten_lem g n }
    ensures upper_bound { result ≤ g }
{
    if g + n == NAMES { 0 } else { g }
}

// The entry once name n is given to another resource than both.
pub(crate) fn forgotten(e: usize, n: usize) -> usize
    requires e_bound { group_in e ≤ late_group }
    requires n_lt_no_name { n < no_name }
    ensures value { result ≡ forgotten_in e n }
    ensures result_bound { group_in result ≤ group_in e }
{
    let m = crate::lose(meaning(e), n + 1);
    let g = group_forgotten(group(e), n);
    numbered(m, g)
}

// The entry once it is given to the first.
pub(crate) fn first_named(e: usize, n: usize) -> usize
    requires e_bound { group_in e ≤ late_group }
    requires n_lt_no_name { n < no_name }
    ensures value { result ≡ first_named_lem e n }
    ensures result_bound { group_in result ≤ group_in e }
{
    let g = group_forgotten(group(e), n);
    numbered(n + 1, g)
}

// The entry once it is given to the second.
pub(crate) fn second_named(e: usize, n: usize) -> usize
    requires { n < no_name }
    ensures value { result ≡ second_named_lem e n }
    ensures result_bound { group_in result ≤ no_name }
{
    let m = crate::lose(meaning(e), n + 1);
    numbered(m, NAMES - n)
}

// The resource that name n means.
pub(crate) fn meant(e: usize, n: usize) -> usize
    requires { n < 256 }
    ensures { result ≡ meant_at e n }
{
    if meaning(e) == n + 1 {
        return WATCHED;
    }
    if group(e) + n == NAMES {
        return WATCHED_TOO;
    }
    OTHERS as usize
}

// ── Those that occur ──

// The least: where the first dynamic resource is not watched, only the last meaning occurs.
pub fn least(x: Resources) -> usize
    ensures value { result ≡ least x }
    ensures upper_bound { result ≤ unnamed }
{
    if x.first == WATCHED {
        return 0;
    }
    if x.second == WATCHED {
        return 0;
    }
    UNNAMED
}

// How many entries there are, up to the greatest.
pub(crate) fn entries_of(x: Resources) -> usize
    ensures { result ≡ entries_of_lem x }
{
    if x.second == WATCHED_TOO {
        PAIR_ENTRIES
    } else {
        MEANINGS
    }
}

// How many codes.
pub(crate) fn codes_of(x: Resources) -> usize
    ensures { result ≡ codes_of x }
{
    if x.second == WATCHED_TOO {
        PAIR_CODES
    } else {
        MEANINGS
    }
}

// The code of the whole outline: what is watched can still be created.
pub(crate) fn first_code(x: Resources) -> usize
    ensures { result ≡ first_code_lem x }
{
    if x.second == WATCHED_TOO {
        least(x) + MEANINGS * WAITING
    } else {
        least(x)
    }
}
