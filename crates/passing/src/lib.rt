// Which scores pass a percentage: those that are not less than the least that does, which is found once for a request.
#![tactic(auto)]

ghost use Rattle.std.specs.Prelude.{◌≡◌, ◌≤◌, ◌^◌, leb};
ghost use Rattle.diagram.specs.Table as tables;
ghost use Rattle.diagram.specs.Table.{Table};
ghost use Rattle.diagram.specs.Plans.{LeastPassing};

// The least score that passes: the percentage of B, rounded up. Whoever calls has a percentage that has passed check 23 and the B
// of an accepted table, which is at most 2^56.
pub fn least_passing(percent: u32, scale: u64) -> u64
    requires { (percent ≤ 100) × (scale ≤ 2 ^ 56) }
    ensures { (t : Table) → scale ≡ tables.scale t → LeastPassing t percent result }
{
    (percent as u64 * scale).div_ceil(100)
}

// Whether a score passes, by the least that does; and in a search, whether a bound reaches the least that is worth a visit.
pub fn passes(least: u64, score: u64) -> bool
    ensures { result ≡ leb least score }
{
    least <= score
}
