ghost use Rattle.std.specs.Prelude.{◌≡◌};
ghost use Rattle.pt_strat.specs.Labels.{node_label, part_label};

/// The label of the span round all that a node draws.
pub fn node_label(num: u32) -> u32
    ensures { result ≡ node_label num }
{
    ((u64::from(num) * 2 + 32) % 4_294_967_296) as u32
}

/// The label of each of its parts.
pub fn part_label(num: u32) -> u32
    ensures { result ≡ part_label num }
{
    ((u64::from(num) * 2 + 33) % 4_294_967_296) as u32
}
