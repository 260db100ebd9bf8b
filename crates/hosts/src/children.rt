//! The children of Compounds, which a host keeps in one list.
ghost use Rattle.std.specs.Prelude.{◌≡◌};
ghost use Rattle.hosts.specs.Children.{part_of};

use crate::questions::Child;

/// How many children a Compound may have.
pub const MOST_CHILDREN: usize = 16;

/// The `count` children from `first` on, where there are 1 to 16 of them and they are all listed; else none.
pub fn part(children: &[Child], first: u32, count: u32) -> &[Child]
    ensures { result.now ≡ part_of children.now first count }
{
    let first = first as usize;
    let count = count as usize;
    if !(1..=MOST_CHILDREN).contains(&count) {
        return &[];
    }
    children.get(first..first + count).unwrap_or(&[])
}
