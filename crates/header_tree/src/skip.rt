//! Where the skip of a block leads, by its height alone.

ghost use Rattle.std.specs.Prelude.{◌≡◌, ◌<◌};
ghost use Rattle.header_tree.specs.Kept.{skip_height as skip_height_of, without_lowest as without_lowest_of};

fn without_lowest(n: u32) -> u32
    ensures { result ≡ without_lowest_of n }
{
    n & n.saturating_sub(1)
}

/// The height to which the skip of a block of this height leads, so that a few steps lead to any height below
/// (Bitcoin Core's `GetSkipHeight`).
pub(crate) fn skip_height(height: u32) -> u32
    ensures value { result ≡ skip_height_of height }
    ensures lower { 0 < height → result < height }
{
    if height < 2 {
        0
    } else if height % 2 == 1 {
        without_lowest(without_lowest(height - 1)) + 1
    } else {
        without_lowest(height)
    }
}
