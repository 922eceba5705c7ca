// The sizes of tables.
ghost use Rattle.std.specs.Prelude.{◌≡◌, Decides};
ghost use Rattle.tree.specs.Sizes.{fit, sized, Size};

// Whether a table of elements may have `n` of them: a power of two from 1 to 4,096.
pub fn is_size(n: usize) -> bool
    ensures value { result ≡ sized n }
    ensures power { Decides result (Size n) }
{
    n.is_power_of_two() && n <= 4096
}

// Whether the numbers of elements and of digests are those of one table.
pub(crate) fn tables_fit(elements: usize, digests: usize) -> bool
    ensures { result ≡ fit elements digests }
{
    is_size(elements) && digests == 2 * elements
}
