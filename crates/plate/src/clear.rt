// Setting cells to 0.
ghost use Rattle.std.specs.Prelude.{◌≡◌, length};
ghost use Rattle.kernels_model.specs.Listed.{zeros};

// Every cell set to 0.
pub(crate) fn clear(cells: &mut [u64])
    ensures { cells.new ≡ zeros (length cells.old) }
{
    cells.fill(0);
}
