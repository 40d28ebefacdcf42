// How large a sheet is.
ghost use Rattle.std.specs.Prelude.{◌≤◌};

// How many buyers and lots there are, of those that a sheet may have.
#[derive(Clone, Copy)]
pub struct Size {
    pub buyers: usize,
    pub lots: usize,
    pub ghost small: { (buyers ≤ 6) × (lots ≤ 4) },
}
