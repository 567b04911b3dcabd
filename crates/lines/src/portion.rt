// What a line that is shared by energy divides by.
ghost use Rattle.lines.specs.Inner.Shared.{Shared};

// An account's own energy, and the total that it is part of.
#[derive(Clone, Copy)]
pub struct Portion {
    pub own: u64,
    pub total: u64,
    pub ghost shared: { Shared own total },
}
