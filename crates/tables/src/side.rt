// The side of a table: which of the two rows holds it.
ghost use Rattle.std.specs.Prelude.{◌≡◌, ◌%◌};
ghost use Rattle.tables.specs.Side.{side_number};

#[derive(Clone, Copy, PartialEq, Eq, Debug)]
pub enum Side {
    First = 0,
    Second = 1,
}

impl Side {
    // The side after so many courses: the rows take turns, from the first.
    pub(crate) fn after(courses: u32) -> Side
        ensures { side_number result ≡ courses % 2 }
    {
        if courses % 2 == 0 {
            Side::First
        } else {
            Side::Second
        }
    }
}

// The number of the side.
impl From<Side> for u32 {
    ghost from_gives = { λ s n. n ≡ side_number s };

    fn from(side: Side) -> u32 {
        side as u32
    }
}
