// A design: a limit, and the figures there.
use crate::share::Share;
use std::fmt;

#[derive(Clone, Copy)]
pub struct Design {
    pub limit: u32,
    // the share of the good sequences that is stopped, by weight
    pub good: Share,
    // the share of the off sequences that is stopped, by weight
    pub off: Share,
    // the least cost of a stopped off sequence
    pub mildest: Option<u64>,
}

impl fmt::Display for Design {
    fn fmt<W: fmt::Write>(&self, f: &mut fmt::Formatter<W>) -> fmt::Result {
        writeln!(f, "(limit {})", self.limit)?;
        writeln!(f, "(good {})", self.good)?;
        writeln!(f, "(off {})", self.off)?;
        match self.mildest {
            Some(cost) => write!(f, "(mildest {cost})"),
            None => write!(f, "(mildest none)"),
        }
    }
}
