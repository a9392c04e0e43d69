// Reading a table: the part of one of the two rows that holds it.
ghost use Rattle.std.specs.Prelude.{◌≡◌};
ghost use Rattle.tables.specs.Part.{front, part_of};

// The first `count` cells, or none where there are fewer.
fn prefix<S>(row: &[S], count: usize) -> &[S]
    ensures { result.now ≡ front count row.now }
{
    row.get(..count).unwrap_or(&[])
}

// The first `count` cells of the row of `side`, 0 or 1; none for another side or a shorter row. The
// side is a number here, since any may be asked for.
pub fn table_part<'a, S>(first: &'a [S], second: &'a [S], side: u32, count: u32) -> &'a [S]
    ensures { result.now ≡ part_of side count first.now second.now }
{
    match side {
        0 => prefix(first, count as usize),
        1 => prefix(second, count as usize),
        _ => prefix(first, 0),
    }
}
