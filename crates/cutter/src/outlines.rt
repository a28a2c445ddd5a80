// A sheet whose turn list is right: an outline begins with each edge 0 along the turn list.
ghost use Rattle.std.specs.Prelude.{◌*◌, ◌≤◌, length};
ghost use Rattle.sheet.specs.Amounts.{numbers_per_edge};
ghost use Rattle.cutter.specs.Joined.{Within, Standing};

// The lists, with the facts that they are read by.
#[derive(Clone, Copy)]
pub struct Outlines<'a> {
    pub edges: &'a [i32],
    pub polygons: &'a [u32],
    pub sequences: &'a [u32],
    pub turns: &'a [u32],
    ghost within: { Within polygons.now turns.now },
    ghost standing: { Standing sequences.now turns.now },
    ghost long: { numbers_per_edge * length sequences.now ≤ length edges.now },
}
