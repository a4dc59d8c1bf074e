//! The handles of columns.
ghost use Rattle.std.specs.Prelude.{◌≤◌, length};
ghost use Rattle.readings.specs.declared.TheConstants.{MOST_SLICES};

/// The handles of a column's slices, slice 0 first.
#[derive(Clone, Copy)]
pub struct SliceHandles<'a> {
    pub handles: &'a [u32],
    pub ghost some: { 1 ≤ length handles.now },
    pub ghost few: { length handles.now ≤ MOST_SLICES },
}

/// The handles of the slices of four columns, one for each component of a quadruple.
#[derive(Clone, Copy)]
pub struct Slices<'a> {
    pub a: SliceHandles<'a>,
    pub b: SliceHandles<'a>,
    pub c: SliceHandles<'a>,
    pub d: SliceHandles<'a>,
}
