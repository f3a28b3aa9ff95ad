//! Laws about the definitions of the devices, as contracts of functions that do nothing.

ghost use Rattle.vcd_devices.specs.Sums.{OneOtherByteShows};

/// Files of which exactly one byte differs have different sums. So passes with one sum did not read
/// such files.
pub fn one_other_byte_shows()
    ensures { OneOtherByteShows }
{}
